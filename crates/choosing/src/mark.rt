// Marks by curve number: 1 at a chosen cell, 0 at any other. Numbers and no Booleans, since the definitions of marks (`with_cells`, `marks_of`) and what is
// proved of them have them so.
ghost use Rattle.std.specs.Prelude.{◌≡◌, [], ◌∷◌, length};
ghost use Rattle.grid.specs.Units.{cells};
ghost use Rattle.methods.specs.Reach.{columns_of, cells_of_row, cells_of};
ghost use Rattle.methods.specs.Marks.{with_cells};
ghost use Rattle.choosing.specs.Mark.{no_marks, Marked, CanMarkBlock, CanMarkRow, CanMarkCell};

use grid::{Cell, CurveNumbers};
use methods::Block;

// Every mark taken away.
pub fn clear(marks: &mut [u8])
    requires { length marks.old ≡ cells }
    ensures { marks.new ≡ no_marks }
{
    marks.fill(0);
}

// Marks a cell. Here and below the curve numbers are lent alone: no slot is asked for, as SlotRows would.
fn mark_cell(curve: &CurveNumbers, c: Cell, marks: &mut [u8])
    requires { CanMarkCell c marks.old }
    ensures { marks.new ≡ with_cells marks.old (c ∷ []) }
{
    marks[curve.number_of(c)] = 1;
}

// Marks a block's cells of one row.
fn mark_row(curve: &CurveNumbers, b: Block, row: usize, marks: &mut [u8])
    requires { CanMarkRow b row marks.old }
    ensures { Marked marks.old (cells_of_row row b.first_column (columns_of b)) marks.new }
{
    for column in b.first_column..=b.last_column {
        mark_cell(curve, Cell { column, row }, marks);
    }
}

// Marks a block's cells, by the curve numbers that a pass holds.
pub fn mark_block_by(curve: &CurveNumbers, b: Block, marks: &mut [u8])
    requires { CanMarkBlock b marks.old }
    ensures { Marked marks.old (cells_of b) marks.new }
{
    for row in b.first_row..=b.last_row {
        mark_row(curve, b, row, marks);
    }
}

// `mark_block_by`, for a caller that holds no curve numbers: they are made for this block.
pub fn mark_block(b: Block, marks: &mut [u8])
    requires { CanMarkBlock b marks.old }
    ensures { Marked marks.old (cells_of b) marks.new }
{
    mark_block_by(&CurveNumbers::new(), b, marks);
}
