// The bounds of the rows of a block, from one slot of a lent table, found in one pass: document 02, A2. Choosing goes by the rows that it holds
// (`bounds_after_in` and so on). For a caller that has a table and a slot alone there are functions that make these rows first.
ghost use Rattle.std.specs.Prelude.{◌≡◌, suc, ◌+◌, ◌-◌, ◌<◌};
ghost use Rattle.grid.specs.Units.{side};
ghost use Rattle.rows.specs.Needs.{HasSlot};
ghost use Rattle.methods.specs.Methods.{bounds_in, phase_bounds};
ghost use Rattle.methods.specs.BoundsInOnePass.{bounds_after};
ghost use Rattle.methods.specs.Slots.{rows_of_slot};
ghost use Rattle.choosing.specs.Bounds.{cells_before, BlockOnGrid, CanReadCell, CanBound, CanBoundAfter, CanBoundAfterInSlot, CanGoOn};
ghost use Rattle.choosing.specs.Slot.{rows_in};

use crate::slot::SlotRows;
use grid::Cell;
use methods::Block;
use rows::Row;

// The row of a cell, over a slot of a lent table and the grid's table of curve numbers: what `SlotRows` finds of those that it holds.
pub fn row_of_cell(numbers: &[u16; grid::CELLS], table: &[i16], slot: usize, c: Cell) -> Row
    requires { CanReadCell numbers.now table.now slot c }
    ensures { result ≡ rows_of_slot table.now slot c }
{
    Row::read(table, slot, grid::number_in(numbers, c))
}

// How many columns, or rows, there are from the first to the last; none where the last comes before the first.
fn count(first: usize, last: usize) -> usize
    requires { last < side }
    ensures { result ≡ suc last - first }
{
    (last + 1).saturating_sub(first)
}

// The bounds after the first n cells of a row, from those after all cells of the block's rows before it.
fn go_on_in_row(rows: &SlotRows, b: Block, row: usize, n: usize, before: Row) -> Row
    requires { CanGoOn (rows_in rows.now) b row n before }
    ensures { result ≡ bounds_after (cells_before b row + n) (rows_in rows.now) b }
{
    let mut bounds = before;
    for done in 0..n {
        let seen = rows.row_of(Cell {
            column: b.first_column + done,
            row,
        });
        bounds = bounds.join(seen);
    }
    bounds
}

// The bounds of the rows of a block's first k cells, for every k up to their number: one pass, row by row from the low corner, each cell once.
pub fn bounds_after_in(k: usize, rows: &SlotRows, b: Block) -> Row
    requires { CanBoundAfter k b }
    ensures { result ≡ bounds_after k (rows_in rows.now) b }
{
    let columns = count(b.first_column, b.last_column);
    let mut bounds = Row::empty();
    let mut row = b.first_row;
    let mut left = k;
    // No `for` over the block's rows: the pass ends where no more than one row's cells are left, which may be at any of them.
    while columns < left {
        bounds = go_on_in_row(rows, b, row, columns, bounds);
        row += 1;
        left -= columns;
    }
    go_on_in_row(rows, b, row, left, bounds)
}

// The bounds of a block's rows: after all of its cells.
pub fn block_bounds_in(rows: &SlotRows, b: Block) -> Row
    requires { BlockOnGrid b }
    ensures { result ≡ bounds_in (rows_in rows.now) b }
{
    let cells = count(b.first_row, b.last_row) * count(b.first_column, b.last_column);
    bounds_after_in(cells, rows, b)
}

// The bounds of all rows of a slot, in one pass by curve number, for which no curve numbers are needed.
pub fn phase_bounds(table: &[i16], slot: usize) -> Row
    requires { HasSlot table.now slot }
    ensures { result ≡ phase_bounds (rows_of_slot table.now slot) }
{
    lanes::slot_bounds(table, slot)
}

// The same of the rows that are held.
pub fn phase_bounds_in(rows: &SlotRows) -> Row
    ensures { result ≡ phase_bounds (rows_in rows.now) }
{
    phase_bounds(rows.table, rows.slot)
}

// `bounds_after_in`, over a slot of a lent table.
pub fn bounds_after(k: usize, table: &[i16], slot: usize, b: Block) -> Row
    requires { CanBoundAfterInSlot k table.now slot b }
    ensures { result ≡ bounds_after k (rows_of_slot table.now slot) b }
{
    bounds_after_in(k, &SlotRows::new(table, slot), b)
}

// `block_bounds_in`, over a slot of a lent table.
pub fn block_bounds(table: &[i16], slot: usize, b: Block) -> Row
    requires { CanBound table.now slot b }
    ensures { result ≡ bounds_in (rows_of_slot table.now slot) b }
{
    block_bounds_in(&SlotRows::new(table, slot), b)
}
