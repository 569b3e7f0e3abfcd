// A square of the grid that a shape is drawn in, its quarters, and a square of one cell numbered.
ghost use Rattle.std.specs.Prelude.{◌≡◌, ◌<◌, ◌^◌, set};
ghost use Rattle.grid.specs.Units as Units;
ghost use Rattle.grid.specs.Curve.{cell};
ghost use Rattle.drawing.specs.Squares.{quarter_of, table_place};
ghost use Rattle.drawing.specs.Needs.{Fits, Cuts};

use grid::{CELLS, Cell, SIDE};

// 2 to the power of this is the side of the grid.
pub const ORDER: usize = 5;

// Its side is 2 to the power of the order. It starts at a column and a row, and the first cell visited in it gets the number `first`.
#[derive(Clone, Copy)]
pub struct Square {
    pub order: usize,
    pub column: usize,
    pub row: usize,
    pub first: usize,
}

impl Square {
    // The quarter at a corner, a cell of a square of side 2, that is visited as the part of this number, from 0 on.
    pub fn quarter(self, part: usize, corner: Cell) -> Square
        requires { Cuts self part corner }
        ensures cut { result ≡ quarter_of self part corner }
        ensures lower { result.order < self.order }
        ensures fits { Fits result }
    {
        let order = self.order - 1;
        let side = side_of(order);
        Square {
            order,
            column: self.column + corner.column * side,
            row: self.row + corner.row * side,
            first: self.first + part * (side * side),
        }
    }

    // The number of a square of one cell.
    pub fn number_cell(self, out: &mut [u16; CELLS])
        requires { Fits self }
        ensures { out.new ≡ set out.old (table_place self (cell 0 0)) self.first }
    {
        out[self.row * SIDE + self.column] = self.first as u16;
    }
}

fn side_of(order: usize) -> usize
    requires { order < Units.order }
    ensures { result ≡ 2 ^ order }
{
    1 << order
}
