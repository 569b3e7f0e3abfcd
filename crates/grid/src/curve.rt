// The curve number of a cell, by the constant table: document 01, "Units and the places on the grid".
ghost use Rattle.std.specs.Prelude.{◌≡◌};
ghost use Rattle.grid.specs.Curve.{curve_number, IsCurve, CanLookUp};

use crate::curve_table::CURVE;
use crate::{CELLS, Cell, SIDE};

// The curve number of every cell, held by a pass from its first cell to its last: an index into a constant array writes the whole array out first. It is
// lent and never copied, since it takes 2 KB.
#[derive(Drop)]
pub struct CurveNumbers {
    pub numbers: [u16; CELLS],
    pub ghost is_curve: { IsCurve numbers },
}

impl CurveNumbers {
    ghost use Rattle.std.specs.Prelude.{◌/◌, ◌%◌, ◌<◌};
    ghost use Rattle.grid.specs.Units.{side, cells};
    ghost use Rattle.grid.specs.Places.{OnGrid};
    ghost use Rattle.grid.specs.Curve.{cell};

    pub fn new() -> CurveNumbers {
        CurveNumbers {
            numbers: curve_numbers(),
        }
    }

    // The curve number of a cell.
    pub fn number_of(&self, c: Cell) -> usize
        requires { OnGrid c }
        ensures { result ≡ curve_number c }
    {
        number_in(&self.numbers, c)
    }

    // The curve number of the cell at a place: places are counted row by row from the low corner.
    pub fn number_at(&self, place: usize) -> usize
        requires { place < cells }
        ensures { result ≡ curve_number (cell (place % side) (place / side)) }
    {
        usize::from(self.numbers[place])
    }
}

// The table of those numbers.
pub fn curve_numbers() -> [u16; CELLS]
    ensures { IsCurve result }
{
    CURVE
}

// The curve number of a cell, by that table.
pub fn number_in(numbers: &[u16; CELLS], c: Cell) -> usize
    requires { CanLookUp numbers.now c }
    ensures { result ≡ curve_number c }
{
    usize::from(numbers[c.row * SIDE + c.column])
}
