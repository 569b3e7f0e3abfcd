// Where a float is at a time, and the column and row of a position: document 01, "Units and the places on the grid". Positions are centimetres.
ghost use Rattle.std.specs.Prelude.{◌≡◌};
ghost use Rattle.grid.specs.Places.{position_after, column_of, row_of, cell_of};
ghost use Rattle.grid.specs.Small.{SmallMove};

use crate::{CELL_SIZE, Cell, LAST};

// Where a float is along one axis, `elapsed` seconds after it was at x.
pub fn position_after(x: i64, v: i64, elapsed: i64) -> i64
    requires { SmallMove x v elapsed }
    ensures { result ≡ position_after x v elapsed }
{
    x + v * elapsed
}

pub fn column_of(x: i64) -> usize
    ensures { result ≡ column_of x }
{
    if x < 0 {
        return 0;
    }
    ((x as usize) / CELL_SIZE).min(LAST)
}

// A row is found as a column is: the document has a name for each.
pub fn row_of(y: i64) -> usize
    ensures { result ≡ row_of y }
{
    column_of(y)
}

pub fn cell_of(x: i64, y: i64) -> Cell
    ensures { result ≡ cell_of x y }
{
    Cell {
        column: column_of(x),
        row: row_of(y),
    }
}
