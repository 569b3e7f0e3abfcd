// The rows of one slot of a lent table, by cell and by place, with the curve numbers by which they are found.
ghost use Rattle.std.specs.Prelude.{◌≡◌};
ghost use Rattle.rows.specs.Needs.{HasSlot};

use grid::{Cell, CurveNumbers};
use rows::Row;

#[derive(Drop)]
pub struct SlotRows<'a> {
    pub curve: CurveNumbers,
    pub table: &'a [i16],
    pub slot: usize,
    pub ghost has_slot: { HasSlot table.now slot },
}

impl<'a> SlotRows<'a> {
    ghost use Rattle.grid.specs.Places.{OnGrid};
    ghost use Rattle.grid.specs.Curve.{curve_number};
    ghost use Rattle.choosing.specs.Reached.{IsPlace, cell_at};
    ghost use Rattle.choosing.specs.Slot.{rows_in};

    pub fn new(table: &'a [i16], slot: usize) -> SlotRows<'a>
        requires { HasSlot table.now slot }
        ensures same_table { result.table.now ≡ table.now }
        ensures same_slot { result.slot ≡ slot }
    {
        SlotRows {
            curve: CurveNumbers::new(),
            table,
            slot,
        }
    }

    // The row of a cell.
    pub fn row_of(&self, c: Cell) -> Row
        requires { OnGrid c }
        ensures { result ≡ rows_in self.now c }
    {
        Row::read(self.table, self.slot, self.curve.number_of(c))
    }

    // The curve number of the cell at a place: places are counted row by row from the low corner.
    pub fn number_at(&self, place: usize) -> usize
        requires { IsPlace place }
        ensures { result ≡ curve_number (cell_at place) }
    {
        self.curve.number_at(place)
    }

    // The row of the cell at a place.
    pub fn row_at(&self, place: usize) -> Row
        requires { IsPlace place }
        ensures { result ≡ rows_in self.now (cell_at place) }
    {
        Row::read(self.table, self.slot, self.number_at(place))
    }
}
