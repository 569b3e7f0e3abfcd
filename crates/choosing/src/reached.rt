// The cells that the optimal method reads, of all cells of the grid. A cell that is reached lies in the naive block, so neither bounds nor block are
// found here: the cells whose rows are nonempty are listed, of these the ones whose columns, moved, meet the rectangle's width are kept, and the cells kept
// are tested. No pass has a branch on what it finds: which cells pass goes from cell to cell without a pattern.
ghost use Rattle.std.specs.Prelude.{◌≡◌, not, cond, [], ◌∷◌, length, ◌≤◌};
ghost use Rattle.grid.specs.Units.{cells};
ghost use Rattle.rows.specs.Row.{is_empty};
ghost use Rattle.methods.specs.Aims.{aim_of};
ghost use Rattle.methods.specs.Slots.{rows_of_slot};
ghost use Rattle.choosing.specs.Mark.{Marked};
ghost use Rattle.choosing.specs.Reached.{cell_at, places, nonempty, meeting, may_meet};
ghost use Rattle.choosing.specs.Reached.{IsPlace, ListsNonempty, CanTestPlace, CanKeep, KeepsColumns, CanMarkPlace, CanMarkListed, CanMarkReached, CanMarkReachedInSlot};
ghost use Rattle.choosing.specs.Slot.{rows_in};

use crate::slot::SlotRows;
use grid::Cell;
use methods::View;
use reaching::{cell_meets, column_reaches};

// The cell at a place: places are counted row by row from the low corner.
fn cell_at(place: usize) -> Cell
    requires { IsPlace place }
    ensures { result ≡ cell_at place }
{
    Cell {
        column: place % grid::SIDE,
        row: place / grid::SIDE,
    }
}

// Whether the row of the cell at a place is nonempty.
fn has_row(rows: &SlotRows, place: usize) -> bool
    requires { IsPlace place }
    ensures { result ≡ not (is_empty (rows_in rows.now (cell_at place))) }
{
    !rows.row_at(place).is_empty()
}

// The places whose rows are nonempty, over the front of `full`, and how many they are. Here and below a list is an array and a number, since the project has
// no heap, and each place is written whether it counts or not.
fn list_nonempty(rows: &SlotRows, full: &mut [u16]) -> usize
    requires { length full.old ≡ cells }
    ensures { ListsNonempty (rows_in rows.now) full.new result }
{
    let mut k = 0;
    for place in 0..grid::CELLS {
        full[k] = place as u16;
        k += usize::from(has_row(rows, place));
    }
    k
}

// Whether the column of the cell at a place, moved by its row's speeds, meets the rectangle's width.
fn may_meet(rows: &SlotRows, view: View, place: usize) -> bool
    requires { CanTestPlace (rows_in rows.now) view place }
    ensures { result ≡ may_meet (rows_in rows.now) view place }
{
    column_reaches(view, cell_at(place), rows.row_at(place))
}

// Those of the listed places whose cells' columns meet the rectangle's width, over the front of `kept`, and how many they are. A small rectangle leaves few.
fn keep_columns(rows: &SlotRows, view: View, listed: &[u16], kept: &mut [u16]) -> usize
    requires { CanKeep (rows_in rows.now) view listed.now kept.old }
    ensures { KeepsColumns (rows_in rows.now) view listed.now kept.new result }
{
    let mut m = 0;
    for &place in listed {
        kept[m] = place;
        m += usize::from(may_meet(rows, view, usize::from(place)));
    }
    m
}

// The mark of a cell that is met, or the one that it had.
fn mark_after(before: u8, met: bool) -> u8
    requires { before ≤ 1 }
    ensures { result ≡ cond met 1 before }
{
    before | u8::from(met)
}

// Marks the cell at a place if, moved by its row's speeds, it meets the rectangle.
fn mark_if_met(rows: &SlotRows, view: View, place: usize, marks: &mut [u8])
    requires { CanMarkPlace (rows_in rows.now) view place marks.old }
    ensures { Marked marks.old (meeting (rows_in rows.now) (aim_of view) (place ∷ [])) marks.new }
{
    let met = cell_meets(view, cell_at(place), rows.row_at(place));
    let n = rows.number_at(place);
    marks[n] = mark_after(marks[n], met);
}

// Marks those of the listed cells that, moved by their rows' speeds, meet the rectangle.
fn mark_listed(rows: &SlotRows, view: View, listed: &[u16], marks: &mut [u8])
    requires { CanMarkListed (rows_in rows.now) view listed.now marks.old }
    ensures { Marked marks.old (meeting (rows_in rows.now) (aim_of view) listed.now) marks.new }
{
    for &place in listed {
        mark_if_met(rows, view, usize::from(place), marks);
    }
}

// Marks the cells that are reached: their rows are nonempty and, moved by these, they meet the rectangle.
pub fn mark_reached_in(rows: &SlotRows, view: View, marks: &mut [u8])
    requires { CanMarkReached (rows_in rows.now) view marks.old }
    ensures { Marked marks.old (meeting (rows_in rows.now) (aim_of view) (nonempty (rows_in rows.now) places)) marks.new }
{
    let mut full = [0u16; grid::CELLS];
    let mut kept = [0u16; grid::CELLS];
    let k = list_nonempty(rows, &mut full);
    let m = keep_columns(rows, view, &full[..k], &mut kept);
    mark_listed(rows, view, &kept[..m], marks);
}

// `mark_reached_in`, over a slot of a lent table.
pub fn mark_reached(table: &[i16], slot: usize, view: View, marks: &mut [u8])
    requires { CanMarkReachedInSlot table.now slot view marks.old }
    ensures { Marked marks.old (meeting (rows_of_slot table.now slot) (aim_of view) (nonempty (rows_of_slot table.now slot) places)) marks.new }
{
    mark_reached_in(&SlotRows::new(table, slot), view, marks);
}
