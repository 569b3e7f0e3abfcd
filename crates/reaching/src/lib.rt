// What a query, seen from a phase, and a cell reach at the speeds of a row. Positions are centimetres, speeds centimetres per second.
#![tactic(auto)]

ghost use Rattle.std.specs.Prelude.{◌≡◌, ◌<◌, ◌-ℤ◌, ◌*ℤ◌};
ghost use Rattle.grid.specs.Units.{side};
ghost use Rattle.grid.specs.Places.{OnGrid, cell_span, not_below, not_above};
ghost use Rattle.methods.specs.Reach.{expanded_range, expanded_rect, block_of};
ghost use Rattle.methods.specs.Aims.{aim_of, view_of};
ghost use Rattle.rows.specs.Phases.{since_reference};
ghost use Rattle.reaching.specs.Reaching.{CanCount, CanSee, CanExpand, CanExpandView, CanMeetView, SmallMotion, SmallAxis, column_in, cell_in, column_reaches};

use grid::{Cell, Query, Range, Rect, When};
use methods::{Block, Slice, View, Window};
use rows::Row;

mod windows;

// Where a float was d seconds before it was at p, at the speed v.
fn position_before(p: i64, v: i16, d: i64) -> i64
    requires { SmallMotion p v d }
    ensures { result ≡ p -ℤ v *ℤ d }
{
    p - i64::from(v) * d
}

// For both signs of d a speed v leads from p - v * d to p. Below 0 least and greatest are exchanged.
// The two stand in a row beside those of the other axis: a struct of them would be made for this one call.
fn expand_range(range: Range, least: i16, greatest: i16, d: i64) -> Range
    requires { SmallAxis range least greatest d }
    ensures { result ≡ expanded_range range least greatest d }
{
    if 0 <= d {
        Range {
            low: position_before(range.low, greatest, d),
            high: position_before(range.high, least, d),
        }
    } else {
        Range {
            low: position_before(range.low, least, d),
            high: position_before(range.high, greatest, d),
        }
    }
}

// A time counted from the reference time of phase p.
fn since_reference(time: i32, p: usize) -> i64
    requires { CanCount time p }
    ensures { result ≡ since_reference p time }
{
    i64::from(time) - rows::reference_time(p)
}

// A query seen from phase p.
pub fn view_of(query: Query, p: usize) -> View
    requires { CanSee query p }
    ensures { result ≡ view_of p query }
{
    let rect = query.rect;
    match query.when {
        When::At(time) => View::Slice(Slice {
            rect,
            d: since_reference(time, p),
        }),
        When::During(from, to) => View::Window(Window {
            rect,
            first: since_reference(from, p),
            last: since_reference(to, p),
        }),
    }
}

// The rectangle of a timeslice expanded by bounds.
fn expanded_slice(s: Slice, bounds: Row) -> Rect
    requires { CanExpand s bounds }
    ensures { result ≡ expanded_rect s bounds }
{
    Rect {
        x: expand_range(s.rect.x, bounds.least_vx, bounds.greatest_vx, s.d),
        y: expand_range(s.rect.y, bounds.least_vy, bounds.greatest_vy, s.d),
    }
}

// The rectangle expanded by bounds. No trait over Slice and Window stands in place of this match: which kind a view is shows only when it is asked for.
pub fn expanded(v: View, bounds: Row) -> Rect
    requires { CanExpandView v bounds }
    ensures { result ≡ (aim_of v).expanded bounds }
{
    match v {
        View::Slice(s) => expanded_slice(s, bounds),
        View::Window(w) => windows::expanded_window(w, bounds),
    }
}

// Whether a cell, moved by its row's speeds, meets the rectangle: the cell, where it is, meets the rectangle expanded by these speeds. Here and below the
// kinds of view are tested apart, and a timeslice axis by axis: by one test of `expanded` for both kinds the optimal choice took 6.9 microseconds in place
// of 3.9, and by `expanded_slice` for a timeslice 8.7 in place of 7.7 where the rectangle is the whole sea.
pub fn cell_meets(v: View, c: Cell, row: Row) -> bool
    requires { CanMeetView v c row }
    ensures { result ≡ (aim_of v).meets c row }
{
    match v {
        View::Slice(s) => {
            column_meets(
                c.column,
                expand_range(s.rect.x, row.least_vx, row.greatest_vx, s.d),
            ) & column_meets(
                c.row,
                expand_range(s.rect.y, row.least_vy, row.greatest_vy, s.d),
            )
        }
        View::Window(w) => overlaps(c, windows::expanded_window(w, row)),
    }
}

// Whether the column of a cell, moved by its row's speeds, meets the rectangle's width. Where it does not, the cell does not either.
pub fn column_reaches(v: View, c: Cell, row: Row) -> bool
    requires { CanMeetView v c row }
    ensures { result ≡ column_reaches v c row }
{
    match v {
        View::Slice(s) => column_meets(
            c.column,
            expand_range(s.rect.x, row.least_vx, row.greatest_vx, s.d),
        ),
        View::Window(w) => column_meets(c.column, windows::expanded_window(w, row).x),
    }
}

// Every cell from the column and row of the low corner to those of the high corner.
pub fn block_of(q: Rect) -> Block
    ensures { result ≡ block_of q }
{
    Block {
        first_column: grid::column_of(q.x.low),
        last_column: grid::column_of(q.x.high),
        first_row: grid::row_of(q.y.low),
        last_row: grid::row_of(q.y.high),
    }
}

// Whether column i, or row i, starts at z or below. The first has no low end. Here and below no test waits for another: which cells are reached goes
// from cell to cell without a pattern, and a branch on it would be guessed wrong.
fn starts_by(i: usize, z: i64) -> bool
    requires { i < side }
    ensures { result ≡ not_below (cell_span i).low z }
{
    (i == 0) | ((grid::CELL_SIZE * i) as i64 <= z)
}

// Whether column i, or row i, ends at z or above. The last has no high end.
fn ends_from(i: usize, z: i64) -> bool
    requires { i < side }
    ensures { result ≡ not_above (cell_span i).high z }
{
    (i == grid::SIDE - 1) | (z <= (grid::CELL_SIZE * i + (grid::CELL_SIZE - 1)) as i64)
}

// Whether column i, or row i, shares a position with a range.
fn column_meets(i: usize, range: Range) -> bool
    requires { i < side }
    ensures { result ≡ column_in i range }
{
    starts_by(i, range.high) & ends_from(i, range.low)
}

// Whether a cell shares a position with a rectangle.
fn overlaps(c: Cell, rect: Rect) -> bool
    requires { OnGrid c }
    ensures { result ≡ cell_in c rect }
{
    column_meets(c.column, rect.x) & column_meets(c.row, rect.y)
}
