// The values of the grid (cells, ranges, rectangles, queries, reports), the limits of document 01, and when a query lists a report.
// Positions are centimetres, speeds centimetres per second, times seconds.
#![tactic(auto)]

ghost use Rattle.std.specs.Prelude.{◌≡◌, ◌-ℤ◌};
ghost use Rattle.grid.specs.Places.{position_after};
ghost use Rattle.grid.specs.Moments.{passage_of, inside_during};
ghost use Rattle.grid.specs.Reports.{rect_of, x_at, y_at, cell_at_time, in_rect, inside_at, inside_when, last_of, is_listed};
ghost use Rattle.grid.specs.Small.{SmallAxis, SmallReport, SmallStartAt, SmallWindow, SmallListing};
ghost use Rattle.ints.specs.Whole.{between, max_z};

use moments::Passage;

mod curve;
mod curve_table;
mod moments;
mod places;

pub use curve::{CurveNumbers, curve_numbers, number_in};
pub use places::{cell_of, column_of, position_after, row_of};

// Columns on the grid, and rows.
pub const SIDE: usize = 32;

// The last column and the last row.
const LAST: usize = SIDE - 1;

// Cells on the grid.
pub const CELLS: usize = SIDE * SIDE;

// The width and height of a cell, in centimetres.
pub const CELL_SIZE: usize = 262144;

// The greatest position in a report, and of a rectangle's corner, in centimetres: where the last cell ends.
pub const LAST_POSITION: i32 = (SIDE * CELL_SIZE - 1) as i32;

// The last id, and the last time, in seconds.
pub const LAST_ID: i32 = 65535;

// Marks by id, one for each from 0 on.
pub const ID_MARKS: usize = (LAST_ID + 1) as usize;

pub const LAST_TIME: i32 = 999999999;

// How long a float may send nothing before it is lost, in seconds.
pub const SILENCE: i32 = 2592000;

#[derive(Clone, Copy)]
pub struct Cell {
    pub column: usize,
    pub row: usize,
}

// From low to high along one axis, both included.
#[derive(Clone, Copy)]
pub struct Range {
    pub low: i64,
    pub high: i64,
}

// A rectangle.
#[derive(Clone, Copy)]
pub struct Rect {
    pub x: Range,
    pub y: Range,
}

// When an ask wants floats in its rectangle, in seconds.
#[derive(Clone, Copy)]
pub enum When {
    // At one time: document 01's timeslice query.
    At(i32),
    // At some moment from a first time to a last one: document 02's window ask.
    During(i32, i32),
}

// What an ask wants: the floats predicted inside a rectangle, and when.
#[derive(Clone, Copy)]
pub struct Query {
    pub rect: Rect,
    pub when: When,
}

// What a float sent: at time t it was at (x, y) and drifted at (vx, vy).
#[derive(Clone, Copy)]
pub struct Report {
    pub id: i32,
    pub t: i32,
    pub x: i32,
    pub y: i32,
    pub vx: i32,
    pub vy: i32,
}

impl When {
    // The last time that is asked about.
    fn last(self) -> i32
        ensures { result ≡ last_of self }
    {
        match self {
            When::At(time) => time,
            When::During(_, last) => last,
        }
    }
}

impl Range {
    pub fn holds(self, z: i64) -> bool
        ensures { result ≡ between self.low self.high z }
    {
        (self.low..=self.high).contains(&z)
    }
}

impl Rect {
    // By its low corner and its high corner.
    pub fn of(low_x: i32, low_y: i32, high_x: i32, high_y: i32) -> Rect
        ensures { result ≡ rect_of low_x low_y high_x high_y }
    {
        Rect {
            x: Range {
                low: i64::from(low_x),
                high: i64::from(high_x),
            },
            y: Range {
                low: i64::from(low_y),
                high: i64::from(high_y),
            },
        }
    }

    pub fn holds(self, x: i64, y: i64) -> bool
        ensures { result ≡ in_rect self x y }
    {
        self.x.holds(x) && self.y.holds(y)
    }
}

// Where a float is along one axis at time s, reported at time t at x with the speed v. The three stand in the report with those of the other axis: a struct
// of them would be made for one call and taken apart in it.
fn position_at(x: i32, v: i32, t: i32, s: i64) -> i64
    requires { SmallAxis x v t s }
    ensures { result ≡ position_after x v (s -ℤ t) }
{
    position_after(i64::from(x), i64::from(v), s - i64::from(t))
}

// Its passage through a range from time s on.
fn passage_from(s: i64, x: i32, v: i32, t: i32, range: Range) -> Passage
    requires { SmallStartAt s x v t range }
    ensures { result ≡ passage_of (position_after x v (s -ℤ t)) v range }
{
    Passage::of(position_at(x, v, t, s), i64::from(v), range)
}

impl Report {
    // Each axis has its own position and speed, so these are two: a line each over `position_at`, which they have in common.
    pub fn x_at(self, s: i64) -> i64
        requires { SmallReport self s }
        ensures { result ≡ x_at self s }
    {
        position_at(self.x, self.vx, self.t, s)
    }

    pub fn y_at(self, s: i64) -> i64
        requires { SmallReport self s }
        ensures { result ≡ y_at self s }
    {
        position_at(self.y, self.vy, self.t, s)
    }

    // The cell of its position at time s.
    pub fn cell_at(self, s: i64) -> Cell
        requires { SmallReport self s }
        ensures { result ≡ cell_at_time self s }
    {
        cell_of(self.x_at(s), self.y_at(s))
    }

    // Whether it is in a rectangle at a time.
    fn is_inside_at(self, rect: Rect, time: i32) -> bool
        requires { SmallReport self time }
        ensures { result ≡ inside_at rect time self }
    {
        let s = i64::from(time);
        rect.holds(self.x_at(s), self.y_at(s))
    }

    // Whether it is in a rectangle at some moment from one time to another. No query: its first time is the later one of a query's and the report's.
    fn is_inside_during(self, rect: Rect, first: i32, last: i32) -> bool
        requires { SmallWindow self rect first last }
        ensures { result ≡ inside_during rect first last self }
    {
        let from = i64::from(first);
        let d = i64::from(last) - from;
        let x = passage_from(from, self.x, self.vx, self.t, rect.x);
        let y = passage_from(from, self.y, self.vy, self.t, rect.y);
        moments::meet(x, y, d)
    }

    // Whether it is inside, by the kind of query. A window counts its moments from the report on.
    fn is_inside(self, query: Query) -> bool
        requires { SmallListing self query }
        ensures { result ≡ inside_when query.rect query.when self }
    {
        match query.when {
            When::At(time) => self.is_inside_at(query.rect, time),
            When::During(first, last) => {
                self.is_inside_during(query.rect, first.max(self.t), last)
            }
        }
    }

    // Whether a query lists the float: none is listed before its report.
    pub fn is_listed(self, query: Query) -> bool
        requires { SmallListing self query }
        ensures { result ≡ is_listed query self }
    {
        self.t <= query.when.last() && self.is_inside(query)
    }
}
