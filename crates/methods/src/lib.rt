// What the definitions of the four ways to choose cells speak of: document 01, "The four ways to choose cells", and document 02, A3, for
// windows. The code is in crates/choosing.
#![tactic(auto)]

use grid::Rect;

// A timeslice query seen from a phase's reference time: its rectangle, at d seconds after that time, or before it where d is below 0.
#[derive(Clone, Copy)]
pub struct Slice {
    pub rect: Rect,
    pub d: i64,
}

// A window seen from there: its rectangle, from `first` to `last` seconds after that time.
#[derive(Clone, Copy)]
pub struct Window {
    pub rect: Rect,
    pub first: i64,
    pub last: i64,
}

// A query seen from a phase's reference time.
#[derive(Clone, Copy)]
pub enum View {
    Slice(Slice),
    Window(Window),
}

// Every cell from a first column and row to a last column and row.
#[derive(Clone, Copy)]
pub struct Block {
    pub first_column: usize,
    pub last_column: usize,
    pub first_row: usize,
    pub last_row: usize,
}

// The four ways to choose cells.
#[derive(Clone, Copy)]
pub enum Method {
    Naive,
    SemiNaive,
    Iterative,
    Optimal,
}
