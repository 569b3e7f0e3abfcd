// Call lines of an invented fleet: document 02, A5. The input says the fleet, whose floats are drawn one after the other and added at time 0.
#![tactic(auto)]

mod making;
mod reading;
mod writing;

pub use writing::{FLEET_BYTES, write_fleet};

// The most floats of a fleet: as many as the index holds.
pub const MOST_FLOATS: usize = 1024;

// What a fleet is drawn from: the start state, how many floats it has, and how many lines of it are skipped.
#[derive(Clone, Copy)]
pub struct Fleet {
    pub start: u32,
    pub floats: usize,
    pub skip: usize,
}
