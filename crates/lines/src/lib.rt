// The call lines of the replay program: document 01, "Lines". A line here has no newline.
#![tactic(auto)]

use fields::WIDTH;
use ledger::Call;

pub mod reading;
pub mod writing;

// The most numbers that a call line may have.
pub const MOST_NUMBERS: usize = 8;

// The bytes of a call line that has them.
pub const LONGEST_CALL: usize = 1 + WIDTH * MOST_NUMBERS;

// What a line says: document 01 has these three kinds, and a line that is no call has an answer of its own.
#[derive(Clone, Copy)]
pub enum Line {
    // The time.
    Open(i32),
    Call(Call),
    // A line that is no call.
    NoCall,
}
