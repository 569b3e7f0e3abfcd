// The generator of made-up fleets: document 02, A5. Its state steps from number to number of 32 bits, a draw is taken after a step, and a jump goes
// over many steps at once.
#![tactic(auto)]

mod draws;
mod jumps;
mod steps;

pub use draws::Generator;
pub use jumps::jump;
