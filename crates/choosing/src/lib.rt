// The code that chooses cells by one of the four methods, over the rows of one slot of a lent table: document 01, "The four ways to choose cells".
#![tactic(auto)]

pub mod bounds;
pub mod choose;
pub mod mark;
pub mod reached;
pub mod slot;

use methods::Block;

// What the iterative method comes to, a block or none where bounds are missing, and the rounds that it took.
#[derive(Clone, Copy)]
pub struct Searched {
    pub found: Option<Block>,
    pub rounds: usize,
}
