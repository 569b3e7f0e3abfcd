// Passes over the rows of a lent table, a block of rows at a time: the bounds of a slot, and whether every row is valid. Document 01, "Store and table". A
// block here is some rows that stand one behind the other in the table; it is not the document's block of cells.
#![tactic(auto)]

mod bounds;
mod validity;

pub use bounds::slot_bounds;
pub use validity::all_valid;
