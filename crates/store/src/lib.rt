// The changes of a record store and of its table's rows: document 01, "Store and table". The records and their order are crate records.
#![tactic(auto)]

pub mod finding;
pub mod inserting;
mod moving;
pub mod opening;
pub mod removing;
pub mod sorting;
pub mod stepping;
pub mod widening;
pub mod writing;
