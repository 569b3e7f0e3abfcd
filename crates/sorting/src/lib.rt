// The ids that an ask lists, by rising number. What is written is said by marks, one for each id; it is done by buckets of the two bytes of an id.
#![tactic(auto)]

mod buckets;
mod ids;

pub use ids::rising;
