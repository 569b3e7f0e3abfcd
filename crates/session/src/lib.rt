// The replay program without its reading and writing: document 01, "Lines". The bytes of a chunk taken one by one, and each line answered.
#![tactic(auto)]

pub mod feeding;
