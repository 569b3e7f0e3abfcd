// The four shapes of request A1 have definitions and claims here, and no function; the code that draws them is in crates/drawing.
#![tactic(auto)]
