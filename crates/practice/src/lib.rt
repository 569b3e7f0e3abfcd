// A made-up fleet piped into the replay program: the claim is in specs/, its proof in proofs/. No function.
#![tactic(auto)]
