// Every history is the ledger's: the claim over every list of calls is in specs/, its proof in proofs/. No function.
#![tactic(auto)]
