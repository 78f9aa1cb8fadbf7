// Soft samples for q = 4 as mathematics: the definitions are in specs/, the laws in proofs/. No function.
#![tactic(auto)]
