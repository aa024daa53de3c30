// One watch for each sender: definitions in specs/, theorems in proofs/. No code.
#![tactic(auto)]
