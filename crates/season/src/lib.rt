// A season of flights on one map: definitions in specs/, theorems in proofs/. No code.
#![tactic(auto)]
