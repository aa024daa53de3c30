// Demand 3 and the promise with strangers about, of the C calls: definitions in specs/, theorems in proofs/. No code.
#![tactic(auto)]
