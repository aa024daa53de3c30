// What the count's promise comes to: with losses, of every log, and for calls of the code. Definitions in specs/, theorems in proofs/. No code.
#![tactic(auto)]
