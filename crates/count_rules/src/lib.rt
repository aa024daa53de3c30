// The count of a flight: theorems only, in `specs/` (the definitions and the promise) and `proofs/`.
#![tactic(auto)]
