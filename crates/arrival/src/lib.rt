// The promise of order: theorems only, in `specs/` (the statement) and `proofs/`.
#![tactic(auto)]
