// What the receiver's contracts come to: theorems only, in `proofs/`. No second outcome satisfies one, and calls lead only to states in order.
#![tactic(auto)]
