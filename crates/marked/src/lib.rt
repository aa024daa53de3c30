// The marked cases of document 01, as one table over the definitions of all crates: specs/Table has the rows, proofs/Marks the one statement.
#![tactic(auto)]
