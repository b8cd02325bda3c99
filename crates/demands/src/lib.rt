// No functions: proofs/ shows demand 3 as a whole, and what clients of the exported functions see.
#![tactic(auto)]
