// No code: the proofs of this crate show what starts and calls never change.
#![tactic(auto)]
