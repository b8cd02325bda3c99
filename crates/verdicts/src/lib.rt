// No code: the proofs of this crate show what verdicts and places mean.
#![tactic(auto)]
