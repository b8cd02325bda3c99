// The run on the steps of the expanded form, which stand in lent words, five words each. This serves our own crates only: a caller
// has to see that the words begin with the expansion of the accepted file.
#![tactic(auto)]

pub mod entries;
pub mod index;
pub mod lookup;
pub mod steps;
pub mod walk;
pub mod words;
