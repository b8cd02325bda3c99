// Expression and statement records: the check of their bytes, with the number of steps that they expand to.
#![tactic(auto)]

pub mod answers;
pub mod bytes;
pub mod expressions;
pub mod fault;
pub mod kind;
pub mod part;
pub mod sets;
pub mod statements;
