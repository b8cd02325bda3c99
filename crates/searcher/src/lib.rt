// Judging a rule: the search over lists of call rows. It stands over the runner's calls and uses only their contracts.
#![tactic(auto)]

mod cache;
pub mod interface;
pub mod judging;
pub mod plan;
pub mod rows;
pub mod search;
pub mod standing;
pub mod verdicts;

use rules::State;

// How a rule stands after some calls: whether it is broken, and whether a completed q was among them.
#[derive(Clone, Copy, PartialEq, Eq)]
pub struct Status {
    pub broken: bool,
    pub seen: bool,
}

// Where a search stands after some calls: the state record that they led to, and how the rule stands. All that the search's answer
// from there on depends on, but for the rows left.
#[derive(Clone, Copy, PartialEq, Eq)]
pub struct Position {
    pub state: State,
    pub status: Status,
}
