// What the layers above need of a file whose tree has been read, so that none of them reads it again. What the functions
// answer of a `Parsed` is an equation over that tree. This serves our own crates only.
#![tactic(auto)]

ghost use Rattle.access.specs.FoundAnswers.{Refuses};

mod entries;
pub mod fields;
pub mod parsed;
pub mod places;
pub mod transitions;

use rules::Refusal;

// Children of one kind in a row: where the first begins, how many they are, and where the last ends.
#[derive(Clone, Copy)]
pub struct Group {
    pub at: usize,
    pub count: usize,
    pub end: usize,
}

// Where the parts of a file begin.
#[derive(Clone, Copy)]
pub struct Layout {
    pub initial: usize,
    pub fallback: usize,
    pub transitions: Group,
    pub rows: Group,
    pub rules: Group,
}

// A transition bears the name, but none that does leaves the state: a call is refused.
#[derive(Clone, Copy, PartialEq, Eq)]
pub struct Elsewhere;

impl From<Elsewhere> for Refusal {
    ghost from_gives = { Refuses };

    fn from(_elsewhere: Elsewhere) -> Refusal {
        Refusal::placeless(22)
    }
}

// What is found of a name: where the first transition that bears it and leaves the state begins, or none where no transition bears it.
pub type Found = Result<Option<usize>, Elsewhere>;

// A rule: where the expression of an `Always` begins, or the names p and q.
#[derive(Clone, Copy)]
pub enum RuleAt {
    Always(usize),
    NotAfter { p: u8, q: u8 },
    OnlyAfter { p: u8, q: u8 },
}
