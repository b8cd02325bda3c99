// Where the parts of a file begin. For our own crates only: a caller has to see that the tree was read, or that records stand in a row.
ghost use Rattle.std.specs.Prelude.{◌≡◌, ◌≤◌, length};
ghost use Rattle.records.specs.Kinds.{number_of};
ghost use Rattle.access.specs.Trees.{TreeRead};
ghost use Rattle.access.specs.Places.{past, comes_at, InRow, Children, LaidOut};

use crate::{Group, Layout};
use records::bytes::u16_at;
use records::kind::Kind;

// Whether a record of this kind begins here.
fn comes(file: &[u8], at: usize, kind: Kind) -> bool
    requires { at ≤ length file.now }
    ensures { result ≡ comes_at (number_of kind) file.now at }
{
    kind.comes(&file[at..])
}

// The children of this kind from here on.
#[tactic(auto, using(crate::proofs::Groups::past_more, crate::proofs::Groups::goes_on))]
fn children(file: &[u8], at: usize, kind: Kind) -> Group
    requires { Children (number_of kind) file.now at }
    ensures { (c : Children (number_of kind) file.now at) → result ≡ record { at = at; count = c.count; end = past file.now at c.count } }
{
    let mut end = at;
    let mut count = 0;
    // No `for`: where they end is a test.
    while comes(file, end, kind) {
        end += u16_at(file, end);
        count += 1;
    }
    Group { at, count, end }
}

// Where the parts begin: each where the one before it ends.
#[tactic(auto, using(crate::proofs::Layouts::twenty))]
pub fn layout(file: &[u8]) -> Layout
    requires { TreeRead file.now }
    ensures { (a : TreeRead file.now) → LaidOut file.now a.tree result }
{
    let initial = 16 + 4 * usize::from(file[6]);
    let fallback = initial + u16_at(file, initial);
    let transitions = children(file, fallback + u16_at(file, fallback), Kind::Transition);
    let rows = children(file, transitions.end, Kind::Row);
    let rules = children(file, rows.end, Kind::Rule);
    Layout {
        initial,
        fallback,
        transitions,
        rows,
        rules,
    }
}

// Where the i-th of the records in a row from `at` on begins.
// Loops over records keep the offset themselves. An iterator of records would keep the same offset in a type for these loops alone; it
// was tried, and what was left to prove of it and of the loops was more than is proved of the loops.
#[tactic(auto, using(crate::proofs::Groups::past_more))]
pub fn nth(file: &[u8], at: usize, i: usize) -> usize
    requires { InRow file.now at i }
    ensures { result ≡ past file.now at i }
{
    let mut to = at;
    for _ in 0..i {
        to += u16_at(file, to);
    }
    to
}
