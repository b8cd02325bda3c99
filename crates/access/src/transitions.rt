// The transitions of a file. For our own crates only: a caller of `action_at` has to see that the bytes are there.
ghost use Rattle.std.specs.Prelude.{◌≡◌, [], ◌+◌, ◌≤◌, length, take};
ghost use Rattle.rules.specs.Basics.{any};
ghost use Rattle.rules.specs.Accepting.{first_repeat};
ghost use Rattle.rules.specs.Calling.{known, transition_of};
ghost use Rattle.access.specs.Trees.{TreeRead};
ghost use Rattle.access.specs.Places.{action_at};
ghost use Rattle.access.specs.FoundAnswers.{found_of, same, repeat_of};

use crate::parsed::Parsed;
use crate::{Elsewhere, Found};
use records::bytes::u16_at;

impl Parsed<'_> {
    // The transition of this name from this state.
    #[tactic(auto, using(crate::proofs::Kept::transition_bounds))]
    pub fn find_transition(&self, name: u8, state: u32) -> Found
        ensures { (a : TreeRead self.now.file.now) → result ≡ found_of (known a.tree name) (transition_of a.tree name state) }
    {
        let file = self.file;
        // Where the next record begins is read from the one before. An iterator of records would keep the same offset (`nth`).
        let mut at = self.layout.transitions.at;
        // What is answered where no transition of the name leaves the state.
        let mut answer = Ok(None);
        for _ in 0..self.layout.transitions.count {
            if file[at + 4] == name {
                if u32::from(file[at + 5]) == state {
                    return Ok(Some(at));
                }
                answer = Err(Elsewhere);
            }
            at += u16_at(file, at);
        }
        answer
    }

    // Whether one of the first n transitions has this name and origin.
    #[tactic(auto, using(crate::proofs::Kept::transition_bounds))]
    fn is_among(&self, n: usize, name: u8, from: u8) -> bool
        requires { n ≤ self.now.layout.transitions.count }
        ensures { (a : TreeRead self.now.file.now) → result ≡ any (same name from) (take n a.tree.transitions) }
    {
        let file = self.file;
        // As above: the next record's offset is read from the record.
        let mut at = self.layout.transitions.at;
        for _ in 0..n {
            if file[at + 4] == name && file[at + 5] == from {
                return true;
            }
            at += u16_at(file, at);
        }
        false
    }

    // The first transition that repeats an earlier one's name and origin.
    #[tactic(auto, using(crate::proofs::Kept::transition_bounds))]
    pub fn first_repeat(&self) -> Option<usize>
        ensures { (a : TreeRead self.now.file.now) → result ≡ repeat_of (first_repeat [] a.tree.transitions) }
    {
        let file = self.file;
        // As above: the next record's offset is read from the record.
        let mut at = self.layout.transitions.at;
        for i in 0..self.layout.transitions.count {
            if self.is_among(i, file[at + 4], file[at + 5]) {
                return Some(at);
            }
            at += u16_at(file, at);
        }
        None
    }
}

// Where the action begins of the transition at `at`: its guard stands 8 bytes after `at`, and the action after the guard.
#[tactic(auto, unfolding(crate::specs::Places::action_at, rules::specs::Reading::size_of))]
pub fn action_at(file: &[u8], at: usize) -> usize
    requires { (at + 12 ≤ length file.now) × (action_at file.now at ≤ length file.now) }
    ensures { result ≡ action_at file.now at }
{
    at + (8 + u16_at(file, at + 8))
}
