// The entry of a call. For our own crates only: a caller has to see that the words begin with an expansion, and that the entries are
// those of its steps.
ghost use Rattle.std.specs.Prelude.{List, ℕ, ◌≡◌};
ghost use Rattle.rules.specs.Expanding.{expansion};
ghost use Rattle.walker.specs.Tables.{Expanded, Listed, EntryFound, guard_places};

use crate::entries::Entries;
use crate::words::step_at;
use access::{Elsewhere, Found};

impl Entries {
    // The kind 1 step of this name and state. Not one search with access's `find_transition`: that goes over records in bytes, this over
    // steps in words.
    pub fn find_entry(&self, words: &[u32], name: u8, state: u32) -> Found
        requires { Listed words.now self.now }
        ensures { (file : List ℕ) (a : Expanded file words.now) → self.now ≡ guard_places 0 (expansion a.tree) →
            EntryFound (expansion a.tree) name state result }
    {
        let mut found = Ok(None);
        for &place in self.places() {
            let step = step_at(words, place as usize);
            if step.name == u32::from(name) {
                if step.origin == state {
                    return Ok(Some(place as usize));
                }
                found = Err(Elsewhere);
            }
        }
        found
    }
}
