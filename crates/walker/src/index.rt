// Which step leaves a node first, and where the kind 1 steps are: found once, before the runs. For our own crates only: a caller has
// to see that the words begin with an expansion of so many steps.
ghost use Rattle.std.specs.Prelude.{List, [], ◌≡◌, ℕ, length, replicate};
ghost use Rattle.rules.specs.Expanding.{expansion};
ghost use Rattle.walker.specs.Tables.{Expanded, Tabled, Indexed, guard_places};

use crate::entries::Entries;
use crate::words::step_at;
use emitter::steps::StepKind;

// So many nodes an accepted file can have: at most 64 states, the three nodes that follow them, and fewer new nodes than its steps, of
// which there are at most 1,024.
pub const NODES: usize = 1091;

// For each node 1 + the place of the first step that leaves it, or 0 where none does: one word a node, and no option, which takes a word
// more with this compiler, of a `NonZeroU32` too. An array, as the product uses no heap.
pub fn index_nodes(words: &[u32], steps: usize) -> [u32; NODES]
    requires { Tabled words.now steps }
    ensures { (file : List ℕ) (a : Expanded file words.now) → steps ≡ length (expansion a.tree) →
        Indexed (expansion a.tree) result }
{
    let mut nodes = [0; NODES];
    write_nodes(words, steps, &mut nodes);
    nodes
}

// The same in a table of zeros of the caller's, so that none is copied: a short call would spend a third of its time on copies.
// The last step goes first, so that the first of those that leave a node stays.
pub fn write_nodes(words: &[u32], steps: usize, nodes: &mut [u32; NODES])
    requires { Tabled words.now steps × (nodes.old ≡ replicate 1091 0) }
    ensures { (file : List ℕ) (a : Expanded file words.now) → steps ≡ length (expansion a.tree) →
        Indexed (expansion a.tree) nodes.new }
{
    for i in (0..steps).rev() {
        let origin = step_at(words, i).origin as usize;
        nodes[origin] = i as u32 + 1;
    }
}

// The places of the kind 1 steps.
pub fn index_entries(words: &[u32], steps: usize) -> Entries
    requires { Tabled words.now steps }
    ensures { (file : List ℕ) (a : Expanded file words.now) → steps ≡ length (expansion a.tree) →
        result ≡ guard_places 0 (expansion a.tree) }
{
    let mut entries = Entries::new();
    write_entries(words, steps, &mut entries);
    entries
}

// The same put into entries of the caller's, of which none is there yet.
pub fn write_entries(words: &[u32], steps: usize, entries: &mut Entries)
    requires { Tabled words.now steps × (entries.old ≡ []) }
    ensures { (file : List ℕ) (a : Expanded file words.now) → steps ≡ length (expansion a.tree) →
        entries.new ≡ guard_places 0 (expansion a.tree) }
{
    for i in 0..steps {
        if StepKind::try_from(step_at(words, i).kind) == Ok(StepKind::Guard) {
            entries.push(i as u32);
        }
    }
}
