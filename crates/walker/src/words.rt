// The steps in lent words, five words each. For our own crates only: a caller has to see that the words hold the step.
ghost use Rattle.std.specs.Prelude.{◌+◌, ◌*◌, ◌≤◌, length};
ghost use Rattle.walker.specs.Words.{Holds};

use emitter::steps::Step;

// The i-th step. No `From<[u32; 5]>`: the five words would be copied first.
pub fn step_at(words: &[u32], i: usize) -> Step
    requires { 5 * i + 5 ≤ length words.now }
    ensures { Holds words.now i result }
{
    let first = 5 * i;
    Step {
        origin: words[first],
        target: words[first + 1],
        kind: words[first + 2],
        name: words[first + 3],
        at: words[first + 4],
    }
}
