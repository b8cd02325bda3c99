// Single steps.
// For our own crates only: a caller has to see that the words have room. No type holds that: each function asks for another number.
// An offset is a `usize` in all that reads a file, and is made a word of the table here: it has to be less than 2 ^ 32.
ghost use Rattle.std.specs.Prelude.{◌≡◌, [], ◌∷◌, ◌+◌, ◌*◌, ◌^◌, ◌<◌, ◌≤◌, length};
ghost use Rattle.rules.specs.Expanding.{step, table};
ghost use Rattle.emitter.specs.Steps.{number_of, as_step};
ghost use Rattle.emitter.specs.Writing.{over, Wrote};

use crate::Next;
use crate::steps::{Step, StepKind};

// The i-th step.
pub fn write_step(words: &mut [u32], i: usize, step: Step)
    requires { 5 * i + 5 ≤ length words.old }
    ensures { words.new ≡ over i (table (as_step step ∷ [])) words.old }
{
    let w = 5 * i;
    words[w..w + 5].copy_from_slice(&<[u32; 5]>::from(step));
}

// A statement of one step.
pub fn write_one(
    words: &mut [u32],
    next: Next,
    origin: u32,
    target: u32,
    kind: StepKind,
    at: usize,
) -> Next
    requires { (5 * (next.step + 1) ≤ length words.old) × (at < 2 ^ 32) }
    ensures { Wrote (step origin target (number_of kind) 0 at ∷ []) 0 next words.old words.new result }
{
    write_step(words, next.step, Step::unnamed(origin, target, kind, at));
    next.after(0, 1)
}

// The two steps of a condition.
pub fn write_condition(
    words: &mut [u32],
    next: Next,
    origin: u32,
    yes: u32,
    no: u32,
    at: usize,
) -> Next
    requires { (5 * (next.step + 2) ≤ length words.old) × (at < 2 ^ 32) }
    ensures { Wrote (step origin yes 2 0 at ∷ step origin no 3 0 at ∷ []) 0 next words.old words.new result }
{
    let i = next.step;
    write_step(words, i, Step::unnamed(origin, yes, StepKind::True, at));
    write_step(words, i + 1, Step::unnamed(origin, no, StepKind::False, at));
    next.after(0, 2)
}
