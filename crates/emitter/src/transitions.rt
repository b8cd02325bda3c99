// The steps of a transition record s at the offset `at`.
// For our own crates only: a caller has to see that the record is accepted and that the words have room.
ghost use Rattle.std.specs.Prelude.{◌≡◌};
ghost use Rattle.emitter.specs.Transitions.{TransitionExpandable, TransitionExpands};

use crate::statements::expand_statement;
use crate::steps::{Step, StepKind};
use crate::writing::write_step;
use crate::{Ends, Next};
use records::bytes::u16_at;

#[tactic(auto, using(crate::proofs::TransitionLaws::record_bounds))]
pub fn expand_transition(s: &[u8], at: usize, words: &mut [u32], next: Next) -> Next
    requires { TransitionExpandable at next s.now words.old }
    ensures { TransitionExpands at next s.now words.old words.new result }
{
    let n = u16_at(s, 0);
    let to = u32::from(s[6]);
    let b = 8 + u16_at(s, 8);
    let guard = Step {
        origin: u32::from(s[5]),
        target: next.node,
        kind: StepKind::Guard as u32,
        name: u32::from(s[4]),
        at: (at + 8) as u32,
    };
    write_step(words, next.step, guard);
    let ends = Ends {
        o: next.node,
        d: to,
        r: to,
    };
    expand_statement(&s[b..n], at + b, ends, words, next.after(1, 1))
}
