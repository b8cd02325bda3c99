// The expansion of an accepted file, written into words.
// For our own crates only: a caller has to see that the file is accepted and that the words have room, which is a clause: it is of a
// file and of words together.
ghost use Rattle.std.specs.Prelude.{◌≡◌};
ghost use Rattle.rules.specs.Accepting.{written};
ghost use Rattle.access.specs.Trees.{AcceptedFile};
ghost use Rattle.expansion.specs.Writing.{Writable, ActionsWrote};

use access::parsed::Parsed;
use emitter::statements::expand_statement;
use emitter::transitions::expand_transition;
use emitter::{Ends, Next};
use records::bytes::u16_at;

// The initial action and the fallback.
fn write_actions(parsed: &Parsed, words: &mut [u32]) -> Next
    requires { Writable parsed.now.file.now words.old }
    ensures { (a : AcceptedFile parsed.now.file.now) → ActionsWrote a.tree words.old words.new result }
{
    let f = parsed.fields();
    let states = u32::from(f.states);
    let start = u32::from(f.start);
    let initial = Ends {
        o: states + 2,
        d: start,
        r: start,
    };
    let fallback = Ends {
        o: states + 1,
        d: states,
        r: states,
    };
    let first = Next {
        node: states + 3,
        step: 0,
    };
    let i = parsed.layout.initial;
    let j = parsed.layout.fallback;
    let next = expand_statement(&parsed.file[i..], i, initial, words, first);
    expand_statement(&parsed.file[j..], j, fallback, words, next)
}

// All of the steps: those of the two actions, then those of the transitions in file order.
pub fn write_expansion(parsed: &Parsed, words: &mut [u32])
    requires { Writable parsed.now.file.now words.old }
    ensures { (a : AcceptedFile parsed.now.file.now) → words.new ≡ written a.tree words.old }
{
    let Parsed { file, layout, .. } = *parsed;
    let mut next = write_actions(parsed, words);
    // Where the next record begins is read from the one before. An iterator of records would keep the same offset.
    let mut at = layout.transitions.at;
    for _ in 0..layout.transitions.count {
        next = expand_transition(&file[at..], at, words, next);
        at += u16_at(file, at);
    }
}
