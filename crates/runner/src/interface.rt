// What is exported to C, Rust and Python by `runner_c`. Every argument that a caller can pass gets an answer.
ghost use Rattle.std.specs.Prelude.{◌≡◌};
ghost use Rattle.rules.specs.Accepting.{read_file, expand_file};
ghost use Rattle.rules.specs.Answers.{read_numbers, counted_numbers};
ghost use Rattle.rules.specs.Exported.{Handed, StartHands, CallHands, StartExpandedHands, CallExpandedHands};

use crate::expanded::{call_expanded, start_expanded};
use crate::layout::{answer_words, counted_words, read_words, state_from, state_words};
use crate::unexpanded::{call, start};
use expansion::expand;
use reader::read;
use rules::{Call, Outcome};

// The refusal's number (0: accepted) and its place.
pub fn agreement_read(file: &[u8], answer: &mut [u32; 2])
    ensures { answer.new ≡ read_numbers (read_file file.now) }
{
    *answer = read_words(read(file));
}

// The refusal's number (0: completed), its place, and the step count; the steps in the words.
pub fn agreement_expand(file: &[u8], words: &mut [u32], answer: &mut [u32; 3])
    ensures answer_after { answer.new ≡ counted_numbers (expand_file file.now words.old).answer }
    ensures words_after { words.new ≡ (expand_file file.now words.old).words }
{
    *answer = counted_words(expand(file, words));
}

// A call of its parts.
fn call_of(name: u8, sender: u8, coins: u32, arguments: &[u32; 4]) -> Call
    ensures { result ≡ record { name = name; sender = sender; coins = coins; arguments = arguments.now } }
{
    Call {
        name,
        sender,
        coins,
        arguments: *arguments,
    }
}

fn hand_over(o: &Outcome, state: &mut [u32; 26], answer: &mut [u32; 5])
    ensures { Handed o.now state.new answer.new }
{
    *state = state_words(&o.state);
    *answer = answer_words(&o.answer);
}

// Of the four functions below the answer is the refusal's number (0: completed), its place, whether there is a returned value
// (1 or 0), that value or 0, and the units, and `state` gets the state record that is handed back. Parameters are single, as C passes
// them so.
pub fn agreement_start(file: &[u8], state: &mut [u32; 26], answer: &mut [u32; 5])
    ensures { StartHands file.now state.new answer.new }
{
    hand_over(&start(file), state, answer);
}

pub fn agreement_call(
    file: &[u8],
    state: &mut [u32; 26],
    name: u8,
    sender: u8,
    coins: u32,
    arguments: &[u32; 4],
    answer: &mut [u32; 5],
)
    ensures { CallHands file.now
        (record { name = name; sender = sender; coins = coins; arguments = arguments.now })
        state.old state.new answer.new }
{
    let k = call_of(name, sender, coins, arguments);
    hand_over(&call(file, state_from(state), k), state, answer);
}

pub fn agreement_start_expanded(
    file: &[u8],
    words: &[u32],
    state: &mut [u32; 26],
    answer: &mut [u32; 5],
)
    ensures { StartExpandedHands file.now words.now state.new answer.new }
{
    hand_over(&start_expanded(file, words), state, answer);
}

pub fn agreement_call_expanded(
    file: &[u8],
    words: &[u32],
    state: &mut [u32; 26],
    name: u8,
    sender: u8,
    coins: u32,
    arguments: &[u32; 4],
    answer: &mut [u32; 5],
)
    ensures { CallExpandedHands file.now words.now
        (record { name = name; sender = sender; coins = coins; arguments = arguments.now })
        state.old state.new answer.new }
{
    let k = call_of(name, sender, coins, arguments);
    let o = call_expanded(file, words, state_from(state), k);
    hand_over(&o, state, answer);
}
