// What C, Rust and Python call of the runner: each function hands on to the one of that name in `runner::interface`, whose clauses
// it states again.
// An archive has only what one crate exports, and no crate stands on one that makes an archive: so the functions stand twice.
#![tactic(auto)]

ghost use Rattle.std.specs.Prelude.{◌≡◌};
ghost use Rattle.rules.specs.Accepting.{read_file, expand_file};
ghost use Rattle.rules.specs.Answers.{read_numbers, counted_numbers};
ghost use Rattle.rules.specs.Exported.{StartHands, CallHands, StartExpandedHands, CallExpandedHands};

use runner::interface;

// The refusal's number (0: accepted) and its place.
#[unsafe(no_mangle)]
pub extern "C" fn agreement_read(file: &[u8], answer: &mut [u32; 2])
    ensures { answer.new ≡ read_numbers (read_file file.now) }
{
    interface::agreement_read(file, answer);
}

// The refusal's number (0: completed), its place, and the step count; the steps in the words.
#[unsafe(no_mangle)]
pub extern "C" fn agreement_expand(file: &[u8], words: &mut [u32], answer: &mut [u32; 3])
    ensures answer_after { answer.new ≡ counted_numbers (expand_file file.now words.old).answer }
    ensures words_after { words.new ≡ (expand_file file.now words.old).words }
{
    interface::agreement_expand(file, words, answer);
}

// Of the four functions below the answer is the refusal's number (0: completed), its place, whether there is a returned value
// (1 or 0), that value or 0, and the units, and `state` gets the state record that is handed back.
#[unsafe(no_mangle)]
pub extern "C" fn agreement_start(file: &[u8], state: &mut [u32; 26], answer: &mut [u32; 5])
    ensures { StartHands file.now state.new answer.new }
{
    interface::agreement_start(file, state, answer);
}

#[unsafe(no_mangle)]
pub extern "C" fn agreement_call(
    file: &[u8],
    state: &mut [u32; 26],
    name: u8,
    sender: u8,
    coins: u32,
    arguments: &[u32; 4],
    answer: &mut [u32; 5],
)
    ensures { CallHands file.now
        (record { name = name; sender = sender; coins = coins; arguments = arguments.now })
        state.old state.new answer.new }
{
    interface::agreement_call(file, state, name, sender, coins, arguments, answer);
}

#[unsafe(no_mangle)]
pub extern "C" fn agreement_start_expanded(
    file: &[u8],
    words: &[u32],
    state: &mut [u32; 26],
    answer: &mut [u32; 5],
)
    ensures { StartExpandedHands file.now words.now state.new answer.new }
{
    interface::agreement_start_expanded(file, words, state, answer);
}

#[unsafe(no_mangle)]
pub extern "C" fn agreement_call_expanded(
    file: &[u8],
    words: &[u32],
    state: &mut [u32; 26],
    name: u8,
    sender: u8,
    coins: u32,
    arguments: &[u32; 4],
    answer: &mut [u32; 5],
)
    ensures { CallExpandedHands file.now words.now
        (record { name = name; sender = sender; coins = coins; arguments = arguments.now })
        state.old state.new answer.new }
{
    interface::agreement_call_expanded(file, words, state, name, sender, coins, arguments, answer);
}
