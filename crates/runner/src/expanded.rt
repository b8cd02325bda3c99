// Starting and calling on the expanded form. Any bytes, words, record and call get an answer.
ghost use Rattle.std.specs.Prelude.{◌≡◌, MatchResult};
ghost use Rattle.rules.specs.Calling.{refused_start, refused_call};
ghost use Rattle.rules.specs.Stepping.{start_expanded, call_expanded};

use crate::Prepared;
use crate::steps::{call_prepared, start_prepared};
use expansion::lent::check_words;
use machine::outcomes::{check_sender, refused_call, refused_start};
use reader::accept;
use rules::{Call, Outcome, Refusal, State};
use walker::entries::Entries;
use walker::index::{NODES, write_entries, write_nodes};
use walker::steps::Steps;

pub fn start_expanded(file: &[u8], words: &[u32]) -> Outcome
    ensures { result ≡ start_expanded file.now words.now }
{
    match start_lent(file, words) {
        Ok(outcome) => outcome,
        Err(r) => refused_start(r, 0),
    }
}

// What refuses the file, and refusals 11 and 12; or the start's outcome.
fn start_lent(file: &[u8], words: &[u32]) -> Result<Outcome, Refusal>
    ensures { MatchResult result (λ o. o ≡ start_expanded file.now words.now) (λ r. refused_start r 0 ≡ start_expanded file.now words.now) }
{
    let accepted = accept(file)?;
    check_words(&accepted, words)?;
    let mut nodes = [0; NODES];
    write_nodes(words, accepted.steps, &mut nodes);
    let steps = Steps {
        file,
        words,
        nodes: &nodes,
    };
    Ok(start_prepared(&steps, &accepted.parsed.fields()))
}

pub fn call_expanded(file: &[u8], words: &[u32], s: State, k: Call) -> Outcome
    ensures { result ≡ call_expanded file.now words.now s k }
{
    match call_lent(file, words, &s, &k) {
        Ok(outcome) => outcome,
        Err(r) => refused_call(r, 0, s),
    }
}

// What refuses the file, and refusals 9, 11 and 12, in this order; or the call's outcome. The tables are made here and in the
// searcher: what refers to its own tables can't be handed out, and a closure over it would need a contract as long as what it saves.
fn call_lent(file: &[u8], words: &[u32], s: &State, k: &Call) -> Result<Outcome, Refusal>
    ensures { MatchResult result (λ o. o ≡ call_expanded file.now words.now s.now k.now)
        (λ r. refused_call r 0 s.now ≡ call_expanded file.now words.now s.now k.now) }
{
    let accepted = accept(file)?;
    let fields = accepted.parsed.fields();
    check_sender(&fields, k)?;
    check_words(&accepted, words)?;
    let mut nodes = [0; NODES];
    write_nodes(words, accepted.steps, &mut nodes);
    let mut entries = Entries::new();
    write_entries(words, accepted.steps, &mut entries);
    let steps = Steps {
        file,
        words,
        nodes: &nodes,
    };
    let p = Prepared {
        steps,
        fields,
        entries: &entries,
    };
    Ok(call_prepared(&p, s, k))
}
