// Starting and calling on the unexpanded form. Any bytes, record and call get an answer. Each operation, here and on the expanded form,
// makes its outcome of a refusal itself: a start hands back zeros, and a call the record that it got.
ghost use Rattle.std.specs.Prelude.{◌≡◌};
ghost use Rattle.rules.specs.Calling.{start as start_of, call as call_of};

use crate::accepted::{call_accepted, start_accepted};
use machine::outcomes::{refused_call, refused_start};
use reader::accept;
use rules::{Call, Outcome, State};

pub fn start(file: &[u8]) -> Outcome
    ensures { result ≡ start_of file.now }
{
    match accept(file) {
        Ok(accepted) => start_accepted(&accepted.parsed),
        Err(r) => refused_start(r, 0),
    }
}

pub fn call(file: &[u8], s: State, k: Call) -> Outcome
    ensures { result ≡ call_of file.now s k }
{
    match accept(file) {
        Ok(accepted) => call_accepted(&accepted.parsed, &s, &k),
        Err(r) => refused_call(r, 0, s),
    }
}
