// The answer of a call whose tests come first.
ghost use Rattle.std.specs.Prelude.{◌≡◌};
ghost use Rattle.runner.specs.CallAnswers.{answered};

use rules::{Answer, Refusal};

// A call that is refused before it runs has used no units.
pub fn answered(call: Result<Answer, Refusal>) -> Answer
    ensures { result ≡ answered call }
{
    match call {
        Ok(answer) => answer,
        Err(refusal) => Answer::Refused(refusal, 0),
    }
}
