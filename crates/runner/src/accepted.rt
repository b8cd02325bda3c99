// Starting and calling on the unexpanded form, once the file was read. For our own crates only: a caller has to see that the file is
// accepted.
ghost use Rattle.std.specs.Prelude.{◌≡◌};
ghost use Rattle.rules.specs.Running.{after, guarded, statement};
ghost use Rattle.rules.specs.Calling.{outcome, start_tree, call_tree};
ghost use Rattle.machine.specs.Runs.{ran, Funded};
ghost use Rattle.access.specs.Trees.{AcceptedFile};
ghost use Rattle.runner.specs.CallAnswers.{answered};
ghost use Rattle.runner.specs.Transitions.{Moves};

use crate::answers::answered;
use access::parsed::Parsed;
use access::transitions::action_at;
use actions::statements::run_statement;
use actions::steps::guard;
use machine::Stop;
use machine::outcomes::{called, check_call, completed, started};
use machine::state::{entering, starting};
use rules::{Answer, Call, Machine, Outcome, Refusal, Setting, State};

pub fn start_accepted(parsed: &Parsed) -> Outcome
    requires { AcceptedFile parsed.now.file.now }
    ensures { (a : AcceptedFile parsed.now.file.now) → result ≡ start_tree a.tree }
{
    let (mut m, setting) = starting(&parsed.fields());
    let at = parsed.layout.initial;
    let run = run_statement(&parsed.file[at..], &mut m, &setting);
    started(setting.before, &m, completed(run))
}

pub fn call_accepted(parsed: &Parsed, s: &State, k: &Call) -> Outcome
    requires { AcceptedFile parsed.now.file.now }
    ensures { (a : AcceptedFile parsed.now.file.now) → result ≡ call_tree a.tree s.now k.now }
{
    let mut state = *s;
    let answer = answered(call_tested(parsed, &mut state, k));
    Outcome { answer, state }
}

// Refusals 9, 20, 21 and 22, or how the fallback action or the transition ended. A refused call leaves the record as it was.
fn call_tested(parsed: &Parsed, s: &mut State, k: &Call) -> Result<Answer, Refusal>
    requires { AcceptedFile parsed.now.file.now }
    ensures { (a : AcceptedFile parsed.now.file.now) → outcome (answered result) s.new ≡ call_tree a.tree s.old k.now }
{
    let fields = parsed.fields();
    check_call(&fields, s, k)?;
    let found = parsed.find_transition(k.name, s.state)?;
    let (mut m, setting) = entering(&fields, s, k);
    match found {
        None => {
            let at = parsed.layout.fallback;
            let run = run_statement(&parsed.file[at..], &mut m, &setting);
            Ok(called(s, setting.before, &m, completed(run)))
        }
        Some(at) => {
            let to = u32::from(parsed.file[at + 6]);
            let run = run_transition(parsed, at, &mut m, &setting);
            Ok(called(s, to, &m, completed(run)))
        }
    }
}

// The transition at an offset: its guard, then its action.
fn run_transition(
    parsed: &Parsed,
    at: usize,
    m: &mut Machine,
    setting: &Setting,
) -> Result<(), Stop>
    requires { Moves parsed.now.file.now at × Funded setting.now.accounts m.old }
    ensures { (t : Moves parsed.now.file.now at) →
        ran result m.new ≡ after (guarded setting.now t.guard.tree m.old) (λ _. statement setting.now t.action.tree) }
{
    let condition = at + 8;
    guard(&parsed.file[condition..], m, setting)?;
    let action = action_at(parsed.file, at);
    run_statement(&parsed.file[action..], m, setting)
}
