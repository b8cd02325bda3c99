// Starting and calling on the expanded form, once the steps and their entries were found: a caller can do that once for many calls.
// `start_prepared` and `call_fitting` serve our own crates only: a caller has to see that the fields are those of the file, or that the
// record fits.
ghost use Rattle.std.specs.Prelude.{◌≡◌, eqb, if◌then◌else◌};
ghost use Rattle.rules.specs.Expanding.{expansion};
ghost use Rattle.rules.specs.Calling.{outcome};
ghost use Rattle.rules.specs.Stepping.{entry_of};
ghost use Rattle.machine.specs.Runs.{ran, Funded};
ghost use Rattle.machine.specs.Calls.{Passed, Fits};
ghost use Rattle.walker.specs.Tables.{Expanded, EntryFound};
ghost use Rattle.walker.specs.Runs.{run_of, walk_by_in};
ghost use Rattle.runner.specs.CallAnswers.{answered};
ghost use Rattle.runner.specs.Tables.{FieldsIn, start_in, call_in};

use crate::Prepared;
use crate::answers::answered;
use machine::Stop;
use machine::outcomes::{called, check_call, check_coins, check_sender, completed, started};
use machine::state::{entering, starting};
use rules::{Answer, Call, Fields, Machine, Outcome, Refusal, Setting, State};
use walker::steps::Steps;

// The node that a run has reached becomes the state; the fallback's end, which is the number of states, keeps the
// state of before.
fn settle(setting: &Setting, node: u32) -> u32
    ensures { result ≡ (if eqb node setting.now.states then setting.now.before else node) }
{
    let end = u32::from(setting.states);
    if node == end { setting.before } else { node }
}

pub fn start_prepared(steps: &Steps<'_>, fields: &Fields) -> Outcome
    requires { FieldsIn steps.now.file.now steps.now.words.now fields.now }
    ensures { (a : Expanded steps.now.file.now steps.now.words.now) → result ≡ start_in steps.now.file.now a.tree }
{
    let (mut m, setting) = starting(fields);
    match steps.walk(u32::from(setting.states) + 2, &mut m, &setting) {
        Ok(node) => started(settle(&setting, node), &m, Ok(())),
        Err(stop) => started(setting.before, &m, completed(Err(stop))),
    }
}

// The frame is `call_accepted`'s too: three lines around tests and a run of other forms.
pub fn call_prepared(p: &Prepared<'_, '_>, s: &State, k: &Call) -> Outcome
    ensures { (a : Expanded p.now.steps.file.now p.now.steps.words.now) → result ≡ call_in p.now.steps.file.now a.tree s.now k.now }
{
    let mut state = *s;
    let answer = answered(call_tested(p, &mut state, k));
    Outcome { answer, state }
}

// Refusals 9, 20 and 21 come before the name is looked for.
fn call_tested(p: &Prepared<'_, '_>, s: &mut State, k: &Call) -> Result<Answer, Refusal>
    ensures { (a : Expanded p.now.steps.file.now p.now.steps.words.now) →
        outcome (answered result) s.new ≡ call_in p.now.steps.file.now a.tree s.old k.now }
{
    check_call(&p.fields, s, k)?;
    call_passed(p, s, k)
}

// A call on a record that is known to fit, as is every record that a completed start and calls after it lead to: it is not tested
// for refusal 20 again. A refused call leaves the record as it was.
pub fn call_fitting(p: &Prepared<'_, '_>, s: &mut State, k: &Call) -> Answer
    requires { Fits p.now.fields s.old }
    ensures { (a : Expanded p.now.steps.file.now p.now.steps.words.now) →
        outcome result s.new ≡ call_in p.now.steps.file.now a.tree s.old k.now }
{
    answered(call_known(p, s, k))
}

fn call_known(p: &Prepared<'_, '_>, s: &mut State, k: &Call) -> Result<Answer, Refusal>
    requires { Fits p.now.fields s.old }
    ensures { (a : Expanded p.now.steps.file.now p.now.steps.words.now) →
        outcome (answered result) s.new ≡ call_in p.now.steps.file.now a.tree s.old k.now }
{
    check_sender(&p.fields, k)?;
    check_coins(s, k)?;
    call_passed(p, s, k)
}

// Refusal 22, or the run from what was found of the name.
fn call_passed(p: &Prepared<'_, '_>, s: &mut State, k: &Call) -> Result<Answer, Refusal>
    requires { Passed p.now.fields s.old k.now }
    ensures { (a : Expanded p.now.steps.file.now p.now.steps.words.now) →
        outcome (answered result) s.new ≡ call_in p.now.steps.file.now a.tree s.old k.now }
{
    let entry = p.entries.find_entry(p.steps.words, k.name, s.state)?;
    let (mut m, setting) = entering(&p.fields, s, k);
    match run(&p.steps, entry, &mut m, &setting) {
        Ok(node) => Ok(called(s, settle(&setting, node), &m, Ok(()))),
        Err(stop) => Ok(called(s, setting.before, &m, completed(Err(stop)))),
    }
}

// The run of a call: from the guard's step where one was found, else from the fallback's entry.
fn run(
    steps: &Steps<'_>,
    entry: Option<usize>,
    m: &mut Machine,
    setting: &Setting,
) -> Result<u32, Stop>
    requires { Funded setting.now.accounts m.old × ((a : Expanded steps.now.file.now steps.now.words.now) →
        EntryFound (expansion a.tree) setting.now.call.name setting.now.before (Ok entry)) }
    ensures { (a : Expanded steps.now.file.now steps.now.words.now) → ran result m.new
        ≡ run_of (walk_by_in steps.now.file.now a.tree setting.now
        (entry_of (expansion a.tree) setting.now.call.name setting.now.before) m.old) }
{
    match entry {
        Some(place) => steps.enter(place, m, setting),
        None => steps.walk(u32::from(setting.states) + 1, m, setting),
    }
}
