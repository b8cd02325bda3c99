// The check of a transition's, a call row's and a rule's body.
ghost use Rattle.std.specs.Prelude.{◌≡◌};
ghost use Rattle.rules.specs.Reading.{transition_body, row_body, rule_body};
ghost use Rattle.records.specs.Checking.{outcome, of_part, no_steps};
ghost use Rattle.files.specs.Members.{transition_head, rule_head, transition_steps, names_in};

use crate::fields::{field, words};
use crate::names::is_named;
use crate::values::{byte, half};
use records::answers::Checked;
use records::expressions::{Scope, check_expression, check_value};
use records::fault::Fault;
use records::part::Part;
use records::statements::check_statement;

fn check_transition_head(b: Part, states: usize) -> Result<Checked, Fault>
    ensures { result ≡ outcome no_steps (of_part (transition_head states) b.entry) }
{
    field(b, 0, 1, true)
        .and(field(b, 1, 1, byte(b.bytes, 1) < states))
        .and(field(b, 2, 1, byte(b.bytes, 2) < states))
        .and(field(b, 3, 1, byte(b.bytes, 3) == 0))?;
    Ok(Checked::at(b.at + 4))
}

// A transition's guard is a step.
pub fn check_transition(b: Part, states: usize, variables: usize) -> Result<Checked, Fault>
    ensures { result ≡ outcome transition_steps (of_part (transition_body variables states) b.entry) }
{
    let head = check_transition_head(b, states)?;
    let guard = check_value(b.after(head), 14, variables)?;
    let action = check_statement(b.after(guard), 14, variables)?;
    Ok(action.more(1))
}

pub fn check_row(b: Part, accounts: usize) -> Result<Checked, Fault>
    ensures { result ≡ outcome no_steps (of_part (row_body accounts) b.entry) }
{
    field(b, 0, 1, true)
        .and(field(b, 1, 1, byte(b.bytes, 1) < accounts))
        .and(field(b, 2, 1, byte(b.bytes, 2) == 0))
        .and(field(b, 3, 1, byte(b.bytes, 3) == 0))?;
    words(b, 4, 5)
}

// A rule's fields; the transitions begin with ts. A rule's type is a field like any other here: its number is tested, and `access`
// makes a rule of it.
fn check_rule_head(b: Part, ts: &[u8]) -> Result<Checked, Fault>
    ensures { result ≡ outcome no_steps (of_part (rule_head (names_in 64 ts.now)) b.entry) }
{
    let kind = half(b.bytes, 0);
    field(b, 0, 2, (1..=3).contains(&kind))
        .and(field(b, 2, 1, is_named(ts, kind, byte(b.bytes, 2))))
        .and(field(b, 3, 1, is_named(ts, kind, byte(b.bytes, 3))))?;
    Ok(Checked::at(b.at + 4))
}

// A rule, whose type is tested by its number, as in `check_rule_head`.
pub fn check_rule(b: Part, variables: usize, ts: &[u8]) -> Result<Checked, Fault>
    ensures { result ≡ outcome no_steps (of_part (rule_body variables (names_in 64 ts.now)) b.entry) }
{
    let scope = Scope {
        variables,
        in_rule: true,
    };
    let head = check_rule_head(b, ts)?;
    if half(b.bytes, 0) == 1 {
        check_expression(b.after(head), 14, scope)
    } else {
        Ok(head)
    }
}
