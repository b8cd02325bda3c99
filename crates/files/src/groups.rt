// The check of an agreement's groups: transitions, call rows and rules.
ghost use Rattle.std.specs.Prelude.{◌≡◌, ℕ, List};
ghost use Rattle.rules.specs.Basics.{sum};
ghost use Rattle.rules.specs.Reading.{group, no_more};
ghost use Rattle.records.specs.Kinds.{number_of};
ghost use Rattle.records.specs.Checking.{outcome, of_part, no_steps};
ghost use Rattle.files.specs.Members.{member, Reads};
ghost use Rattle.files.specs.Trees.{groups, groups_steps};

use crate::limits::Limits;
use crate::members::{check_row, check_rule, check_transition};
use records::answers::Checked;
use records::fault::{Fault, refused};
use records::kind::Kind;
use records::part::Part;

// A group that may have `most` members, whose bodies are read by `body`. A `for` would be no plainer: a member past `most` is read too,
// and refused.
fn check_group<F: Fn(Part) -> Result<Checked, Fault>>(
    p: Part,
    kind: Kind,
    most: usize,
    body: F,
) -> Result<Checked, Fault>
    requires callable { F.IsAlwaysCallable body }
    requires reads { (s v a : ℕ) × (names : List ℕ) × Reads (F.post body) (member s v a names (number_of kind)) }
    ensures { (s v a : ℕ) (names : List ℕ) → Reads (F.post body) (member s v a names (number_of kind)) → result ≡ outcome sum (of_part (group most (number_of kind) (member s v a names (number_of kind))) p.entry) }
{
    let mut rest = p;
    let mut steps = 0;
    let mut left = most;
    while kind.comes(rest.bytes) {
        let record = rest.record()?;
        if left == 0 {
            return Err(refused(4, rest.at));
        }
        let read = body(record.body)?.closed(record.end)?;
        rest = rest.after(read);
        steps += read.steps;
        left -= 1;
    }
    Ok(Checked {
        end: rest.at,
        steps,
    })
}

// Nothing may follow the groups.
fn check_end(p: Part) -> Result<Checked, Fault>
    ensures { result ≡ outcome no_steps (of_part no_more p.entry) }
{
    if p.bytes.is_empty() {
        return Ok(Checked::at(p.at));
    }
    p.record()?;
    Err(refused(3, p.at))
}

// The three groups, up to the end of the record; the transitions come first, and a rule names some of them.
pub fn check_groups(p: Part, limits: Limits) -> Result<Checked, Fault>
    ensures { result ≡ outcome groups_steps (of_part (groups limits.states limits.variables limits.accounts) p.entry) }
{
    let transition = |b: Part| check_transition(b, limits.states, limits.variables);
    let row = |b: Part| check_row(b, limits.accounts);
    let rule = |b: Part| check_rule(b, limits.variables, p.bytes);
    let transitions = check_group(p, Kind::Transition, 64, transition)?;
    let rows = check_group(p.after(transitions), Kind::Row, 16, row)?.more(transitions.steps);
    let rules = check_group(p.after(rows), Kind::Rule, 8, rule)?.more(rows.steps);
    Ok(check_end(p.after(rules))?.more(rules.steps))
}
