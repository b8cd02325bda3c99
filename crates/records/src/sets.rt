// The check of a set: as a statement's body, and as a for's initial or closing set.
ghost use Rattle.std.specs.Prelude.{◌≡◌, false};
ghost use Rattle.rules.specs.Reading.{expression, set_body, loop_set};
ghost use Rattle.records.specs.Checking.{outcome, of_part, no_steps, ranged};
ghost use Rattle.records.specs.Counting.{target};

use crate::answers::Checked;
use crate::expressions::{check_ranged, check_value};
use crate::fault::{Fault, refused};
use crate::kind::Kind;
use crate::part::Part;

#[inline(always)]
pub fn check_set(b: Part, levels: usize, variables: usize) -> Result<Checked, Fault>
    ensures { result ≡ outcome no_steps (of_part (set_body variables (expression variables false levels)) b.entry) }
{
    let target = check_target(b, variables)?;
    check_value(b.after(target), levels, variables)
}

// A set's target: a variable or a local. The test is of the number, as the rules state it: an enum of the two would be made for this
// one test and dropped after it.
fn check_target(b: Part, variables: usize) -> Result<Checked, Fault>
    ensures { result ≡ outcome no_steps (of_part (ranged (target variables)) b.entry) }
{
    check_ranged(b, |t| t < variables || (256..264).contains(&t))
}

// A for's initial or closing set.
pub fn check_loop_set(p: Part, levels: usize, variables: usize) -> Result<Checked, Fault>
    ensures { result ≡ outcome no_steps (of_part (loop_set variables levels) p.entry) }
{
    let record = p.opened(levels)?;
    if record.kind != Kind::Set.number() {
        return Err(refused(3, p.at));
    }
    check_set(record.body, levels - 1, variables)?.closed(record.end)
}
