// The check of the agreement's body.
ghost use Rattle.std.specs.Prelude.{◌≡◌};
ghost use Rattle.rules.specs.Reading.{agreement_body};
ghost use Rattle.records.specs.Checking.{outcome, of_part};
ghost use Rattle.files.specs.Trees.{tree_steps};

use crate::fields::check_fields;
use crate::groups::check_groups;
use crate::limits::Limits;
use crate::values::byte;
use records::answers::Checked;
use records::fault::Fault;
use records::part::Part;
use records::statements::check_statement;

pub fn check_agreement(b: Part) -> Result<Checked, Fault>
    ensures { result ≡ outcome tree_steps (of_part agreement_body b.entry) }
{
    let limits = Limits {
        states: byte(b.bytes, 0),
        variables: byte(b.bytes, 1),
        accounts: byte(b.bytes, 2),
    };
    let fields = check_fields(b)?;
    let initial = check_statement(b.after(fields), 15, limits.variables)?;
    let fallback = check_statement(b.after(initial), 15, limits.variables)?.more(initial.steps);
    let groups = check_groups(b.after(fallback), limits)?;
    Ok(groups.more(fallback.steps))
}
