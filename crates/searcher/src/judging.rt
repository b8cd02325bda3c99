// Judging a rule of a prepared file. For our own crates only: a caller has to see that what was prepared and what was parsed are one
// file, that there is an i-th rule, and that the record of the start fits. It can prepare the file once for all of its rules.
ghost use Rattle.std.specs.Prelude.{◌≡◌, ◌<◌};
ghost use Rattle.std.proofs.Math.Option.{some};
ghost use Rattle.std.proofs.Math.ListN.{get_elem?};
ghost use Rattle.rules.specs.Syntax.{Rule};
ghost use Rattle.rules.specs.Calling.{start_tree};
ghost use Rattle.rules.specs.Judging.{judged_of, ruling};
ghost use Rattle.machine.specs.Calls.{Fits};
ghost use Rattle.access.specs.Trees.{AcceptedFile};

use crate::Position;
use crate::plan::Search;
use crate::rows::rows;
use crate::standing::at_first;
use access::parsed::Parsed;
use rules::{Judged, State};
use runner::Prepared;

// The i-th rule, from the state that the start led to.
pub fn judge_accepted(
    parsed: &Parsed,
    prepared: &Prepared<'_, '_>,
    i: usize,
    fresh: State,
) -> Judged
    requires { (prepared.now.steps.file.now ≡ parsed.now.file.now) × (i < parsed.now.layout.rules.count)
        × Fits prepared.now.fields fresh }
    ensures { (a : AcceptedFile parsed.now.file.now) (x : Rule) →
        get_elem? a.tree.rules i ≡ some x → fresh ≡ (start_tree a.tree).state → result ≡ judged_of (ruling a.tree x) }
{
    let fields = &prepared.fields;
    let rule = parsed.rule(i);
    let all = rows(parsed);
    let search = Search {
        prepared,
        rule,
        rows: &all[..parsed.layout.rows.count],
        bound: fields.bound,
    };
    let status = at_first(parsed.file, rule, &fresh);
    let position = Position {
        state: fresh,
        status,
    };
    search.search(&position, fields.depth)
}
