// A whole file: the check of its bytes, refusals 1 to 5 with their places, and the number of steps of its expansion.
#![tactic(auto)]

mod agreement;
mod fields;
mod groups;
mod limits;
mod members;
mod names;
pub mod values;

ghost use Rattle.std.specs.Prelude.{◌≡◌};
ghost use Rattle.rules.specs.Reading.{read_tree};
ghost use Rattle.records.specs.Checking.{outcome};
ghost use Rattle.files.specs.Trees.{tree_steps};

use crate::agreement::check_agreement;
use records::answers::Checked;
use records::bytes::u16_at;
use records::fault::{Fault, refused};
use records::kind::Kind;
use records::part::Part;

pub fn check_file(file: &[u8]) -> Result<Checked, Fault>
    ensures { result ≡ outcome tree_steps (read_tree file.now) }
{
    let n = file.len();
    if !(4..=32768).contains(&n) || u16_at(file, 0) != n {
        return Err(refused(1, 0));
    }
    if u16_at(file, 2) != Kind::Agreement.number() {
        return Err(refused(3, 0));
    }
    let whole = Part {
        start: 0,
        at: 0,
        bytes: file,
    };
    check_agreement(whole.body(n))?.closed(n)
}
