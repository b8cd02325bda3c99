// Expanding a file: its steps are written into lent words, five words each.
#![tactic(auto)]

pub mod comparing;
pub mod lent;
pub mod writing;

ghost use Rattle.std.specs.Prelude.{◌≡◌};
ghost use Rattle.rules.specs.Accepting.{lent, expand_file};

use crate::lent::check_room;
use crate::writing::write_expansion;
use reader::accept;
use rules::Counted;

// Any bytes and words: the refusal, with the words unchanged, or the step count, with the steps written and no later word.
pub fn expand(file: &[u8], words: &mut [u32]) -> Counted
    ensures { lent result words.new ≡ expand_file file.now words.old }
{
    let accepted = accept(file)?;
    check_room(&accepted, words)?;
    write_expansion(&accepted.parsed, words);
    Ok(accepted.steps as u32)
}
