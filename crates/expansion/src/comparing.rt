// Whether words begin with the expansion of an accepted file.
ghost use Rattle.std.specs.Prelude.{◌≡◌};
ghost use Rattle.rules.specs.Expanding.{expansion, table};
ghost use Rattle.rules.specs.Stepping.{begins_with};
ghost use Rattle.access.specs.Trees.{AcceptedFile};

use crate::writing::write_expansion;
use reader::accepted::Accepted;

// The expansion is written anew, into as many words as any accepted file needs, and compared. They are an array, as the product uses no
// heap.
pub fn is_expansion(accepted: &Accepted, words: &[u32]) -> bool
    ensures { (a : AcceptedFile accepted.now.parsed.file.now) → result ≡ begins_with words.now (table (expansion a.tree)) }
{
    let mut own = [0u32; 5120];
    write_expansion(&accepted.parsed, &mut own);
    words.starts_with(&own[..5 * accepted.steps])
}
