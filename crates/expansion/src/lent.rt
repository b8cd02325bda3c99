// What is asked of lent words.
ghost use Rattle.std.specs.Prelude.{◌≡◌, ◌*◌, ◌≤◌, length, [], ◌∷◌, OnOk};
ghost use Rattle.rules.specs.Basics.{first_of};
ghost use Rattle.rules.specs.Accepting.{refused_by, too_few};
ghost use Rattle.rules.specs.Stepping.{lent_tests};
ghost use Rattle.access.specs.Trees.{AcceptedFile};

use crate::comparing::is_expansion;
use reader::accepted::Accepted;
use rules::Refusal;

// Refusal 11: room for the expansion, five words a step.
pub fn check_room(accepted: &Accepted, words: &[u32]) -> Result<(), Refusal>
    ensures is { (a : AcceptedFile accepted.now.parsed.file.now) → result ≡ refused_by (first_of ((too_few a.tree words.now, 11) ∷ [])) }
    ensures room { OnOk result (5 * accepted.now.steps ≤ length words.now) }
{
    if words.len() < 5 * accepted.steps {
        Err(Refusal::placeless(11))
    } else {
        Ok(())
    }
}

// Refusals 11 and 12: room for the expansion, and the words begin with it.
pub fn check_words(accepted: &Accepted, words: &[u32]) -> Result<(), Refusal>
    ensures is { (a : AcceptedFile accepted.now.parsed.file.now) → result ≡ refused_by (first_of (lent_tests a.tree words.now)) }
    ensures room { OnOk result (5 * accepted.now.steps ≤ length words.now) }
{
    check_room(accepted, words)?;
    if is_expansion(accepted, words) {
        Ok(())
    } else {
        Err(Refusal::placeless(12))
    }
}
