// What C, Rust and Python call of the searcher: it hands on to the function of that name in `searcher::interface`, whose clause it
// states again.
// An archive has only what one crate exports, and no crate stands on one that makes an archive: so the functions stand twice.
#![tactic(auto)]

ghost use Rattle.rules.specs.Exported.{VerdictHands};

use searcher::interface;

// The refusal's number (0: judged), its place, the verdict (1 broken, 2 held, 3 spent, 0 on refusal), the lists tried, the length
// of the list, and its rows.
#[unsafe(no_mangle)]
pub extern "C" fn agreement_verdict(
    file: &[u8],
    rule: u32,
    words: &mut [u32],
    answer: &mut [u32; 13],
)
    ensures { VerdictHands file.now rule words.old words.new answer.new }
{
    interface::agreement_verdict(file, rule, words, answer);
}
