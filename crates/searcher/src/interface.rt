// What is exported to C, Rust and Python of judging, by `searcher_c`. Every argument that a caller can pass gets an answer.
ghost use Rattle.std.specs.Prelude.{◌≡◌};
ghost use Rattle.rules.specs.Answers.{verdict_numbers, judged_numbers};
ghost use Rattle.rules.specs.Exported.{VerdictHands};

use crate::verdicts::verdict;
use rules::{Judged, Verdict};

// The refusal's number (0: judged), its place, the verdict (1 broken, 2 held, 3 spent, 0 on refusal), the lists tried, the length
// of the list. Functions, and no `From` in `rules`: how the interface lays them out is said here.
#[tactic(auto, unfolding(rules::specs::Answers::verdict_numbers))]
fn verdict_words(v: Verdict) -> [u32; 5]
    ensures { result ≡ verdict_numbers v }
{
    match v {
        Verdict::Broken(n, k) => [0, 0, 1, n, u32::from(k)],
        Verdict::Held(n) => [0, 0, 2, n, 0],
        Verdict::Spent(n) => [0, 0, 3, n, 0],
        Verdict::Refused(r) => [u32::from(r.number), r.place, 0, 0, 0],
    }
}

// The same, with the rows and then zeros; each word is written out, so that the order can be read.
fn judged_words(j: Judged) -> [u32; 13]
    ensures { result ≡ judged_numbers j }
{
    let v = verdict_words(j.verdict);
    let r = j.rows;
    [
        v[0],
        v[1],
        v[2],
        v[3],
        v[4],
        u32::from(r[0]),
        u32::from(r[1]),
        u32::from(r[2]),
        u32::from(r[3]),
        u32::from(r[4]),
        u32::from(r[5]),
        u32::from(r[6]),
        u32::from(r[7]),
    ]
}

pub fn agreement_verdict(file: &[u8], rule: u32, words: &mut [u32], answer: &mut [u32; 13])
    ensures { VerdictHands file.now rule words.old words.new answer.new }
{
    let j = verdict(file, rule, words);
    *answer = judged_words(j);
}
