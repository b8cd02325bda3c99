// The report's lines. For our own crates only: a caller has to see that the page has room. The clauses on room stay, for no type can
// hold them: each line asks for its own length.
ghost use Rattle.std.specs.Prelude.{◌≡◌, ◌+◌, ◌*◌, ◌≤◌, ◌++◌, length};
ghost use Rattle.rules.specs.Basics.{joined};
ghost use Rattle.rules.specs.Reporting.{spaced, refused_line, steps_line, verdict_part, rule_line};

use crate::page::Page;
use rules::{Judged, Refusal, Verdict};

#[tactic(auto, unfolding(rules::specs::Reporting::refused_line))]
pub fn put_refusal(page: &mut Page, r: Refusal)
    requires { length page.old + 30 ≤ 1024 }
    ensures after { page.new ≡ page.old ++ refused_line r }
    ensures short { length page.new ≤ length page.old + 30 }
{
    page.put(b"refused");
    page.put_spaced(u32::from(r.number));
    page.put_spaced(r.place);
    page.put(b"\n");
}

#[tactic(auto, unfolding(rules::specs::Reporting::steps_line))]
pub fn put_steps(page: &mut Page, steps: u32)
    requires { length page.old + 17 ≤ 1024 }
    ensures after { page.new ≡ page.old ++ steps_line steps }
    ensures short { length page.new ≤ length page.old + 17 }
{
    put_numbered(page, b"steps", steps);
    page.put(b"\n");
}

#[tactic(auto, using(crate::proofs::Texts::rows_more), unfolding(rules::specs::Basics::joined))]
fn put_rows(page: &mut Page, rows: &[u8])
    requires { length page.old + 11 * length rows.now ≤ 1024 }
    ensures after { page.new ≡ page.old ++ joined spaced rows.now }
    ensures short { length page.new ≤ length page.old + 11 * length rows.now }
{
    for row in rows {
        page.put_spaced(u32::from(*row));
    }
}

// A word and a number.
fn put_numbered(page: &mut Page, word: &[u8], n: u32)
    requires { length page.old + (length word.now + 11) ≤ 1024 }
    ensures after { page.new ≡ page.old ++ (word.now ++ spaced n) }
    ensures short { length page.new ≤ length page.old + (length word.now + 11) }
{
    page.put(word);
    page.put_spaced(n);
}

#[tactic(auto, unfolding(rules::specs::Reporting::verdict_part))]
fn put_verdict(page: &mut Page, j: Judged)
    requires { length page.old + 106 ≤ 1024 }
    ensures after { page.new ≡ page.old ++ verdict_part j j.verdict }
    ensures short { length page.new ≤ length page.old + 106 }
{
    match j.verdict {
        Verdict::Broken(tried, count) => {
            put_numbered(page, b" broken", tried);
            put_rows(page, &j.rows[..usize::from(count).min(8)]);
        }
        Verdict::Held(tried) => put_numbered(page, b" held", tried),
        Verdict::Spent(tried) => put_numbered(page, b" spent", tried),
        Verdict::Refused(r) => put_numbered(page, b" refused", u32::from(r.number)),
    }
}

#[tactic(auto, unfolding(rules::specs::Reporting::rule_line))]
pub fn put_rule(page: &mut Page, i: u32, j: Judged)
    requires { length page.old + 122 ≤ 1024 }
    ensures after { page.new ≡ page.old ++ rule_line i j }
    ensures short { length page.new ≤ length page.old + 122 }
{
    put_numbered(page, b"rule", i);
    put_verdict(page, j);
    page.put(b"\n");
}
