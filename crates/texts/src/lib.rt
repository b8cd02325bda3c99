// The report on a file, as text.
#![tactic(auto)]

mod lines;
pub mod page;

ghost use Rattle.std.specs.Prelude.{◌≡◌, ◌+◌, ◌≤◌, ◌++◌, length, replicate};
ghost use Rattle.rules.specs.Calling.{start_tree};
ghost use Rattle.rules.specs.Judging.{is_completed, verdict as verdict_of};
ghost use Rattle.rules.specs.Reporting.{rule_lines, report as report_of};
ghost use Rattle.access.specs.Trees.{AcceptedFile};

use crate::lines::{put_refusal, put_rule, put_steps};
use crate::page::Page;
use machine::outcomes::is_completed;
use reader::accept;
use reader::accepted::Accepted;
use rules::Judged;
use runner::accepted::start_accepted;
use searcher::verdicts::verdict;

// What the report program prints of any bytes.
pub fn report(file: &[u8]) -> Page
    ensures value { result ≡ report_of file.now }
    ensures length_in_bounds { length result ≤ 1024 }
{
    let mut page = Page::new();
    match accept(file) {
        Err(r) => put_refusal(&mut page, r),
        Ok(accepted) => {
            put_steps(&mut page, accepted.steps as u32);
            put_rules(&accepted, &mut page);
        }
    }
    page
}

// A line for each rule, or that the start failed.
fn put_rules(accepted: &Accepted, page: &mut Page)
    requires { length page.old + 976 ≤ 1024 }
    ensures after { (a : AcceptedFile accepted.now.parsed.file.now) →
        page.new ≡ page.old ++ rule_lines accepted.now.parsed.file.now a.tree (is_completed (start_tree a.tree).answer) }
    ensures short { length page.new ≤ length page.old + 976 }
{
    if !is_completed(start_accepted(&accepted.parsed).answer) {
        page.put(b"start refused 27\n");
        return;
    }
    let parsed = &accepted.parsed;
    for i in 0..parsed.layout.rules.count {
        put_rule(page, i as u32, judged(parsed.file, i as u32));
    }
}

// The verdict on a rule, with words enough for every accepted file, in an array, as the product uses no heap.
fn judged(file: &[u8], rule: u32) -> Judged
    ensures { result ≡ (verdict_of file.now rule (replicate 5120 0)).answer }
{
    let mut words = [0u32; 5120];
    verdict(file, rule, &mut words)
}
