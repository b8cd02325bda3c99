// The call rows and rules of a file. For our own crates only: a caller has to see that there is an i-th one.
ghost use Rattle.std.specs.Prelude.{◌≡◌, map, ◌<◌, get_or};
ghost use Rattle.std.proofs.Math.Option.{some};
ghost use Rattle.std.proofs.Math.ListN.{get_elem?};
ghost use Rattle.rules.specs.Calling.{no_call};
ghost use Rattle.access.specs.Trees.{TreeRead};
ghost use Rattle.access.specs.Places.{past};
ghost use Rattle.access.specs.FoundAnswers.{rule_from};

use crate::RuleAt;
use crate::parsed::Parsed;
use crate::places::nth;
use records::bytes::{u16_at, u32_at};
use rules::Call;

impl Parsed<'_> {
    // The i-th call row.
    #[tactic(auto, using(crate::proofs::Kept::row_in))]
    pub fn row(&self, i: usize) -> Call
        requires { i < self.now.layout.rows.count }
        ensures { (a : TreeRead self.now.file.now) → result ≡ get_or a.tree.rows i no_call }
    {
        let file = self.file;
        let at = nth(file, self.layout.rows.at, i);
        Call {
            name: file[at + 4],
            sender: file[at + 5],
            coins: u32_at(file, at + 8),
            arguments: [
                u32_at(file, at + 12),
                u32_at(file, at + 16),
                u32_at(file, at + 20),
                u32_at(file, at + 24),
            ],
        }
    }

    // The i-th rule. An expression stands 8 bytes after where its rule begins.
    #[tactic(auto, using(crate::proofs::Kept::rule_in))]
    pub fn rule(&self, i: usize) -> RuleAt
        requires { i < self.now.layout.rules.count }
        ensures { (a : TreeRead self.now.file.now) →
            get_elem? (map (rule_from (past self.now.file.now self.now.layout.rules.at i)) a.tree.rules) i ≡ some result }
    {
        let file = self.file;
        let at = nth(file, self.layout.rules.at, i);
        let p = file[at + 6];
        let q = file[at + 7];
        // This is where the file's number becomes a rule: an enum of the three types would be matched just so.
        match u16_at(file, at + 4) {
            1 => RuleAt::Always(at + 8),
            2 => RuleAt::NotAfter { p, q },
            _ => RuleAt::OnlyAfter { p, q },
        }
    }
}
