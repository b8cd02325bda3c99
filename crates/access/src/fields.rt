// The fixed fields of a file.
ghost use Rattle.std.specs.Prelude.{◌≡◌, ◌+◌, ◌*◌, ◌≤◌, length};
ghost use Rattle.rules.specs.Basics.{padded};
ghost use Rattle.grammar.specs.Numbers.{numbers_at};
ghost use Rattle.access.specs.Trees.{TreeRead};

use crate::parsed::Parsed;
use records::bytes::{u16_at, u32_at};
use rules::Fields;

// The first n opening balances, then zeros.
fn opening(file: &[u8], n: usize) -> [u32; 8]
    requires { (n ≤ 8) × (16 + 4 * n ≤ length file.now) }
    ensures { result ≡ padded 8 (numbers_at n 16 file.now) }
{
    std::array::from_fn(|i| if i < n { u32_at(file, 16 + 4 * i) } else { 0 })
}

impl Parsed<'_> {
    // All of the fixed fields.
    #[tactic(auto, using(crate::proofs::Kept::twenty_of))]
    pub fn fields(&self) -> Fields
        ensures { (a : TreeRead self.now.file.now) → result ≡ a.tree.fields }
    {
        let file = self.file;
        let opening = opening(file, usize::from(file[6]));
        Fields {
            states: file[4],
            variables: file[5],
            accounts: file[6],
            start: file[7],
            depth: file[8],
            limit: u16_at(file, 10) as u16,
            bound: u32_at(file, 12),
            opening,
        }
    }
}
