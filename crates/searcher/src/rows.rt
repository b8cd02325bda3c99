// The call rows of a file, read once.
ghost use Rattle.std.specs.Prelude.{◌≡◌, take};
ghost use Rattle.access.specs.Trees.{TreeRead};

use access::parsed::Parsed;
use machine::state::no_call;
use rules::Call;

// The rows, which are 16 at most, and then calls with zeros. An array of 16, as the product uses no heap.
pub fn rows(parsed: &Parsed) -> [Call; 16]
    ensures { (a : TreeRead parsed.now.file.now) → take parsed.now.layout.rows.count result ≡ a.tree.rows }
{
    let n = parsed.layout.rows.count;
    std::array::from_fn(|i| if i < n { parsed.row(i) } else { no_call() })
}
