// What a search goes by.
use access::RuleAt;
use rules::Call;
use runner::Prepared;

// The prepared file, the rule that is judged, the call rows, and the bound. That they are those of the file is asked for by each
// method that needs it, and is no ghost field: from ∥ .. ∥ a proof gets the tree back by reading the file, but not the rule, whose
// number a search does not keep.
#[derive(Clone, Copy)]
pub struct Search<'a> {
    pub prepared: &'a Prepared<'a, 'a>,
    pub rule: RuleAt,
    pub rows: &'a [Call],
    pub bound: u32,
}
