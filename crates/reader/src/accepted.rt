// An accepted file.
ghost use Rattle.access.specs.Trees.{HasSteps};

use access::parsed::Parsed;

// The file, and how many steps it has.
#[derive(Clone, Copy)]
pub struct Accepted<'a> {
    pub parsed: Parsed<'a>,
    pub steps: usize,
    pub ghost accepted: { ∥ HasSteps parsed.file.now steps ∥₁ },
}
