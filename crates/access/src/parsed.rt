// A file whose tree was read. For our own crates only: a caller has to see that it was.
ghost use Rattle.std.specs.Prelude.{◌≡◌};
ghost use Rattle.access.specs.Trees.{TreeRead};
ghost use Rattle.access.specs.Places.{Laid};

use crate::Layout;
use crate::places::layout;

// The file, with its layout.
#[derive(Clone, Copy)]
pub struct Parsed<'a> {
    pub file: &'a [u8],
    pub layout: Layout,
    pub ghost laid: { ∥ Laid file.now layout ∥₁ },
}

impl Parsed<'_> {
    // The file, once its parts are found.
    pub fn new(file: &[u8]) -> Parsed<'_>
        requires { TreeRead file.now }
        ensures { result.file.now ≡ file.now }
    {
        Parsed {
            file,
            layout: layout(file),
        }
    }
}
