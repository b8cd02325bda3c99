// The steps of an accepted file, as a run goes by them.
ghost use Rattle.walker.specs.Walkable.{Traversable};

use crate::index::NODES;

// The file, lent words that begin with its expansion, and the index of its nodes.
#[derive(Clone, Copy)]
pub struct Steps<'a> {
    pub file: &'a [u8],
    pub words: &'a [u32],
    pub nodes: &'a [u32; NODES],
    pub ghost walkable: { ∥ Traversable file.now words.now nodes.now ∥₁ },
}
