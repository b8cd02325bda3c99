// The places of an expansion's kind 1 steps. For our own crates only: a caller has to see that there is room.
ghost use Rattle.std.specs.Prelude.{◌≡◌, [], ◌∷◌, ◌++◌, ◌<◌, length};

use std::marker::Model;

// Each is the place of a step, of which an accepted file has at most so many.
const MOST: usize = 1024;

// The places in order, then zeros: fixed memory, as the product uses no heap. The zeros make the array one of its places, as a copy needs
// it. `Page` of `texts` is no instance of one generic type with it: a page takes whole texts, and these are pushed one by one.
#[derive(Clone, Copy)]
pub struct Entries {
    places: [u32; MOST],
    count: usize,
}

impl Model for Entries {
    ghost use Rattle.std.specs.Prelude.{List, ℕ, take, length};
    ghost use Rattle.rules.specs.Basics.{padded};
    ghost use Rattle.walker.specs.Entries.{ZerosBehind};

    ghost Value = { List ℕ };

    ghost view = { λ e. take e.count e.places };

    ghost invariant = { λ e. ZerosBehind e.count e.places };

    ghost inverse = { λ l. record { places = padded 1024 l; count = length l } };

    ghost inverse_ok = { λ e h i. record { places = h.zeros i; count = h.counts i } };
}

impl Entries {
    #[inline(always)]
    pub fn new() -> Self
        ensures { result ≡ [] }
    {
        Entries {
            places: [0; MOST],
            count: 0,
        }
    }

    #[inline(always)]
    pub fn push(&mut self, place: u32)
        requires { length self.old < 1024 }
        ensures { self.new ≡ self.old ++ place ∷ [] }
    {
        self.places[self.count] = place;
        self.count += 1;
    }

    pub fn count(&self) -> usize
        ensures { result ≡ length self.now }
    {
        self.places().len()
    }

    pub fn places(&self) -> &[u32]
        ensures { result.now ≡ self.now }
    {
        &self.places[..self.count]
    }
}
