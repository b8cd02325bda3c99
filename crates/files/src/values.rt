// Numbers at a place in bytes, 0 where they are not there whole. No options: what is not there is refused, and what stood for its
// value has no part in the answer.
// This serves our own crates only: a caller has to see that the place is small.
ghost use Rattle.std.specs.Prelude.{◌≡◌, ◌<◌};
ghost use Rattle.files.specs.FieldAnswers.{value_at};

use records::bytes::{u16_at, u32_at};

pub fn byte(b: &[u8], i: usize) -> usize
    ensures { (result ≡ value_at 1 i b.now) × (result < 256) }
{
    usize::from(b.get(i).copied().unwrap_or(0))
}

// Not one function of a size with `word`: it would take the reader as a closure, and be no shorter than the two.
pub fn half(b: &[u8], i: usize) -> usize
    requires { i < 256 }
    ensures { result ≡ value_at 2 i b.now }
{
    if i + 2 <= b.len() { u16_at(b, i) } else { 0 }
}

pub fn word(b: &[u8], i: usize) -> usize
    requires { i < 256 }
    ensures { result ≡ value_at 4 i b.now }
{
    if i + 4 <= b.len() {
        u32_at(b, i) as usize
    } else {
        0
    }
}
