// The names that a rule's p and q are tested against: those of the transitions that bytes begin with.
ghost use Rattle.std.specs.Prelude.{◌≡◌, eqb};
ghost use Rattle.rules.specs.Basics.{any};
ghost use Rattle.rules.specs.Reading.{named};
ghost use Rattle.files.specs.Members.{names_in};

use crate::values::byte;
use records::bytes::{record_len, u16_at};
use records::kind::Kind;

pub fn is_name(s: &[u8], name: usize) -> bool
    ensures { result ≡ any (eqb name) (names_in 64 s.now) }
{
    // Where the next record begins is read from the one before.
    let mut rest = s;
    for _ in 0..64_usize {
        let Some(n) = record_len(rest) else {
            return false;
        };
        if u16_at(rest, 2) != Kind::Transition.number() {
            return false;
        }
        if name == byte(rest, 4) {
            return true;
        }
        rest = &rest[n..];
    }
    false
}

// Whether p or q of a rule of this type may be n. A rule's type is a field like any other here: its number is tested, and `access`
// makes a rule of it.
pub fn is_named(s: &[u8], kind: usize, n: usize) -> bool
    ensures { result ≡ named (names_in 64 s.now) kind n }
{
    if kind == 1 { n == 0 } else { is_name(s, n) }
}
