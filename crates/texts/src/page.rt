// The text of a report, written piece by piece. For our own crates only: a caller has to see that there is room.
ghost use Rattle.std.specs.Prelude.{◌≡◌, ◌+◌, ◌≤◌, ◌++◌, [], length};
ghost use Rattle.rules.specs.Basics.{padded};
ghost use Rattle.rules.specs.Reporting.{decimal, spaced};

use std::marker::Model;

// The line of the steps takes at most 17 bytes, and each of at most eight rules at most 122.
const ROOM: usize = 1024;

// A text of at most so many bytes, and zeros behind it. A fixed buffer with a length, as the product uses no heap. No one generic type
// with walker's `Entries`: a page takes whole texts and hands out the zeros, entries are 32-bit places that are pushed one by one.
#[derive(Clone, Copy)]
pub struct Page {
    bytes: [u8; ROOM],
    length: usize,
}

impl Model for Page {
    ghost use Rattle.std.specs.Prelude.{ℕ, List, take};
    ghost use Rattle.std.proofs.Common.{sym};

    ghost Value = { List ℕ };

    ghost use Rattle.texts.specs.Texts.{Filled, page};

    ghost view = { λ p. take p.length p.bytes };

    ghost invariant = { λ p. Filled p.length p.bytes };

    ghost inverse = { page };

    ghost inverse_ok = { λ p f i. record { bytes = sym f.zeros i; length = f.whole i } };
}

impl Page {
    pub fn new() -> Self
        ensures { result ≡ [] }
    {
        Page {
            bytes: [0; ROOM],
            length: 0,
        }
    }

    pub fn text(&self) -> &[u8]
        ensures whole { result.now ≡ self.now }
        ensures short { length result.now ≤ 1024 }
    {
        &self.bytes[..self.length]
    }

    pub fn length(&self) -> usize
        ensures value { result ≡ length self.now }
        ensures short { result ≤ 1024 }
    {
        self.text().len()
    }

    // The text and the zeros behind it.
    pub fn bytes(&self) -> &[u8; 1024]
        ensures value { result.now ≡ padded 1024 self.now }
    {
        &self.bytes
    }

    pub fn put(&mut self, text: &[u8])
        requires { length self.old + length text.now ≤ 1024 }
        ensures { self.new ≡ self.old ++ text.now }
    {
        let end = self.length + text.len();
        self.bytes[self.length..end].copy_from_slice(text);
        self.length = end;
    }

    // The digits, the last one first; ten are enough for any u32. No `Display`: it writes through a writer that may fail.
    pub fn put_number(&mut self, n: u32)
        requires { length self.old + 10 ≤ 1024 }
        ensures after { self.new ≡ self.old ++ decimal n }
        ensures short { length self.new ≤ length self.old + 10 }
    {
        let mut digits = [0u8; 10];
        let mut m = n;
        for i in (0..10).rev() {
            digits[i] = b'0' + (m % 10) as u8;
            m /= 10;
            if m == 0 {
                self.put(&digits[i..]);
                return;
            }
        }
    }

    #[tactic(auto, unfolding(rules::specs::Reporting::spaced))]
    pub fn put_spaced(&mut self, n: u32)
        requires { length self.old + 11 ≤ 1024 }
        ensures after { self.new ≡ self.old ++ spaced n }
        ensures short { length self.new ≤ length self.old + 11 }
    {
        self.put(b" ");
        self.put_number(n);
    }
}
