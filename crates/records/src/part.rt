// A part of a record. This serves our own crates only: a caller has to see that it goes on within the part.
ghost use Rattle.std.specs.Prelude.{◌≡◌, ◌+◌, ◌-◌, ◌^◌, ◌<◌, ◌≤◌, length};

use crate::answers::Checked;
use crate::bytes::{record_len, u16_at};
use crate::fault::{Fault, refused};

// What is left of a record that begins at `start`: the bytes from the offset `at` on up to its end. Offsets fit 32 bits.
#[derive(Clone, Copy)]
pub struct Part<'a> {
    pub start: usize,
    pub at: usize,
    pub bytes: &'a [u8],
    ghost inside: { start ≤ at },
    ghost fits: { at + length bytes.now < 2 ^ 32 },
}

// A record that comes: its kind, its body, and where it ends. The kind is its number: the rules' bodies take any, and refuse there.
#[derive(Clone, Copy)]
pub struct Record<'a> {
    pub kind: usize,
    pub body: Part<'a>,
    pub end: usize,
    ghost fits: { end < 2 ^ 32 },
}

impl<'a> Part<'a> {
    ghost use Rattle.std.specs.Prelude.{false, MatchResult, drop};
    ghost use Rattle.rules.specs.Basics.{part};
    ghost use Rattle.rules.specs.Reading.{whole, field as field_of};
    ghost use Rattle.records.specs.Checking.{fault_at, outcome, no_steps};
    ghost use Rattle.records.specs.Checking.{from, Opens, Unopened};

    // What is left after what was read.
    pub fn after(self, read: Checked) -> Part<'a>
        requires { (self.at ≤ read.end) × (read.end ≤ self.at + length self.bytes.now) }
        ensures start { result.start ≡ self.entry.start }
        ensures at { result.at ≡ read.end }
        ensures bytes { result.bytes.now ≡ from (read.end - self.entry.at) self.entry.bytes.now }
        ensures goes { self.entry.at ≤ result.at }
        ensures ends { result.at + length result.bytes.now ≡ self.entry.at + length self.entry.bytes.now }
    {
        Part {
            start: self.start,
            at: read.end,
            bytes: &self.bytes[read.end - self.at..],
        }
    }

    // The body of the record of n bytes that comes.
    pub fn body(self, n: usize) -> Part<'a>
        requires { (4 ≤ n) × (n ≤ length self.bytes.now) }
        ensures start { result.start ≡ self.entry.at }
        ensures at { result.at ≡ self.entry.at + 4 }
        ensures bytes { result.bytes.now ≡ part 4 n self.entry.bytes.now }
        ensures ends { result.at + length result.bytes.now ≡ self.entry.at + n }
    {
        Part {
            start: self.at,
            at: self.at + 4,
            bytes: &self.bytes[4..n],
        }
    }

    // A field of n bytes that stands i bytes on: refused where it should begin if it is not whole.
    #[inline(always)]
    pub fn field(self, i: usize, n: usize) -> Result<Checked, Fault>
        requires { (0 < n) × (i + n < 2 ^ 32) }
        ensures { result ≡ outcome no_steps (field_of n self.entry.start (self.entry.at + i) (drop i self.entry.bytes.now)) }
    {
        if self.bytes.len() < i + n {
            return Err(refused(2, self.at + i));
        }
        Ok(Checked::at(self.at + i + n))
    }

    // The record that comes: refused where its length is under 4 or runs past the part.
    pub fn record(self) -> Result<Record<'a>, Fault>
        ensures { MatchResult result (Opens self.entry) (λ e. (whole self.entry.bytes.now ≡ false) × (e ≡ fault_at 2 self.entry.at)) }
    {
        let Some(n) = record_len(self.bytes) else {
            return Err(refused(2, self.at));
        };
        Ok(Record {
            kind: u16_at(self.bytes, 2),
            body: self.body(n),
            end: self.at + n,
        })
    }

    // The same, and it is refused too where no level is left for it.
    #[inline(always)]
    pub fn opened(self, levels: usize) -> Result<Record<'a>, Fault>
        ensures { MatchResult result (λ r. Opens self.entry r × (levels ≡ 0 → ⊥)) (Unopened self.entry levels) }
    {
        let record = self.record()?;
        if levels == 0 {
            return Err(refused(5, self.at));
        }
        Ok(record)
    }
}
