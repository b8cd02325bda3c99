// The check of fields. For this crate only: a caller of `field` or `words` has to see that the field is small or begins in the body.
ghost use Rattle.std.specs.Prelude.{◌≡◌, ◌+◌, ◌^◌, ◌<◌, ◌≤◌, length, drop};
ghost use Rattle.rules.specs.Reading.{fields as fields_of, fields_body};
ghost use Rattle.records.specs.Checking.{outcome, of_part, no_steps};
ghost use Rattle.files.specs.FieldAnswers.{field_answer};

use crate::values::{byte, half, word};
use records::answers::Checked;
use records::fault::{Fault, refused};
use records::part::Part;

// A field of n bytes that stands i bytes into b; `good` says whether its value is in its range.
pub fn field(b: Part, i: usize, n: usize, good: bool) -> Result<(), Fault>
    requires { (0 < n) × (i + n < 2 ^ 32) }
    ensures { result ≡ field_answer n i b.entry.start b.entry.at b.entry.bytes.now good }
{
    b.field(i, n)?;
    if good {
        Ok(())
    } else {
        Err(refused(4, b.start))
    }
}

// k fields of 4 bytes, of any value, the first of them i bytes into b.
pub fn words(b: Part, i: usize, k: usize) -> Result<Checked, Fault>
    requires { (i ≤ length b.bytes.now) × (k < 2 ^ 32) }
    ensures { result ≡ outcome no_steps (fields_of k 4 b.entry.start (b.entry.at + i) (drop i b.entry.bytes.now)) }
{
    let whole = (b.bytes.len() - i) / 4;
    if whole < k {
        return Err(refused(2, b.at + i + 4 * whole));
    }
    Ok(Checked::at(b.at + i + 4 * k))
}

// The agreement's own fields.
pub fn check_fields(b: Part) -> Result<Checked, Fault>
    ensures { result ≡ outcome no_steps (of_part fields_body b.entry) }
{
    let states = byte(b.bytes, 0);
    let accounts = byte(b.bytes, 2);
    field(b, 0, 1, (1..=64).contains(&states))
        .and(field(b, 1, 1, byte(b.bytes, 1) <= 16))
        .and(field(b, 2, 1, (1..=8).contains(&accounts)))
        .and(field(b, 3, 1, byte(b.bytes, 3) < states))
        .and(field(b, 4, 1, byte(b.bytes, 4) <= 8))
        .and(field(b, 5, 1, byte(b.bytes, 5) == 0))
        .and(field(b, 6, 2, (1..=4096).contains(&half(b.bytes, 6))))
        .and(field(b, 8, 4, (1..=1_000_000).contains(&word(b.bytes, 8))))?;
    words(b, 12, accounts)
}
