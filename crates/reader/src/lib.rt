// Reading a file: its refusal, or the file with its step count.
#![tactic(auto)]

pub mod accepted;

ghost use Rattle.std.specs.Prelude.{◌≡◌, ◌^◌, ◌<◌};
ghost use Rattle.rules.specs.Accepting.{refusal_at, read_file};
ghost use Rattle.reader.specs.ReadAnswers.{Accepts};

use crate::accepted::Accepted;
use access::parsed::Parsed;
use files::check_file;
use rules::{Counted, Refusal, sum};

// Any bytes: the refusal with its number and place, or the accepted file.
pub fn accept(file: &[u8]) -> Result<Accepted<'_>, Refusal>
    ensures { Accepts file.now result }
{
    let steps = check_file(file)
        .map_err(|fault| refused(fault.number, fault.place))?
        .steps;
    let parsed = Parsed::new(file);
    if let Some(place) = parsed.first_repeat() {
        return Err(refused(6, place));
    }
    if u64::from(u32::MAX) < sum(&parsed.fields().opening) {
        return Err(Refusal::placeless(7));
    }
    if 1024 < steps {
        return Err(Refusal::placeless(8));
    }
    Ok(Accepted { parsed, steps })
}

// The same, where only the step count is wanted.
pub fn read(file: &[u8]) -> Counted
    ensures { result ≡ read_file file.now }
{
    Ok(accept(file)?.steps as u32)
}

// No `From<Fault>`: a conversion can have no `requires`, and that a place fits 32 bits is known of what `check_file` answers only.
fn refused(number: usize, place: usize) -> Refusal
    requires { (number < 256) × (place < 2 ^ 32) }
    ensures { result ≡ refusal_at number place }
{
    Refusal {
        number: number as u8,
        place: place as u32,
    }
}
