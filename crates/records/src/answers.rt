// What checking finds. This serves our own crates only: a caller has to see that numbers fit.
ghost use Rattle.std.specs.Prelude.{◌≡◌, ◌+◌, ◌^◌, ◌<◌, Ok};
ghost use Rattle.records.specs.Checking.{ended};

use crate::fault::{Fault, refused};

// The offset after what was read, and its number of steps.
#[derive(Clone, Copy, PartialEq, Eq)]
pub struct Checked {
    pub end: usize,
    pub steps: usize,
}

impl Checked {
    // Read up to here, and no steps.
    pub fn at(end: usize) -> Checked
        ensures { (result.end ≡ end) × (result.steps ≡ 0) }
    {
        Checked { end, steps: 0 }
    }

    // So many steps more.
    pub fn more(self, steps: usize) -> Checked
        requires { steps + self.steps < 2 ^ 64 }
        ensures { (result.end ≡ self.end) × (result.steps ≡ steps + self.steps) }
    {
        Checked {
            end: self.end,
            steps: steps + self.steps,
        }
    }

    // A record ends at `end`, and this is what is in it: bytes left over are refused.
    pub fn closed(self, end: usize) -> Result<Checked, Fault>
        ensures { result ≡ ended end (Ok self) }
    {
        if self.end < end {
            Err(refused(2, self.end))
        } else {
            Ok(Checked {
                end,
                steps: self.steps,
            })
        }
    }
}
