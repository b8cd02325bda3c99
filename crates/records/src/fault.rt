// Why reading refuses.
ghost use Rattle.std.specs.Prelude.{◌≡◌};

// A refusal's number and place; both are as wide as the numbers of `Checked`: a result whose halves lie alike is handed back without being
// taken apart and put together again. The number stays a number: the documents, the C interface and every text call a refusal by it.
#[derive(Clone, Copy, PartialEq, Eq)]
pub struct Fault {
    pub place: usize,
    pub number: usize,
}

pub fn refused(number: u8, place: usize) -> Fault
    ensures { result ≡ record { number = number; place = place } }
{
    Fault {
        number: usize::from(number),
        place,
    }
}
