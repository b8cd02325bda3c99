// A step of the table and its kind. For our own crates only: a caller has to see that offsets fit 32 bits.
ghost use Rattle.std.specs.Prelude.{◌≡◌, ◌^◌, ◌<◌};
ghost use Rattle.rules.specs.Expanding.{step, words_of};
ghost use Rattle.emitter.specs.Steps.{number_of, Numbers, as_step};

// A step's kind, by its number in the table.
#[derive(Clone, Copy, PartialEq, Eq)]
pub enum StepKind {
    Guard = 1,
    True = 2,
    False = 3,
    Set = 4,
    Transfer = 5,
    Require = 6,
    Return = 7,
}

// A number that no kind has.
#[derive(Clone, Copy, PartialEq, Eq)]
pub struct UnknownStepKind;

impl TryFrom<u32> for StepKind {
    type Error = UnknownStepKind;

    ghost try_from_gives = { Numbers };

    fn try_from(number: u32) -> Result<Self, UnknownStepKind> {
        match number {
            1 => Ok(StepKind::Guard),
            2 => Ok(StepKind::True),
            3 => Ok(StepKind::False),
            4 => Ok(StepKind::Set),
            5 => Ok(StepKind::Transfer),
            6 => Ok(StepKind::Require),
            7 => Ok(StepKind::Return),
            _ => Err(UnknownStepKind),
        }
    }
}

// The kind is its number, as in the table.
#[derive(Clone, Copy)]
pub struct Step {
    pub origin: u32,
    pub target: u32,
    pub kind: u32,
    pub name: u32,
    pub at: u32,
}

impl Step {
    // A step that bears no name, as all but a guard's.
    pub fn unnamed(origin: u32, target: u32, kind: StepKind, at: usize) -> Step
        requires { at < 2 ^ 32 }
        ensures { as_step result ≡ step origin target (number_of kind) 0 at }
    {
        Step {
            origin,
            target,
            kind: kind as u32,
            name: 0,
            at: at as u32,
        }
    }
}

impl From<Step> for [u32; 5] {
    ghost from_gives = { λ s words. words ≡ words_of (as_step s) };

    #[tactic(auto, unfolding(rules::specs::Expanding::words_of))]
    fn from(s: Step) -> [u32; 5] {
        [s.origin, s.target, s.kind, s.name, s.at]
    }
}
