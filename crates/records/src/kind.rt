// The kinds of records.
ghost use Rattle.records.specs.Kinds.{Decodes};

use crate::bytes::u16_at;

// A record's kind, by its number in a file.
#[derive(Clone, Copy, PartialEq, Eq)]
pub enum Kind {
    Agreement = 1,
    Transition = 2,
    Row = 3,
    Rule = 4,
    Set = 16,
    Transfer = 17,
    Require = 18,
    Return = 19,
    Block = 32,
    If = 33,
    IfElse = 34,
    While = 35,
    For = 36,
    Constant = 64,
    Variable = 65,
    Local = 66,
    Argument = 67,
    Context = 68,
    Binary = 80,
    Not = 81,
}

impl Kind {
    ghost use Rattle.std.specs.Prelude.{◌≡◌, ◌&&◌, eqb};
    ghost use Rattle.rules.specs.Basics.{has};
    ghost use Rattle.rules.specs.Reading.{kind_of};
    ghost use Rattle.records.specs.Kinds.{number_of};

    // Its number in a file.
    pub fn number(self) -> usize
        ensures { result ≡ number_of self }
    {
        self as usize
    }

    // Whether a record of this kind comes.
    pub fn comes(self, s: &[u8]) -> bool
        ensures { result ≡ (has 4 s.now && eqb (kind_of s.now) (number_of self)) }
    {
        4 <= s.len() && u16_at(s, 2) == self.number()
    }
}

// A number that is no kind's.
#[derive(Clone, Copy, PartialEq, Eq)]
pub struct UnknownKind;

impl TryFrom<usize> for Kind {
    type Error = UnknownKind;

    ghost try_from_gives = { Decodes };

    #[inline(always)]
    fn try_from(number: usize) -> Result<Self, UnknownKind> {
        match number {
            1 => Ok(Kind::Agreement),
            2 => Ok(Kind::Transition),
            3 => Ok(Kind::Row),
            4 => Ok(Kind::Rule),
            16 => Ok(Kind::Set),
            17 => Ok(Kind::Transfer),
            18 => Ok(Kind::Require),
            19 => Ok(Kind::Return),
            32 => Ok(Kind::Block),
            33 => Ok(Kind::If),
            34 => Ok(Kind::IfElse),
            35 => Ok(Kind::While),
            36 => Ok(Kind::For),
            64 => Ok(Kind::Constant),
            65 => Ok(Kind::Variable),
            66 => Ok(Kind::Local),
            67 => Ok(Kind::Argument),
            68 => Ok(Kind::Context),
            80 => Ok(Kind::Binary),
            81 => Ok(Kind::Not),
            _ => Err(UnknownKind),
        }
    }
}
