// What operators make of values.
ghost use Rattle.std.specs.Prelude.{◌≡◌};
ghost use Rattle.rules.specs.Values.{truth as truth_of, is_true, apply as applied, negated, on_value};
ghost use Rattle.machine.specs.Operators.{number_of, Decodes};

use rules::Value;

// The operators, each with the number that a file has for it.
#[derive(Clone, Copy, PartialEq, Eq)]
pub enum Operator {
    Add = 0,
    Subtract = 1,
    Multiply = 2,
    Divide = 3,
    Remainder = 4,
    Equal = 5,
    NotEqual = 6,
    Less = 7,
    AtMost = 8,
    And = 9,
    Or = 10,
}

// A number that no operator has.
#[derive(Clone, Copy, PartialEq, Eq)]
pub struct UnknownOperator(pub usize);

impl TryFrom<usize> for Operator {
    type Error = UnknownOperator;

    ghost try_from_gives = { Decodes };

    #[inline(always)]
    fn try_from(number: usize) -> Result<Self, UnknownOperator> {
        match number {
            0 => Ok(Operator::Add),
            1 => Ok(Operator::Subtract),
            2 => Ok(Operator::Multiply),
            3 => Ok(Operator::Divide),
            4 => Ok(Operator::Remainder),
            5 => Ok(Operator::Equal),
            6 => Ok(Operator::NotEqual),
            7 => Ok(Operator::Less),
            8 => Ok(Operator::AtMost),
            9 => Ok(Operator::And),
            10 => Ok(Operator::Or),
            _ => Err(UnknownOperator(number)),
        }
    }
}

#[tactic(auto, unfolding(rules::specs::Values::is_true))]
pub fn is_true(x: u32) -> bool
    ensures { result ≡ is_true x }
{
    x != 0
}

#[tactic(auto, unfolding(rules::specs::Values::truth))]
fn truth(b: bool) -> u32
    ensures { result ≡ truth_of b }
{
    u32::from(b)
}

#[tactic(auto, unfolding(rules::specs::Values::apply, rules::specs::Values::checked, rules::specs::Values::is_true, rules::specs::Basics::choose, rules::specs::Basics::most32))]
#[inline(always)]
fn operation(operator: Operator, x: u32, y: u32) -> Value
    ensures { result ≡ applied (number_of operator) x y }
{
    match operator {
        Operator::Add => x.checked_add(y),
        Operator::Subtract => x.checked_sub(y),
        Operator::Multiply => x.checked_mul(y),
        Operator::Divide => x.checked_div(y),
        Operator::Remainder => x.checked_rem(y),
        Operator::Equal => Some(truth(x == y)),
        Operator::NotEqual => Some(truth(x != y)),
        Operator::Less => Some(truth(x < y)),
        Operator::AtMost => Some(truth(x <= y)),
        Operator::And => Some(truth(is_true(x) && is_true(y))),
        Operator::Or => Some(truth(is_true(x) || is_true(y))),
    }
}

// What the operator with this number makes of two values: none where no operator has it.
#[tactic(auto, using(crate::proofs::Operators::unknown_fails))]
#[inline(always)]
pub fn apply(operator: usize, x: u32, y: u32) -> Value
    ensures { result ≡ applied operator x y }
{
    operation(Operator::try_from(operator).ok()?, x, y)
}

// None is handed on as none.
#[tactic(auto, unfolding(rules::specs::Values::negated, rules::specs::Values::on_value))]
#[inline(always)]
pub fn negation(v: Value) -> Value
    ensures { result ≡ on_value negated v }
{
    Some(truth(v? == 0))
}
