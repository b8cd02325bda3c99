// The value of an expression record. This serves our own crates only: a caller has to see that the bytes were accepted. That stays a
// clause, as in `statements`.
ghost use Rattle.std.specs.Prelude.{◌≡◌};
ghost use Rattle.rules.specs.Reading.{kind_of};
ghost use Rattle.rules.specs.Values.{evaluate as value_in};
ghost use Rattle.records.specs.Acceptance.{Accepted};
ghost use Rattle.actions.specs.Views.{seen};

use crate::View;
use machine::values::{apply, negation};
use records::bytes::{u16_at, u32_at};
use records::kind::Kind;
use rules::Value;

// The numbers of the kinds, which are not decoded to a `Kind` here: that was tried, and long expressions took a fifth longer.
const CONSTANT: usize = Kind::Constant as usize;

const VARIABLE: usize = Kind::Variable as usize;

const LOCAL: usize = Kind::Local as usize;

const ARGUMENT: usize = Kind::Argument as usize;

const CONTEXT: usize = Kind::Context as usize;

const BINARY: usize = Kind::Binary as usize;

const NOT: usize = Kind::Not as usize;

#[tactic(auto, using(crate::proofs::Operations::operations))]
#[cycle(operand)]
pub fn evaluate(s: &[u8], view: &View) -> Value
    requires { Accepted s.now }
    ensures { (a : Accepted s.now) → result ≡ value_in (seen view.now) a.tree }
{
    let n = u16_at(s, 0);
    match u16_at(s, 2) {
        BINARY => {
            let k = 6 + u16_at(s, 6);
            let x = operand(&s[6..n], view)?;
            let y = operand(&s[k..n], view)?;
            apply(u16_at(s, 4), x, y)
        }
        NOT => negation(operand(&s[4..n], view)),
        _ => leaf(s, view),
    }
}

// The operand of an operation. What needs no evaluation of parts is done here without a call of `evaluate`.
#[tactic(auto, using(crate::proofs::Operations::operations))]
#[cycle(operand)]
fn operand(s: &[u8], view: &View) -> Value
    requires { Accepted s.now }
    ensures { (a : Accepted s.now) → result ≡ value_in (seen view.now) a.tree }
{
    if u16_at(s, 2) < BINARY {
        leaf(s, view)
    } else {
        evaluate(s, view)
    }
}

// A constant, a variable, a local, an argument or a context value.
#[tactic(auto, using(crate::proofs::Leaves::leaves))]
fn leaf(s: &[u8], view: &View) -> Value
    requires { Accepted s.now × (kind_of s.now ≡ 80 → ⊥) × (kind_of s.now ≡ 81 → ⊥) }
    ensures { (a : Accepted s.now) → result ≡ value_in (seen view.now) a.tree }
{
    match u16_at(s, 2) {
        CONSTANT => Some(u32_at(s, 4)),
        VARIABLE => Some(view.variables[u16_at(s, 4)]),
        LOCAL => Some(view.locals[u16_at(s, 4)]),
        ARGUMENT => Some(view.arguments[u16_at(s, 4)]),
        CONTEXT => Some(view.context[u16_at(s, 4)]),
        // No other kind is accepted.
        _ => None,
    }
}
