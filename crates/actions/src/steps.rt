// Statements of one step, conditions and guards: a unit is charged, then their expressions are evaluated.
// This serves our own crates only: a caller has to see that the bytes were accepted, and that the total fits 32 bits.
ghost use Rattle.std.specs.Prelude.{◌≡◌};
ghost use Rattle.rules.specs.Values.{evaluate as value_in};
ghost use Rattle.rules.specs.Running.{view, perform as performed, condition, guarded};
ghost use Rattle.records.specs.Acceptance.{Accepted, GoodSimple};
ghost use Rattle.machine.specs.Runs.{ran, Funded};

use crate::View;
use crate::expressions::evaluate;
use machine::run::{answer_value, assign_value, charge, pay_values, require};
use machine::{Stop, run};
use records::bytes::u16_at;
use records::kind::Kind;
use rules::{Machine, Setting, Value};

// The value of an expression on a machine.
#[tactic(auto, unfolding(rules::specs::Running::view))]
#[inline(always)]
fn value(s: &[u8], m: &Machine, setting: &Setting) -> Value
    requires { Accepted s.now }
    ensures { (a : Accepted s.now) → result ≡ value_in (view setting.now m.now) a.tree }
{
    let call = &setting.call;
    let context = [u32::from(call.sender), call.coins, m.own, setting.before];
    let view = View {
        variables: &m.variables,
        locals: &m.locals,
        arguments: &call.arguments,
        context,
    };
    evaluate(s, &view)
}

// The condition of an if, a while or a for.
pub fn test(s: &[u8], m: &mut Machine, setting: &Setting) -> Result<bool, Stop>
    requires { Accepted s.now }
    ensures { (a : Accepted s.now) → ran result m.new ≡ condition setting.now a.tree m.old }
{
    charge(m, setting.limit)?;
    run::test(value(s, m, setting))
}

// A transition's guard. Not one function with `test`: what is made of the value is all that either says.
pub fn guard(s: &[u8], m: &mut Machine, setting: &Setting) -> Result<(), Stop>
    requires { Accepted s.now }
    ensures { (a : Accepted s.now) → ran result m.new ≡ guarded setting.now a.tree m.old }
{
    charge(m, setting.limit)?;
    run::guard(value(s, m, setting))
}

// A set, transfer, require or return, whose record is s.
#[tactic(auto, using(crate::proofs::Simples::simples))]
pub fn perform(s: &[u8], m: &mut Machine, setting: &Setting) -> Result<(), Stop>
    requires { GoodSimple s.now × Funded setting.now.accounts m.old }
    ensures { (a : GoodSimple s.now) → ran result m.new ≡ performed setting.now a.tree m.old }
{
    charge(m, setting.limit)?;
    let end = u16_at(s, 0);
    match Kind::try_from(u16_at(s, 2)) {
        Ok(Kind::Set) => {
            let v = value(&s[6..end], m, setting);
            assign_value(m, u16_at(s, 4), v)
        }
        Ok(Kind::Transfer) => {
            let k = 4 + u16_at(s, 4);
            let account = value(&s[4..end], m, setting);
            let amount = value(&s[k..end], m, setting);
            pay_values(m, setting.accounts, account, amount)
        }
        Ok(Kind::Require) => require(value(&s[4..end], m, setting)),
        Ok(Kind::Return) => {
            let v = value(&s[4..end], m, setting);
            answer_value(m, v)
        }
        // No other kind is accepted.
        _ => Ok(()),
    }
}
