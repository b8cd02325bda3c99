// What statements do to a machine. For our own crates only: their callers meet what is required here by what reading has accepted.
ghost use Rattle.std.specs.Prelude.{◌≡◌, ◌≤◌};
ghost use Rattle.rules.specs.declared.Machine.{Machine};
ghost use Rattle.rules.specs.Running.{going, charge as charged, assign as assigned, pay as paid};
ghost use Rattle.machine.specs.Runs.{ran, Target, Solvent, assign_value, pay_values, answer_value, demand_value, test_value};

use crate::Stop;
use crate::values::is_true;
use rules::{Machine, Value};

#[tactic(auto, unfolding(rules::specs::Running::charge))]
pub fn charge(m: &mut Machine, limit: u32) -> Result<(), Stop>
    ensures { ran result m.new ≡ charged limit m.old }
{
    if limit <= m.units {
        return Err(Stop::UnitsUsedUp);
    }
    m.units += 1;
    Ok(())
}

// A target is the file's number, a local's from 256 on: an enum of the two would be made and taken apart in this one function.
#[tactic(auto, unfolding(rules::specs::Running::assign))]
fn assign(m: &mut Machine, target: usize, x: u32)
    requires { Target target }
    ensures { going tt m.new ≡ assigned target x m.old }
{
    if target < 256 {
        m.variables[target] = x;
    } else {
        m.locals[target - 256] = x;
    }
}

// What it asks stays two clauses: they are of a machine and of fields, the rules' records, which definitions make freely.
#[tactic(auto, using(crate::proofs::Sums::entry_most), unfolding(rules::specs::Running::pay, crate::specs::Runs::funds, rules::specs::Basics::most32))]
fn pay(m: &mut Machine, accounts: usize, account: u32, amount: u32) -> Result<(), Stop>
    requires { (accounts ≤ 8) × Solvent m.old }
    ensures { ran result m.new ≡ paid accounts account amount m.old }
{
    // `as`: there is no `From` of a u32 for a usize.
    let k = account as usize;
    if accounts <= k || m.own < amount {
        return Err(Stop::ActionFailed);
    }
    m.balances[k] += amount;
    m.own -= amount;
    Ok(())
}

// What a set, a transfer and a return do with the values of their expressions; one that failed is refused.
#[tactic(auto, unfolding(crate::specs::Runs::assign_value, rules::specs::Running::or_stop))]
pub fn assign_value(m: &mut Machine, target: usize, v: Value) -> Result<(), Stop>
    requires { Target target }
    ensures { ran result m.new ≡ assign_value target v m.old }
{
    assign(m, target, v.ok_or(Stop::ActionFailed)?);
    Ok(())
}

#[tactic(auto, unfolding(crate::specs::Runs::pay_values, rules::specs::Running::or_stop))]
pub fn pay_values(
    m: &mut Machine,
    accounts: usize,
    account: Value,
    amount: Value,
) -> Result<(), Stop>
    requires { (accounts ≤ 8) × Solvent m.old }
    ensures { ran result m.new ≡ pay_values accounts account amount m.old }
{
    let k = account.ok_or(Stop::ActionFailed)?;
    let x = amount.ok_or(Stop::ActionFailed)?;
    pay(m, accounts, k, x)
}

#[tactic(auto, unfolding(crate::specs::Runs::answer_value, rules::specs::Running::or_stop, rules::specs::Running::return_with))]
pub fn answer_value(m: &mut Machine, v: Value) -> Result<(), Stop>
    ensures { ran result m.new ≡ answer_value v m.old }
{
    let x = v.ok_or(Stop::ActionFailed)?;
    m.returned = Some(x);
    Err(Stop::Returned)
}

// A value that has to be true, of a require and of a guard. Two functions and not one with two stops: the stops are all that either
// says.
#[tactic(auto, unfolding(crate::specs::Runs::demand_value, rules::specs::Running::or_stop))]
pub fn require(v: Value) -> Result<(), Stop>
    ensures { (m : Machine) → ran result m ≡ demand_value 25 25 v m }
{
    if is_true(v.ok_or(Stop::ActionFailed)?) {
        Ok(())
    } else {
        Err(Stop::ActionFailed)
    }
}

#[tactic(auto, unfolding(crate::specs::Runs::demand_value, rules::specs::Running::or_stop))]
pub fn guard(v: Value) -> Result<(), Stop>
    ensures { (m : Machine) → ran result m ≡ demand_value 24 23 v m }
{
    if is_true(v.ok_or(Stop::GuardFailed)?) {
        Ok(())
    } else {
        Err(Stop::GuardFalse)
    }
}

// What an if, a while and a for make of the value of their condition.
#[tactic(auto, unfolding(crate::specs::Runs::test_value, rules::specs::Running::or_stop))]
pub fn test(v: Value) -> Result<bool, Stop>
    ensures { (m : Machine) → ran result m ≡ test_value v m }
{
    Ok(is_true(v.ok_or(Stop::ActionFailed)?))
}
