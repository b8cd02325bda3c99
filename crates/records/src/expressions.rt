// The check of an expression record. `check_ranged` serves our own crates only: a caller has to see that its test may be called.
ghost use Rattle.std.specs.Prelude.{◌≡◌, ℕ, Bool, false, ◌&&◌, ltb, leb};
ghost use Rattle.rules.specs.Reading.{expression_body, expression};
ghost use Rattle.records.specs.Checking.{outcome, of_part, no_steps, ranged};

use crate::answers::Checked;
use crate::bytes::u16_at;
use crate::fault::{Fault, refused};
use crate::kind::Kind;
use crate::part::Part;
use std::ops::Range;

// What an expression is checked for: the agreement's number of variables, and whether it is a rule's, which may hold less. No enum of
// the two: both would hold the number of variables.
#[derive(Clone, Copy)]
pub struct Scope {
    pub variables: usize,
    pub in_rule: bool,
}

#[cycle(expression)]
pub fn check_expression(p: Part, levels: usize, scope: Scope) -> Result<Checked, Fault>
    ensures { result ≡ outcome no_steps (of_part (expression scope.variables scope.in_rule levels) p.entry) }
{
    let record = p.opened(levels)?;
    check_body(record.body, record.kind, levels - 1, scope)?.closed(record.end)
}

// An expression of an action.
pub fn check_value(p: Part, levels: usize, variables: usize) -> Result<Checked, Fault>
    ensures { result ≡ outcome no_steps (of_part (expression variables false levels) p.entry) }
{
    let scope = Scope {
        variables,
        in_rule: false,
    };
    check_expression(p, levels, scope)
}

#[cycle(expression)]
fn check_body(b: Part, kind: usize, levels: usize, scope: Scope) -> Result<Checked, Fault>
    ensures { result ≡ outcome no_steps (of_part (expression_body scope.variables scope.in_rule (expression scope.variables scope.in_rule levels) kind) b.entry) }
{
    let Ok(kind) = Kind::try_from(kind) else {
        return Err(refused(3, b.start));
    };
    match kind {
        Kind::Constant => b.field(0, 4),
        Kind::Variable => check_index(b, 0..scope.variables),
        Kind::Local if !scope.in_rule => check_index(b, 0..8),
        Kind::Argument if !scope.in_rule => check_index(b, 0..4),
        Kind::Context if scope.in_rule => check_index(b, 2..4),
        Kind::Context => check_index(b, 0..4),
        Kind::Binary => {
            let operator = check_index(b, 0..11)?;
            let left = check_expression(b.after(operator), levels, scope)?;
            check_expression(b.after(left), levels, scope)
        }
        Kind::Not => check_expression(b, levels, scope),
        _ => Err(refused(3, b.start)),
    }
}

// A 16-bit field in this range.
#[inline(always)]
fn check_index(b: Part, range: Range<usize>) -> Result<Checked, Fault>
    ensures { result ≡ outcome no_steps (of_part (ranged (λ i. leb range.start i && ltb i range.end)) b.entry) }
{
    check_ranged(b, |i| range.contains(&i))
}

// A 16-bit field that passes a test.
#[inline(always)]
pub fn check_ranged<F: Fn(usize) -> bool>(b: Part, test: F) -> Result<Checked, Fault>
    requires { F.IsAlwaysCallable test }
    ensures { (t : ℕ → Bool) → ((i : ℕ) (good : Bool) → F.post test i good → good ≡ t i) → result ≡ outcome no_steps (of_part (ranged t) b.entry) }
{
    let read = b.field(0, 2)?;
    if test(u16_at(b.bytes, 0)) {
        Ok(read)
    } else {
        Err(refused(4, b.start))
    }
}
