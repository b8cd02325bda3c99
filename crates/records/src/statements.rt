// The check of a statement record.
ghost use Rattle.std.specs.Prelude.{◌≡◌, false, length};
ghost use Rattle.rules.specs.Reading.{expression, loop_set, statements, statement_body, statement};
ghost use Rattle.records.specs.Checking.{outcome, of_part, no_steps, counted, checked_on, pair};
ghost use Rattle.records.specs.Counting.{step_count, block_count, for_head};

use crate::answers::Checked;
use crate::expressions::check_value;
use crate::fault::{Fault, refused};
use crate::kind::Kind;
use crate::part::Part;
use crate::sets::{check_loop_set, check_set};

// `levels` and `variables` stay apart: the levels are fewer at each record and the variables are not, so a struct of the two would be
// made anew at each. This function's two lines are `check_expression`'s too: one function for both would take the check of a body as a
// closure, and be in both cycles of calls. What checks a kind's parts is inlined: a level of nesting is then one
// frame, and reading many statements takes a tenth less time.
#[cycle(statement)]
pub fn check_statement(p: Part, levels: usize, variables: usize) -> Result<Checked, Fault>
    ensures { result ≡ outcome step_count (of_part (statement variables levels) p.entry) }
{
    let record = p.opened(levels)?;
    check_body(record.body, record.kind, levels - 1, variables)?.closed(record.end)
}

#[cycle(statement)]
fn check_body(b: Part, kind: usize, levels: usize, variables: usize) -> Result<Checked, Fault>
    ensures { result ≡ outcome step_count (of_part (statement_body variables (expression variables false levels) (loop_set variables levels) (statement variables levels) kind) b.entry) }
{
    let Ok(kind) = Kind::try_from(kind) else {
        return Err(refused(3, b.start));
    };
    match kind {
        Kind::Set => Ok(check_set(b, levels, variables)?.more(1)),
        Kind::Transfer => Ok(check_transfer(b, levels, variables)?.more(1)),
        Kind::Require | Kind::Return => Ok(check_value(b, levels, variables)?.more(1)),
        Kind::Block => check_block(b, levels, variables),
        Kind::If | Kind::While => check_if(b, levels, variables),
        Kind::IfElse => {
            let first = check_if(b, levels, variables)?;
            let second = check_statement(b.after(first), levels, variables)?;
            Ok(second.more(first.steps))
        }
        Kind::For => {
            let head = check_for_head(b, levels, variables)?;
            let body = check_statement(b.after(head), levels, variables)?;
            Ok(body.more(4))
        }
        _ => Err(refused(3, b.start)),
    }
}

// A condition, which is two steps, and a statement: an if, a while, and the first part of an if-else.
#[cycle(statement)]
fn check_if(b: Part, levels: usize, variables: usize) -> Result<Checked, Fault>
    ensures { result ≡ checked_on step_count (statement variables levels) b.entry.start b.entry.at b.entry.bytes.now (counted 2 (outcome no_steps (of_part (expression variables false levels) b.entry))) }
{
    let condition = check_value(b, levels, variables)?;
    let then = check_statement(b.after(condition), levels, variables)?;
    Ok(then.more(2))
}

// One or more statements up to the end of the record.
#[cycle(statement)]
#[inline(always)]
fn check_block(b: Part, levels: usize, variables: usize) -> Result<Checked, Fault>
    ensures { result ≡ outcome block_count (of_part (statements (length b.entry.bytes.now) (statement variables levels)) b.entry) }
{
    // No `for`: a statement says where the next begins, and the first is read even where the record is empty.
    let mut rest = b;
    let mut steps = 0;
    loop {
        let read = check_statement(rest, levels, variables)?.more(steps);
        rest = rest.after(read);
        if rest.bytes.is_empty() {
            return Ok(read);
        }
        steps = read.steps;
    }
}

// A transfer's account and amount.
#[inline(always)]
fn check_transfer(b: Part, levels: usize, variables: usize) -> Result<Checked, Fault>
    ensures { result ≡ outcome no_steps (of_part (pair (expression variables false levels) (expression variables false levels)) b.entry) }
{
    let account = check_value(b, levels, variables)?;
    check_value(b.after(account), levels, variables)
}

// What stands before a for's body, which adds four steps: its sets are a step each, and its condition, between them, is two.
#[inline(always)]
fn check_for_head(b: Part, levels: usize, variables: usize) -> Result<Checked, Fault>
    ensures { result ≡ outcome no_steps (of_part (for_head variables levels) b.entry) }
{
    let initial = check_loop_set(b, levels, variables)?;
    let condition = check_value(b.after(initial), levels, variables)?;
    check_loop_set(b.after(condition), levels, variables)
}
