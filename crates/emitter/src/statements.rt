// The steps of a statement record s at the offset `at`, and where expanding goes on after it.
// For our own crates only: a caller has to see that the record is accepted and that the words have room. That is a clause and no
// type: it is of a record, of the next node and of the words at once, and each call has others. So is a form's kind: a type for
// each would be made and taken apart once. A record and its offset stay two for the like: a struct would be made anew at each part.
// What expands a kind's parts is inlined, so that a level of nesting is one frame.
ghost use Rattle.std.specs.Prelude.{◌≡◌, ◌+◌, ◌^◌, ◌<◌, ◌≤◌, length};
ghost use Rattle.rules.specs.Expanding.{joints};
ghost use Rattle.rules.specs.Reading.{kind_of};
ghost use Rattle.records.specs.Acceptance.{GoodAll};
ghost use Rattle.emitter.specs.Writing.{Expandable, Expands, BlockExpandable, BlockExpands, GoesBack};

use crate::steps::StepKind;
use crate::writing::{write_condition, write_one};
use crate::{Ends, Next};
use records::bytes::u16_at;
use records::kind::Kind;

#[cycle(expand)]
#[tactic(auto, using(crate::proofs::Bounds::statement_bounds))]
pub fn expand_statement(s: &[u8], at: usize, ends: Ends, words: &mut [u32], next: Next) -> Next
    requires { Expandable at next s.now words.old }
    ensures { Expands at ends next s.now words.old words.new result }
{
    let n = u16_at(s, 0);
    let Ok(kind) = Kind::try_from(u16_at(s, 2)) else {
        return next;
    };
    match kind {
        Kind::Set => write_one(words, next, ends.o, ends.d, StepKind::Set, at),
        Kind::Transfer => write_one(words, next, ends.o, ends.d, StepKind::Transfer, at),
        Kind::Require => write_one(words, next, ends.o, ends.d, StepKind::Require, at),
        Kind::Return => write_one(words, next, ends.o, ends.r, StepKind::Return, at),
        Kind::Block => expand_block(&s[4..n], at + 4, ends, words, next),
        Kind::If => expand_part(s, at, ends, ends.d, words, next),
        Kind::IfElse => expand_else(s, at, ends, words, next),
        Kind::While => expand_part(s, at, ends, ends.o, words, next),
        Kind::For => expand_for(s, at, ends, words, next),
        // No record of another kind is a statement.
        _ => next,
    }
}

// An if or a while: the part that it carries out goes on to `back`.
#[inline(always)]
#[cycle(expand)]
fn expand_part(s: &[u8], at: usize, ends: Ends, back: u32, words: &mut [u32], next: Next) -> Next
    requires { GoesBack back ends s.now × Expandable at next s.now words.old }
    ensures { Expands at ends next s.now words.old words.new result }
{
    let n = u16_at(s, 0);
    let b = 4 + u16_at(s, 4);
    let node = next.node;
    let first = write_condition(words, next.after(1, 0), ends.o, node, ends.d, at + 4);
    expand_statement(&s[b..n], at + b, ends.between(node, back), words, first)
}

// An if-else: both its parts go on to its end.
#[inline(always)]
#[cycle(expand)]
#[tactic(auto, using(crate::proofs::Bounds::else_bounds))]
fn expand_else(s: &[u8], at: usize, ends: Ends, words: &mut [u32], next: Next) -> Next
    requires { (kind_of s.now ≡ 34) × Expandable at next s.now words.old }
    ensures { Expands at ends next s.now words.old words.new result }
{
    let n = u16_at(s, 0);
    let b = 4 + u16_at(s, 4);
    let c = b + u16_at(s, b);
    let yes = ends.between(next.node, ends.d);
    let no = ends.between(next.node + 1, ends.d);
    let first = write_condition(words, next.after(2, 0), ends.o, yes.o, no.o, at + 4);
    let second = expand_statement(&s[b..n], at + b, yes, words, first);
    expand_statement(&s[c..n], at + c, no, words, second)
}

// A for: the new nodes stand before its condition, its body and its closing set.
#[inline(always)]
#[cycle(expand)]
#[tactic(auto, using(crate::proofs::Bounds::for_bounds))]
fn expand_for(s: &[u8], at: usize, ends: Ends, words: &mut [u32], next: Next) -> Next
    requires { (kind_of s.now ≡ 36) × Expandable at next s.now words.old }
    ensures { Expands at ends next s.now words.old words.new result }
{
    let n = u16_at(s, 0);
    let b = 4 + u16_at(s, 4);
    let c = b + u16_at(s, b);
    let d = c + u16_at(s, c);
    let node = next.node;
    let body = ends.between(node + 1, node + 2);
    let first = write_one(words, next.after(3, 0), ends.o, node, StepKind::Set, at + 4);
    let second = write_condition(words, first, node, body.o, ends.d, at + b);
    let third = expand_statement(&s[d..n], at + d, body, words, second);
    write_one(words, third, body.d, node, StepKind::Set, at + c)
}

// A block's statements, which are all of s.
#[inline(always)]
#[cycle(expand)]
#[tactic(auto, using(crate::proofs::Blocks::made_block))]
fn expand_block(s: &[u8], at: usize, ends: Ends, words: &mut [u32], next: Next) -> Next
    requires { BlockExpandable at next s.now words.old }
    ensures { BlockExpands at ends next s.now words.old words.new result }
{
    let first = next.node;
    let count = count_joints(s);
    let mut next = next.after(count, 0);
    // The nodes that what is left is expanded between, and where that begins: no index of a range, as it is read from the statement before.
    let mut left = ends;
    let mut k = 0;
    for j in first..first + count {
        let part = &s[k..];
        next = expand_statement(part, at + k, left.between(left.o, j), words, next);
        left.o = j;
        k += u16_at(part, 0);
    }
    expand_statement(&s[k..], at + k, left, words, next)
}

// The number of nodes between the statements of a block.
fn count_joints(s: &[u8]) -> u32
    requires { GoodAll s.now × (length s.now < 2 ^ 32) }
    ensures { (a : GoodAll s.now) → result ≡ joints a.tree }
{
    // No `for`: how many statements there are is what it finds.
    let mut count = 0;
    let mut k = u16_at(s, 0);
    while k < s.len() {
        k += u16_at(&s[k..], 0);
        count += 1;
    }
    count
}
