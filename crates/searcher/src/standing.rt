// How a rule stands, call by call. For our own crates only: a caller has to see which rule is judged.
ghost use Rattle.std.specs.Prelude.{◌≡◌, ◌||◌, List, ◌∷◌, ℕ, eqb, true, false};
ghost use Rattle.rules.specs.declared.State.{State};
ghost use Rattle.rules.specs.Syntax.{Expr, Rule, always, not_after, only_after};
ghost use Rattle.rules.specs.Judging.{Event, violated, breaks_by};
ghost use Rattle.searcher.specs.Standing.{ExpressionAt, HeldAs, with_balances, breaks_after};

use crate::Status;
use access::RuleAt;
use actions::View;
use actions::expressions::evaluate;
use rules::State;

// Whether the expression at an offset is false or fails in a state, whatever its balances.
fn is_violated(file: &[u8], at: usize, state: &State) -> bool
    requires { (e : Expr) × ExpressionAt file.now at e }
    ensures { (e : Expr) → ExpressionAt file.now at e → (bs : List ℕ) → result ≡ violated e (with_balances state.now bs) }
{
    let view = View {
        variables: &state.variables,
        locals: &[0; 8],
        arguments: &[0; 4],
        context: [0, 0, state.own, state.state],
    };
    evaluate(&file[at..], &view).is_none_or(|x| x == 0)
}

// How the rule stands before any call.
pub fn at_first(file: &[u8], rule: RuleAt, state: &State) -> Status
    requires { (x : Rule) × HeldAs file.now x rule }
    ensures { (x : Rule) → HeldAs file.now x rule → (es : List Event) → breaks_after x result es ≡ breaks_by x state.now es }
{
    let broken = match rule {
        RuleAt::Always(at) => is_violated(file, at, state),
        _ => false,
    };
    Status {
        broken,
        seen: false,
    }
}

// How the rule stands after one completed call more, of this name, that led to this state, whatever its balances.
pub fn after(file: &[u8], rule: RuleAt, status: Status, name: u8, state: &State) -> Status
    requires { (x : Rule) × HeldAs file.now x rule }
    ensures { (x : Rule) → HeldAs file.now x rule → (bs : List ℕ) (es : List Event) →
        breaks_after x result es ≡ breaks_after x status (record { name = name; state = with_balances state.now bs } ∷ es) }
{
    match rule {
        RuleAt::Always(at) => after_always(file, at, status, state),
        RuleAt::NotAfter { p, q } => after_named(p, q, true, status, name),
        RuleAt::OnlyAfter { p, q } => after_named(p, q, false, status, name),
    }
}

fn after_always(file: &[u8], at: usize, status: Status, state: &State) -> Status
    requires { (e : Expr) × ExpressionAt file.now at e }
    ensures { (e : Expr) → ExpressionAt file.now at e → (n : ℕ) (bs : List ℕ) (es : List Event) →
        breaks_after (always e) result es ≡ breaks_after (always e) status (record { name = n; state = with_balances state.now bs } ∷ es) }
{
    if is_violated(file, at, state) {
        return Status {
            broken: true,
            ..status
        };
    }
    status
}

// A call named p breaks the rule where a completed q was seen before (`breaking`), or where none was (not `breaking`): the two rules
// differ in that alone. It is judged as p before it counts as q.
fn after_named(p: u8, q: u8, breaking: bool, status: Status, name: u8) -> Status
    ensures not_after { breaking ≡ true → (s : State) (es : List Event) →
        breaks_after (not_after p q) result es ≡ breaks_after (not_after p q) status (record { name = name; state = s } ∷ es) }
    ensures only_after { breaking ≡ false → (s : State) (es : List Event) →
        breaks_after (only_after p q) result es ≡ breaks_after (only_after p q) status (record { name = name; state = s } ∷ es) }
{
    if name == p && status.seen == breaking {
        return Status {
            broken: true,
            ..status
        };
    }
    counted(q, status, name)
}

fn counted(q: u8, status: Status, name: u8) -> Status
    ensures { result ≡ record { broken = status.broken; seen = status.seen || eqb name q } }
{
    Status {
        seen: status.seen || name == q,
        ..status
    }
}
