// Runs calls of the counter agreement and prints what they answer.
#![tactic(auto)]

ghost use Rattle.std.specs.Prelude.{◌≡◌, [], ◌∷◌};
ghost use Rattle.rules.specs.Calling.{run_list};
ghost use Rattle.rules.specs.Counter.{counter as counter_of, named as named_of};
ghost use Rattle.counter.specs.Lists.{outcomes};

use rules::{Answer, Call, Outcome};
use runner::unexpanded::{call, start};
use std::fmt;
use std::fmt::Write;

// 176 bytes: the fields, the initial action, the fallback action, the transition (three lines), the row, two rules.
const COUNTER: [u8; 176] = *b"\
\xb0\x00\x01\x00\x02\x01\x01\x00\x02\x00\x06\x00\x0a\x00\x00\x00\x05\x00\x00\x00\
\x0e\x00\x10\x00\x00\x00\x08\x00\x40\x00\x00\x00\x00\x00\
\x0c\x00\x12\x00\x08\x00\x40\x00\x00\x00\x00\x00\
\x42\x00\x02\x00\x01\x00\x01\x00\x08\x00\x40\x00\x01\x00\x00\x00\x32\x00\x23\x00\x14\x00\x50\x00\x07\x00\x06\x00\
\x41\x00\x00\x00\x08\x00\x40\x00\x02\x00\x00\x00\x1a\x00\x10\x00\x00\x00\x14\x00\x50\x00\x00\x00\x06\x00\x41\x00\
\x00\x00\x08\x00\x40\x00\x01\x00\x00\x00\
\x1c\x00\x03\x00\x01\x00\x00\x00\x00\x00\x00\x00\x00\x00\x00\x00\x00\x00\x00\x00\x00\x00\x00\x00\x00\x00\x00\x00\
\x1c\x00\x04\x00\x01\x00\x00\x00\x14\x00\x50\x00\x07\x00\x06\x00\x41\x00\x00\x00\x08\x00\x40\x00\x02\x00\x00\x00\
\x08\x00\x04\x00\x02\x00\x01\x01";

// The outcomes of a start and of two calls after it.
#[derive(Clone, Copy)]
struct Ran {
    started: Outcome,
    first: Outcome,
    second: Outcome,
}

// Each call gets the record that was handed back before it.
fn run(file: &[u8], k: Call, l: Call) -> Ran
    ensures { outcomes result ≡ run_list file.now (k ∷ l ∷ []) }
{
    let started = start(file);
    let s = started.state;
    let first = call(file, s, k);
    let t = first.state;
    let second = call(file, t, l);
    Ran {
        started,
        first,
        second,
    }
}

// A call with sender 0 and arguments 0.
fn named(name: u8, coins: u32) -> Call
    ensures { result ≡ named_of name coins }
{
    Call {
        name,
        sender: 0,
        coins,
        arguments: [0; 4],
    }
}

// The counter agreement.
fn counter(k: Call, l: Call) -> Ran
    ensures { outcomes result ≡ run_list (counter_of 2 6 10) (k ∷ l ∷ []) }
{
    let file = COUNTER;
    run(&file, k, l)
}

// The counter agreement at limit 5. Not one function of a limit with `counter`: that the bytes are the encoded agreement is computed, for
// each limit by itself.
fn limited(k: Call, l: Call) -> Ran
    ensures { outcomes result ≡ run_list (counter_of 2 5 10) (k ∷ l ∷ []) }
{
    let mut file = COUNTER;
    file[10] = 5;
    run(&file, k, l)
}

// An outcome as it is printed.
#[derive(Drop)]
struct Shown(Outcome);

impl fmt::Display for Shown {
    fn fmt<W: fmt::Write>(&self, f: &mut fmt::Formatter<W>) -> fmt::Result {
        match self.0.answer {
            Answer::Completed(None, units) => {
                write!(f, "completed, no value")?;
                write!(f, ", units {units}")?;
            }
            Answer::Completed(Some(x), units) => write!(f, "completed, value {x}, units {units}")?,
            Answer::Refused(r, units) => {
                let number = r.number;
                write!(f, "refused {number}, units {units}")?;
            }
        }
        let state = self.0.state.state;
        let first = self.0.state.variables[0];
        let balance = self.0.state.balances[0];
        let own = self.0.state.own;
        write!(
            f,
            ", state {state}, v0 {first}, balance {balance}, own {own}"
        )
    }
}

// Standard output as a writer of formats. Each text is a write of its own, and one that fails takes no other with it.
#[derive(Drop)]
struct Output;

impl fmt::Write for Output {
    fn write_str(&mut self, text: &str) -> fmt::Result {
        io::write_all(1, text.as_bytes());
        Ok(())
    }
}

fn show_all(title: &str, ran: Ran) -> fmt::Result {
    let started = Shown(ran.started);
    let first = Shown(ran.first);
    let second = Shown(ran.second);
    let mut output = Output;
    write!(output, "{title}")?;
    writeln!(output, "  start: {started}")?;
    writeln!(output, "  first call: {first}")?;
    writeln!(output, "  second call: {second}")
}

fn show() -> fmt::Result {
    show_all("call 1 twice\n", counter(named(1, 0), named(1, 0)))?;
    show_all(
        "call 9, coins 6 with call 1\n",
        counter(named(9, 0), named(1, 6)),
    )?;
    show_all(
        "coins 5 with call 1, call 9\n",
        counter(named(1, 5), named(9, 0)),
    )?;
    show_all(
        "limit 5: call 1, call 9\n",
        limited(named(1, 0), named(9, 0)),
    )
}

// What standard output does not take is passed over, and the rest is still printed.
fn main() {
    let _ = show();
}
