// The verdict on a rule. Any bytes, rule number and words get an answer.
ghost use Rattle.std.specs.Prelude.{◌≡◌, ◌<◌, MatchResult};
ghost use Rattle.std.proofs.Math.Option.{some};
ghost use Rattle.std.proofs.Math.ListN.{get_elem?};
ghost use Rattle.rules.specs.Syntax.{Rule};
ghost use Rattle.rules.specs.Accepting.{lent};
ghost use Rattle.rules.specs.Calling.{start_tree};
ghost use Rattle.rules.specs.Judging.{judged_of, ruling, refused_verdict, verdict as verdict_of};
ghost use Rattle.machine.specs.Calls.{Fits};
ghost use Rattle.access.specs.Trees.{AcceptedFile};
ghost use Rattle.walker.specs.Tables.{Expanded};

use crate::judging::judge_accepted;
use crate::search::unshown;
use expansion::lent::check_room;
use expansion::writing::write_expansion;
use machine::outcomes::is_completed;
use reader::accept;
use reader::accepted::Accepted;
use rules::{Judged, Refusal, State, Verdict};
use runner::Prepared;
use runner::accepted::start_accepted;
use walker::entries::Entries;
use walker::index::{NODES, write_entries, write_nodes};
use walker::steps::Steps;

pub fn verdict(file: &[u8], rule: u32, words: &mut [u32]) -> Judged
    ensures { lent result words.new ≡ verdict_of file.now rule words.old }
{
    match judge(file, rule as usize, words) {
        Ok(judged) => judged,
        Err(r) => unshown(Verdict::Refused(r)),
    }
}

// What refuses the file, and refusals 10, 11 and 27, in this order and before anything is written; or the verdict.
fn judge(file: &[u8], i: usize, words: &mut [u32]) -> Result<Judged, Refusal>
    ensures { MatchResult result (λ j. lent j words.new ≡ verdict_of file.now i words.old)
        (λ r. refused_verdict words.new r ≡ verdict_of file.now i words.old) }
{
    let accepted = accept(file)?;
    if accepted.parsed.layout.rules.count <= i {
        return Err(Refusal::placeless(10));
    }
    check_room(&accepted, words)?;
    let started = start_accepted(&accepted.parsed);
    if !is_completed(started.answer) {
        return Err(Refusal::placeless(27));
    }
    write_expansion(&accepted.parsed, words);
    Ok(judge_written(&accepted, words, i, started.state))
}

// The i-th rule, once the steps were written, from the state that the start led to. The nodes, entries, steps and prepared file are
// made here. As in `runner::expanded`: what refers to its own tables can't be handed out.
fn judge_written(accepted: &Accepted, words: &[u32], i: usize, fresh: State) -> Judged
    requires { Expanded accepted.now.parsed.file.now words.now × (i < accepted.now.parsed.layout.rules.count)
        × ((a : AcceptedFile accepted.now.parsed.file.now) → Fits a.tree.fields fresh) }
    ensures { (a : AcceptedFile accepted.now.parsed.file.now) (x : Rule) →
        get_elem? a.tree.rules i ≡ some x → fresh ≡ (start_tree a.tree).state → result ≡ judged_of (ruling a.tree x) }
{
    let parsed = &accepted.parsed;
    let fields = parsed.fields();
    let mut nodes = [0; NODES];
    write_nodes(words, accepted.steps, &mut nodes);
    let mut entries = Entries::new();
    write_entries(words, accepted.steps, &mut entries);
    let steps = Steps {
        file: parsed.file,
        words,
        nodes: &nodes,
    };
    let prepared = Prepared {
        steps,
        fields,
        entries: &entries,
    };
    judge_accepted(parsed, &prepared, i, fresh)
}
