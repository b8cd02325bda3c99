// A run from node to node. For our own crates only: a caller has to see that the total fits 32 bits, which is of a machine and a setting
// together and so a clause.
ghost use Rattle.std.proofs.Math.Option.{some};
ghost use Rattle.std.specs.Prelude.{◌≡◌, get_or};
ghost use Rattle.std.proofs.Math.ListN.{get_elem?};
ghost use Rattle.rules.specs.declared.Machine.{Machine};
ghost use Rattle.rules.specs.Expanding.{Step, expansion};
ghost use Rattle.rules.specs.Calling.{leads};
ghost use Rattle.machine.specs.Runs.{ran, Funded};
ghost use Rattle.walker.specs.Tables.{Expanded, step_at};
ghost use Rattle.walker.specs.Runs.{run_of, indexed_as, Ready, Enterable, decided_in, advance_in, walk_in, walk_by_in};

use crate::steps::Steps;
use crate::words::step_at;
use actions::steps::{guard, perform, test};
use emitter::steps::StepKind;
use machine::Stop;
use rules::{Machine, Setting};

// The kinds of steps that are no statement's. From 4 on a step is a statement's, so no `StepKind` is made of its number.
const GUARD: u32 = StepKind::Guard as u32;

const TRUE: u32 = StepKind::True as u32;

const FALSE: u32 = StepKind::False as u32;

// Where an action leads: to this node, by a return too, unless it is refused.
#[tactic(auto, unfolding(rules::specs::Calling::leads))]
fn led(node: u32, run: Result<(), Stop>) -> Result<u32, Stop>
    ensures { (m : Machine) → ran result m ≡ run_of (leads (λ _. node) node (ran run m)) }
{
    match run {
        Ok(()) | Err(Stop::Returned) => Ok(node),
        Err(stop) => Err(stop),
    }
}

// On steps a return leads on to its target: these runs end at a node or are refused, and never as `Stop::Returned`.
impl Steps<'_> {
    // The place of the first step that leaves a node, if one does.
    fn place_of(&self, node: u32) -> Option<usize>
        ensures { indexed_as result ≡ get_or self.now.nodes.now node 0 }
    {
        let nodes = self.nodes;
        let place = *nodes.get(node as usize)?;
        (place as usize).checked_sub(1)
    }

    // A condition, whose two steps stand one after the other: by its value the run goes on at the target of the one or the other.
    fn decide(&self, i: usize, m: &mut Machine, setting: &Setting) -> Result<u32, Stop>
        requires { Ready self.now.file.now self.now.words.now i × ((step_at self.now.words.now i).kind ≡ 2) }
        ensures { (a : Expanded self.now.file.now self.now.words.now) →
            ran result m.new ≡ run_of (decided_in self.now.file.now a.tree setting.now (step_at self.now.words.now i) m.old) }
    {
        let step = step_at(self.words, i);
        if test(&self.file[step.at as usize..], m, setting)? {
            Ok(step.target)
        } else {
            Ok(step_at(self.words, i + 1).target)
        }
    }

    // One step.
    fn advance(&self, i: usize, m: &mut Machine, setting: &Setting) -> Result<u32, Stop>
        requires { Ready self.now.file.now self.now.words.now i × Funded setting.now.accounts m.old }
        ensures { (a : Expanded self.now.file.now self.now.words.now) →
            ran result m.new ≡ run_of (advance_in self.now.file.now a.tree setting.now (step_at self.now.words.now i) m.old) }
    {
        let step = step_at(self.words, i);
        match step.kind {
            TRUE => self.decide(i, m, setting),
            // Neither is the first that leaves a node of a run.
            GUARD | FALSE => Err(Stop::ActionFailed),
            // a statement's, 4 to 7
            _ => {
                let run = perform(&self.file[step.at as usize..], m, setting);
                led(step.target, run)
            }
        }
    }

    // The run from a node to the node that it ends at.
    pub fn walk(&self, node: u32, m: &mut Machine, setting: &Setting) -> Result<u32, Stop>
        requires { Funded setting.now.accounts m.old }
        ensures { (a : Expanded self.now.file.now self.now.words.now) →
            ran result m.new ≡ run_of (walk_in self.now.file.now a.tree setting.now node m.old) }
    {
        let states = u32::from(setting.states);
        let mut at = node;
        while states < at {
            let i = self.place_of(at).ok_or(Stop::ActionFailed)?;
            at = self.advance(i, m, setting)?;
        }
        Ok(at)
    }

    // The guard's step at a place, and then the run from where it leads.
    pub fn enter(&self, place: usize, m: &mut Machine, setting: &Setting) -> Result<u32, Stop>
        requires { Enterable self.now.file.now self.now.words.now place × Funded setting.now.accounts m.old }
        ensures { (a : Expanded self.now.file.now self.now.words.now) (s : Step) → get_elem? (expansion a.tree) place ≡ some s →
            ran result m.new ≡ run_of (walk_by_in self.now.file.now a.tree setting.now (some s) m.old) }
    {
        let step = step_at(self.words, place);
        guard(&self.file[step.at as usize..], m, setting)?;
        self.walk(step.target, m, setting)
    }
}
