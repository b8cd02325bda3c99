// The steps of accepted records, written into lent words, five words each, as the C interface lends them. This serves our own
// crates only: a caller has to see that the bytes are accepted, that the words have room for the steps, and that offsets and
// nodes fit 32 bits.
#![tactic(auto)]

pub mod statements;
pub mod steps;
pub mod transitions;
pub mod writing;

ghost use Rattle.std.specs.Prelude.{◌≡◌, ◌+◌, ◌^◌, ◌<◌};

// The nodes that a statement is expanded between: from o to d, with the return node r.
#[derive(Clone, Copy)]
pub struct Ends {
    pub o: u32,
    pub d: u32,
    pub r: u32,
}

impl Ends {
    // Other nodes, with the same return node.
    pub fn between(self, o: u32, d: u32) -> Ends
        ensures { result ≡ record { o = o; d = d; r = self.r } }
    {
        Ends { o, d, r: self.r }
    }
}

// Where expanding goes on: the next new node, and the place of the next step. The words are a parameter beside it. Tried as one
// struct with the lent words in it: each function then needs a second clause, that it keeps them
// (`self.new.words.ghost_name ≡ self.old.words.ghost_name`).
#[derive(Clone, Copy)]
pub struct Next {
    pub node: u32,
    pub step: usize,
}

impl Next {
    // Where expanding goes on after so many nodes and steps.
    pub fn after(self, nodes: u32, steps: usize) -> Next
        requires nodes_fit { self.node + nodes < 2 ^ 32 }
        requires steps_fit { self.step + steps < 2 ^ 64 }
        ensures node { result.node ≡ self.node + nodes }
        ensures step { result.step ≡ self.step + steps }
    {
        Next {
            node: self.node + nodes,
            step: self.step + steps,
        }
    }
}
