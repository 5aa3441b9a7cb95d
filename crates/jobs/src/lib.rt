// The job reader, and the call walk.
#![tactic(auto)]

pub mod reading; // reading.rt: the lines in turn, and the node table, lent and filled
pub mod walking; // walking.rt: the call walk

use common::MAX_OUTPUTS;
use diagram::{Diagram, Node};

// Document 01, "Job text": what a job says beside its node table: V, the label of terminal 1, N, K, and the ids that the outputs
// name, zeros past them; and R and C, which ground 11 counts. The ids are an array of the most outputs with K beside it, since nothing may allocate.
#[derive(Clone, Copy, Debug, PartialEq, Eq)]
pub struct Job {
    pub switches: u16,
    pub one: u16,
    pub nodes: u16,
    pub outputs: u16,
    pub outs: [u16; MAX_OUTPUTS],
    pub rows: u16,
    pub columns: u16,
}

impl Job {
    ghost use Rattle.std.specs.Prelude.{◌≡◌, ◌≤◌, length, take};
    ghost use Rattle.common.specs.Limits.{max_nodes};

    // The diagram of an accepted job, whose nodes are the first N entries of its node table.
    pub fn diagram<'a>(&self, table: &'a [Node]) -> Diagram<'a>
        requires entries { self.now.nodes ≤ length table.now }
        requires few { self.now.nodes ≤ max_nodes }
        ensures { (result.switches ≡ self.now.switches) × (result.one ≡ self.now.one) × (result.nodes.now ≡ take self.now.nodes table.now) }
    {
        Diagram {
            switches: self.switches,
            one: self.one,
            nodes: &table[..usize::from(self.nodes)],
        }
    }
}
