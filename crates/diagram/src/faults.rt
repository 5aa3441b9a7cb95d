// Document 01, "Grounds for sending a job back", 2 to 9: the ground with the lowest number that a line meets.
// An `as` here widens a `u32`, for which there is no `From`.
ghost use Rattle.std.specs.Prelude.{◌≡◌, ◌<◌, ◌||◌, []};
ghost use Rattle.common.specs.Fault.{tested};
ghost use Rattle.diagram.specs.Faults.{head_fault, one_fault, alike, node_fault, out_fault};
ghost use Rattle.diagram.specs.Held.{held};
ghost use Rattle.diagram.specs.Seen.{Marked};

use super::seen::Seen;
use super::{Diagram, Node};
use common::{Fault, LABEL_H, LABEL_V, MAX_NODES, MAX_OUTPUTS, MAX_SWITCHES};
use forms::{JobForm, NodeForm, OutForm};

// What the lines before a node's line give: the diagram so far, and the marks of its nodes.
#[derive(Clone, Copy)]
pub struct Earlier<'a, 'b> {
    pub diagram: Diagram<'a>,
    pub seen: &'b Seen,
    ghost marked: { Marked seen.now diagram.nodes.now },
}

impl Earlier<'_, '_> {
    ghost use Rattle.diagram.specs.Held.{node_given, later_fault};

    // Grounds 3 to 9, on `(node I X (L H) T)`.
    #[tactic(auto, using(crate::proofs::FaultLaws::grounds, crate::proofs::FaultLaws::node_tested), unfolding(crate::specs::Held::node_given, crate::specs::Held::held, crate::specs::Diagram::id_count, common::specs::Limits::max_nodes))]
    pub fn node_fault(&self, values: NodeForm) -> Result<(), Fault>
        ensures { result ≡ tested (node_fault (held self.now.diagram []) values.id (node_given values)) }
    {
        if values.id as usize != self.diagram.id_count() {
            return Err(Fault::OutOfTurn);
        }
        if u32::from(self.diagram.switches) <= values.x {
            return Err(Fault::NoSwitch);
        }
        if values.id <= values.l || values.id <= values.h {
            return Err(Fault::NoId);
        }
        self.later_fault(Node::given(values))
    }

    // Grounds 6 to 9, on a node that tests a switch of the job. A terminal's switch is above every node's, so ground 6 needs no test for
    // the terminals.
    #[tactic(auto, using(crate::proofs::FaultLaws::grounds, crate::proofs::FaultLaws::unordered_by_switch), unfolding(crate::specs::Held::later_fault, crate::specs::Held::held))]
    fn later_fault(&self, node: Node) -> Result<(), Fault>
        requires { node.x < self.now.diagram.switches }
        ensures { result ≡ tested (later_fault (held self.now.diagram []) node) }
    {
        let low = self.diagram.entry(usize::from(node.l));
        let high = self.diagram.entry(usize::from(node.h));
        if low.x <= node.x || high.x <= node.x {
            return Err(Fault::Unordered);
        }
        if node.l == node.h {
            return Err(Fault::SameChildren);
        }
        if self.seen.doubled(self.diagram.nodes, node) {
            return Err(Fault::Doubled);
        }
        if alike_child(node, low, high) {
            return Err(Fault::Alike);
        }
        Ok(())
    }
}

// Ground 2, on the figures of the first line.
#[tactic(auto, using(crate::proofs::FaultLaws::grounds), unfolding(crate::specs::Faults::head_fault, common::specs::Limits::max_switches, common::specs::Limits::max_nodes, common::specs::Limits::max_outputs))]
pub fn head_fault(head: JobForm) -> Result<(), Fault>
    ensures { result ≡ tested (head_fault head.switches head.nodes head.outputs) }
{
    if MAX_SWITCHES < head.switches as usize
        || MAX_NODES < head.nodes as usize
        || head.outputs < 1
        || MAX_OUTPUTS < head.outputs as usize
    {
        return Err(Fault::OutOfRange);
    }
    Ok(())
}

// Ground 9, on the label of terminal 1.
#[tactic(auto, using(crate::proofs::FaultLaws::grounds), unfolding(crate::specs::Faults::one_fault))]
pub fn one_fault(t: u16) -> Result<(), Fault>
    ensures { result ≡ tested (one_fault t) }
{
    if t == LABEL_V {
        return Err(Fault::Alike);
    }
    Ok(())
}

// Ground 9: whether two labels are both `h` or both `v`. It is no equality: two labels `b` are not alike.
#[tactic(auto, unfolding(crate::specs::Faults::alike))]
fn alike(t: u16, u: u16) -> bool
    ensures { result ≡ alike t u }
{
    t == u && (t == LABEL_H || t == LABEL_V)
}

// Ground 9, from the entries of both children.
fn alike_child(node: Node, low: Node, high: Node) -> bool
    ensures { result ≡ (alike node.t low.t || alike node.t high.t) }
{
    alike(node.t, low.t) || alike(node.t, high.t)
}

// Grounds 3, 5 and 9, on `(out J I)` after the outputs that name these ids. The ids are a parameter beside the diagram and no field of it: the reader
// fills them while it reads the diagram, and the nodes' tests and the walk ask for none.
#[tactic(auto, using(crate::proofs::FaultLaws::grounds, crate::proofs::FaultLaws::entry_of_held), unfolding(crate::specs::Faults::out_fault, crate::specs::Held::held, crate::specs::Diagram::id_count))]
pub fn out_fault(d: &Diagram, outs: &[u16], out: OutForm) -> Result<(), Fault>
    ensures { result ≡ tested (out_fault (held d.now outs.now) out.number out.target) }
{
    if out.number as usize != outs.len() {
        return Err(Fault::OutOfTurn);
    }
    if d.id_count() <= out.target as usize {
        return Err(Fault::NoId);
    }
    if d.entry(out.target as usize).t == LABEL_V {
        return Err(Fault::Alike);
    }
    Ok(())
}
