// Diagrams: nodes, children, labels, the tests of a job's lines, the wires, the walk.
#![tactic(auto)]

pub mod seen; // seen.rt: marks for ground 8
pub mod faults; // faults.rt: grounds 2 to 9 on one line each
pub mod wires; // wires.rt: the numbers of the wires, and how many there are
pub mod walks; // walks.rt: the diagram walk

ghost use Rattle.std.specs.Prelude.{◌≡◌, ◌≤◌, ◌<◌, ◌^◌, [], length};
ghost use Rattle.common.specs.Limits.{max_nodes};

use forms::NodeForm;

// Document 01, "Job text": an entry of the node table, X, L, H and T. T stays a number, since document 01 fixes what the table holds:
// 1 for `h`, 2 for `v`, 3 for `b`, and zeros in an entry without a line, which is `Node::default()`.
#[derive(Clone, Copy, Debug, Default, PartialEq, Eq)]
pub struct Node {
    pub x: u16,
    pub l: u16,
    pub h: u16,
    pub t: u16,
}

impl Node {
    ghost use Rattle.diagram.specs.Faults.{same_test};
    ghost use Rattle.diagram.specs.Held.{node_given, child_of};

    // The node that a line `(node I X (L H) T)` gives, whose values may be too large for a node. It is no `From`, which can ask for nothing, and no
    // `TryFrom`, whose refusal could not come: the tests before it have shown that the values fit.
    #[tactic(auto, unfolding(crate::specs::Held::node_given))]
    pub fn given(values: NodeForm) -> Node
        requires x_fits { values.x ≤ u16.MAX }
        requires l_fits { values.l ≤ u16.MAX }
        requires h_fits { values.h ≤ u16.MAX }
        ensures { result ≡ node_given values }
    {
        Node {
            x: values.x as u16,
            l: values.l as u16,
            h: values.h as u16,
            t: values.t,
        }
    }

    // The child that a switch at 1 selects, or the one at 0.
    #[tactic(auto, unfolding(crate::specs::Held::child_of))]
    #[inline]
    pub fn child(self, high: bool) -> u16
        ensures { result ≡ child_of high self }
    {
        if high { self.h } else { self.l }
    }

    // Whether two nodes have the same switch and children; the labels may differ.
    #[tactic(auto, unfolding(crate::specs::Faults::same_test))]
    #[inline]
    fn same_test(self, other: Node) -> bool
        ensures { result ≡ same_test self other }
    {
        (self.x, self.l, self.h) == (other.x, other.l, other.h)
    }
}

// A diagram, or what the lines so far give of it: V, the label of terminal 1, and the nodes in rising id from id 2 on, which are the first
// entries of the node table.
#[derive(Clone, Copy)]
pub struct Diagram<'a> {
    pub switches: u16,
    pub one: u16,
    pub nodes: &'a [Node],
    ghost few: { length nodes.now ≤ max_nodes },
}

impl Diagram<'_> {
    ghost use Rattle.diagram.specs.Diagram.{terminal, entry, id_count};
    ghost use Rattle.diagram.specs.Held.{held};

    // How many ids there are.
    #[tactic(auto, unfolding(crate::specs::Held::held, crate::specs::Diagram::id_count))]
    #[inline]
    pub fn id_count(&self) -> usize
        ensures { result ≡ id_count (held self.now []) }
    {
        self.nodes.len() + 2
    }

    // The entry of a terminal: it tests no switch of the job, and is its own child.
    #[tactic(auto, unfolding(crate::specs::Diagram::terminal))]
    #[inline]
    fn terminal(&self, id: u16, label: u16) -> Node
        ensures { result ≡ terminal self.now.switches id label }
    {
        Node {
            x: self.switches,
            l: id,
            h: id,
            t: label,
        }
    }

    // The entry of an id. An id past the last has that of terminal 0.
    #[tactic(auto, unfolding(crate::specs::Held::held, crate::specs::Diagram::entry, crate::specs::Diagram::entries))]
    #[inline]
    pub fn entry(&self, id: usize) -> Node
        ensures { result ≡ entry (held self.now []) id }
    {
        match id {
            0 => self.terminal(0, 0),
            1 => self.terminal(1, self.one),
            _ => self
                .nodes
                .get(id - 2)
                .copied()
                .unwrap_or(self.terminal(0, 0)),
        }
    }
}

// The numbers of an id's row and column.
#[derive(Clone, Copy, Debug, Default, PartialEq, Eq)]
pub struct IdWires {
    pub row: u16,
    pub column: u16,
}

// R and C.
#[derive(Clone, Copy, Debug, PartialEq, Eq)]
pub struct Dimensions {
    pub rows: u16,
    pub columns: u16,
}
