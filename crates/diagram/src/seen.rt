// Ground 8: "An earlier node has the same X, L and H." Each node so far has marked the place of its X, L and H, so only a node whose
// place is marked is compared with them all. The marks are an array and no set, since no call may allocate.
ghost use Rattle.std.specs.Prelude.{◌≡◌, []};
ghost use Rattle.std.specs.List.{list_any};
ghost use Rattle.common.specs.Lists.{any_of};
ghost use Rattle.diagram.specs.Faults.{same_test};
ghost use Rattle.diagram.specs.Seen.{seen_place, no_marks, with_mark, Marked};

use super::Node;

const SEEN: usize = 4096;

// The marks of some nodes.
#[derive(Drop)]
pub struct Seen {
    marks: [bool; SEEN],
}

impl Seen {
    // The marks of no nodes.
    #[tactic(auto, using(crate::proofs::SeenLaws::marked_none), unfolding(crate::specs::Seen::no_marks, crate::specs::Seen::max_seen))]
    pub fn new() -> Seen
        ensures exact { result ≡ no_marks }
        ensures marked { Marked result [] }
    {
        Seen {
            marks: [false; SEEN],
        }
    }

    // Marks a node too.
    #[tactic(auto, using(crate::proofs::SeenLaws::place_below), unfolding(crate::specs::Seen::with_mark, crate::specs::Seen::max_seen))]
    pub fn mark(&mut self, node: Node)
        ensures { self.new ≡ with_mark self.old node }
    {
        self.marks[place_of(node)] = true;
    }

    // Whether one of the nodes, which are marked, has the same switch and children.
    #[tactic(auto, using(crate::proofs::SeenLaws::place_below, crate::proofs::SeenLaws::unmarked, crate::proofs::Tables::any_of_list), unfolding(crate::specs::Seen::max_seen))]
    pub fn doubled(&self, nodes: &[Node], node: Node) -> bool
        requires { Marked self.now nodes.now }
        ensures { result ≡ any_of (same_test node) nodes.now }
    {
        self.marks[place_of(node)] && has_same(nodes, node)
    }
}

// The place of a node.
#[tactic(auto, unfolding(crate::specs::Seen::seen_place, crate::specs::Seen::max_seen))]
fn place_of(node: Node) -> usize
    ensures { result ≡ seen_place node }
{
    (usize::from(node.x) * 1021 + usize::from(node.l) * 131 + usize::from(node.h) * 7) % SEEN
}

// Whether one of the nodes has the same switch and children.
fn has_same(nodes: &[Node], node: Node) -> bool
    ensures { result ≡ list_any (same_test node) nodes.now }
{
    nodes.iter().any(|earlier| node.same_test(*earlier))
}
