// Document 01, "Job text": "The diagram walk goes from a node to the child its switch selects, until a terminal; children always
// have lower ids."
ghost use Rattle.std.specs.Prelude.{◌≡◌, [], get_or, eqb};
ghost use Rattle.diagram.specs.Held.{held, Ends};
ghost use Rattle.diagram.specs.Walk.{step, walk_value, Falls};

use super::Diagram;
use cells::switch_value;

// The child that the setting selects. A terminal is its own child.
#[tactic(auto, using(crate::proofs::WalkLaws::step_child))]
fn step(d: &Diagram, setting: &[u8], id: u16) -> u16
    ensures { result ≡ step (held d.now []) setting.now id }
{
    let node = d.entry(usize::from(id));
    node.child(switch_value(setting, usize::from(node.x)) == 1)
}

// The id at which the walk ends: its child is not below it. Where children have lower ids that is a terminal.
#[tactic(auto, using(crate::specs::Held::stays, crate::specs::Held::goes))]
fn walk_end(d: &Diagram, setting: &[u8], id: u16) -> u16
    ensures { Ends (step (held d.now []) setting.now) id result }
{
    let child = step(d, setting, id);
    if child < id {
        return walk_end(d, setting, child);
    }
    id
}

// "the diagram's value, 0 or 1": 1 when the walk ends at terminal 1. An id past the last has the value 0.
#[tactic(auto, using(crate::proofs::WalkLaws::walk_value_ends))]
pub fn walk_value(d: &Diagram, setting: &[u8], id: u16) -> u8
    requires { Falls (held d.now []) }
    ensures { result ≡ walk_value (held d.now []) setting.now id }
{
    u8::from(walk_end(d, setting, id) == 1)
}
