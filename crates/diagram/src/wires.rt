// Document 01, "Placement" and ground 11: the numbers of the wires by id, and R and C.
ghost use Rattle.std.specs.Prelude.{◌≡◌, ◌+◌, ◌-◌, ◌^◌, ◌<◌, []};
ghost use Rattle.common.specs.Lists.{bit};
ghost use Rattle.diagram.specs.Held.{held, wires_past, WireNumbers, wires_among, dimensions_of};
ghost use Rattle.diagram.specs.Wires.{label_has, any_zero, exceeds};

use super::{Diagram, Dimensions, IdWires};
use common::{LABEL_B, LABEL_H, LABEL_V, MAX_COLUMNS, MAX_IDS, MAX_ROWS};

// Whether a label has a wire of one kind. The kind is named by the label that has no other wire, `h` for rows and `v` for columns, as the law
// names it (`label_has`): a name of its own would be turned into that label at once.
pub fn label_has(kind: u16, label: u16) -> bool
    ensures { result ≡ label_has kind label }
{
    label == kind || label == LABEL_B
}

// How many ids have a wire of one kind. Terminal 0 has none.
#[tactic(auto, using(crate::proofs::Owners::byte_bit), unfolding(crate::specs::Held::wires_among))]
fn wire_count(d: &Diagram, kind: u16) -> usize
    ensures { result ≡ wires_among kind d.now.nodes.now + bit (label_has kind d.now.one) }
{
    d.nodes
        .iter()
        .filter(|node| label_has(kind, node.t))
        .count()
        + usize::from(label_has(kind, d.one))
}

impl IdWires {
    // The numbers of the next id, after an id with this label.
    #[tactic(auto, using(crate::proofs::Owners::byte_bit), unfolding(crate::specs::Held::wires_past))]
    fn past(self, label: u16) -> IdWires
        requires row_fits { self.row < u16.MAX }
        requires column_fits { self.column < u16.MAX }
        ensures { result ≡ wires_past self label }
    {
        IdWires {
            row: self.row + u16::from(label_has(LABEL_H, label)),
            column: self.column + u16::from(label_has(LABEL_V, label)),
        }
    }
}

// Each wire has as its number how many ids before its own have one. Terminal 0 has none, so those of both terminals are 0. The numbers are written
// by their index, since after `iter_mut().zip(..)` a proof knows nothing of the elements; into an array, since nothing may allocate.
#[tactic(auto, using(crate::proofs::Owners::row_most, crate::proofs::Owners::column_most), unfolding(crate::specs::Held::held, common::specs::Limits::max_ids, common::specs::Limits::max_nodes))]
pub fn number_wires(d: &Diagram) -> [IdWires; MAX_IDS]
    ensures { WireNumbers (held d.now []) result }
{
    let first = IdWires::default();
    let mut wires = [first; MAX_IDS];
    let mut next = first.past(d.one);
    for (k, node) in d.nodes.iter().enumerate() {
        wires[k + 2] = next;
        next = next.past(node.t);
    }
    wires
}

// Whether an output names 0.
#[tactic(auto, using(crate::proofs::Tables::any_of_list))]
pub fn any_zero(outs: &[u16]) -> bool
    ensures { result ≡ any_zero outs.now }
{
    outs.contains(&0)
}

// R and C. The counts have no `From` to 16 bits, and fit them. Why the outputs are no field of the diagram, `out_fault` says.
#[tactic(auto, using(common::proofs::Lists::bit_most, crate::proofs::Owners::among_most, crate::proofs::Owners::dimensions_counted), unfolding(common::specs::Limits::max_nodes),)]
pub fn dimensions(d: &Diagram, outs: &[u16]) -> Dimensions
    ensures { result ≡ dimensions_of (held d.now outs.now) }
{
    Dimensions {
        rows: wire_count(d, LABEL_H) as u16 + u16::from(any_zero(outs)),
        columns: wire_count(d, LABEL_V) as u16,
    }
}

// Ground 11: "R or C exceeds 128".
#[tactic(auto, unfolding(common::specs::Limits::max_rows, common::specs::Limits::max_columns))]
pub fn exceeds(size: Dimensions) -> bool
    ensures { result ≡ exceeds size.rows size.columns }
{
    MAX_ROWS < usize::from(size.rows) || MAX_COLUMNS < usize::from(size.columns)
}
