// The cells, stored one after another into a buffer of zeros: "All other cells are off", and bytes past R·C are 0.
ghost use Rattle.std.specs.Prelude.{◌≡◌, ◌<◌, ◌≤◌, length, set};
ghost use Rattle.cells.specs.Code.{code_of};

use crate::Plan;
use cells::Cell;
use common::{LABEL_B, LABEL_H, LABEL_V};
use diagram::wires::label_has;

// Writes one cell, whose code is known to fit a byte. Nothing else writes to the buffer once `map` has filled it with zeros. It asks that the place is
// there, so that a place past R·C would not be proved; the `store` of load, whose buffer may be too short, passes over it in silence. The places are
// of two wires each, so there is no order in which a loop over the cells would meet them.
fn store(cells: &mut [u8], at: usize, cell: Cell)
    requires within { at < length cells.old }
    requires code { code_of cell ≤ u8.MAX }
    ensures { cells.new ≡ set cells.old at (code_of cell) }
{
    cells[at] = cell.to_code() as u8;
}

// The buffer is handed to each function and is no part of the plan: a plan is only read, and the record is made of it when the cells are stored.
// That an id is the diagram's is a clause of each function that takes one: a type of such ids would hold the plan too, and be made anew for each child.
impl Plan<'_> {
    ghost use Rattle.std.specs.Prelude.{◌≡◌, ◌≢◌, ◌+◌, ◌*◌, ◌<◌, ◌≤◌, length, set};
    ghost use Rattle.common.specs.Labels.{label_b};
    ghost use Rattle.common.specs.Lists.{zeros, padded};
    ghost use Rattle.cells.specs.Code.{code_of};
    ghost use Rattle.diagram.specs.Diagram.{id_count, label_at};
    ghost use Rattle.diagram.specs.Wires.{has_wire, row_count, column_count};
    ghost use Rattle.placement.specs.Placement.{cells as codes};
    ghost use Rattle.placement.specs.Filling.{cell_place, edge_place, with_on, with_edge, with_cells};

    // Where the cell at the row of one id and the column of another stands in the buffer.
    #[tactic(auto, using(crate::proofs::Plans::plans), unfolding(crate::specs::Filling::cell_place))]
    fn cell_place(&self, i: usize, k: usize) -> usize
        requires { (i < id_count self.now) × (k < id_count self.now) }
        ensures { result ≡ cell_place self.now i k }
    {
        let wires = self.wires;
        usize::from(wires[i].row) * usize::from(self.job.columns) + usize::from(wires[k].column)
    }

    // The on cell of an id. "A `b` label has an on cell where its own row and column meet."
    #[tactic(auto, using(crate::proofs::Plans::plans), unfolding(crate::specs::Filling::with_on, crate::specs::Filling::store_if, crate::specs::Sentences::has_both, cells::specs::Code::code_of))]
    fn on_cell(&self, id: usize, cells: &mut [u8])
        requires id { id < id_count self.now }
        requires within { label_at self.now id ≡ label_b → cell_place self.now id id < length cells.old }
        ensures { cells.new ≡ with_on self.now id cells.old }
    {
        if self.diagram.entry(id).t == LABEL_B {
            store(cells, self.cell_place(id, id), Cell::On);
        }
    }

    // Whether an id has a wire of one kind, that of `h` for rows and that of `v` for columns.
    #[tactic(auto, using(crate::proofs::Plans::plans))]
    fn has_wire(&self, kind: u16, id: usize) -> bool
        ensures { result ≡ has_wire kind self.now id }
    {
        label_has(kind, self.diagram.entry(id).t)
    }

    // Where the cell of the edge from a node to a child stands: "at the parent's row and child's column if both exist, otherwise at the child's row
    // and parent's column".
    #[tactic(auto, unfolding(crate::specs::Filling::edge_place, diagram::specs::Wires::has_row, diagram::specs::Wires::has_column))]
    fn edge_place(&self, id: usize, child: usize) -> usize
        requires { (id < id_count self.now) × (child < id_count self.now) }
        ensures { result ≡ edge_place self.now id child }
    {
        if self.has_wire(LABEL_H, id) && self.has_wire(LABEL_V, child) {
            self.cell_place(id, child)
        } else {
            self.cell_place(child, id)
        }
    }

    // The cell of that edge. "Terminal 0 has no wire, and edges to it have no cell."
    #[tactic(auto, unfolding(crate::specs::Filling::with_edge, crate::specs::Filling::store_if))]
    fn edge_cell(&self, id: usize, child: usize, cell: Cell, cells: &mut [u8])
        requires ids { (id < id_count self.now) × (child < id_count self.now) }
        requires within { child ≢ 0 → edge_place self.now id child < length cells.old }
        requires code { code_of cell ≤ u8.MAX }
        ensures { cells.new ≡ with_edge self.now id child cell cells.old }
    {
        if child != 0 {
            store(cells, self.edge_place(id, child), cell);
        }
    }

    // The cells of a node: its on cell, and those of its edges, "`no X` for L and `yes X` for H".
    #[tactic(auto, using(crate::proofs::Plans::plans, crate::proofs::Wanted::own_within), unfolding(crate::specs::Filling::with_cells))]
    fn node_cells(&self, id: usize, cells: &mut [u8])
        requires id { (2 ≤ id) × (id < id_count self.now) }
        requires room { row_count self.now * column_count self.now ≤ length cells.old }
        ensures { cells.new ≡ with_cells self.now id cells.old }
    {
        let node = self.diagram.entry(id);
        // A switch of a job is below 64, so it is narrowed by `as`: there is no `From` to a byte.
        let x = node.x as u8;
        self.on_cell(id, cells);
        self.edge_cell(id, usize::from(node.l), Cell::No(x), cells);
        self.edge_cell(id, usize::from(node.h), Cell::Yes(x), cells);
    }

    // All cells, those of terminal 1 and of the nodes, into a buffer of zeros. By ids and not by the nodes, since the
    // wires are numbered by ids.
    #[tactic(auto, using(crate::proofs::Plans::plans, crate::proofs::Wanted::own_within, crate::proofs::Stores::nodes_more), unfolding(crate::specs::Filling::with_nodes, diagram::specs::Diagram::id_count))]
    pub fn all_cells(&self, cells: &mut [u8])
        requires zero { cells.old ≡ zeros (length cells.old) }
        requires room { row_count self.now * column_count self.now ≤ length cells.old }
        ensures { cells.new ≡ padded (length cells.old) (codes self.now) }
    {
        self.on_cell(1, cells);
        for id in 2..self.diagram.id_count() {
            self.node_cells(id, cells);
        }
    }
}
