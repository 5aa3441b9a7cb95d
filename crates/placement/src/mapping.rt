// Map: job text in, crossbar out.
ghost use Rattle.std.specs.Prelude.{◌≡◌, ◌*◌, length, ltb};
ghost use Rattle.common.specs.Fault.{handed};
ghost use Rattle.common.specs.Outcome.{Answered};
ghost use Rattle.placement.specs.Map.{map_job};

use crate::Plan;
use cells::Crossbar;
use common::{Fault, MAX_NODES, Refusal};
use diagram::Node;
use diagram::wires::number_wires;
use jobs::Job;
use jobs::reading::read_diagram;

// Ground 14: whether a buffer is shorter than the R·C cells of a job's crossbar, of which there is no record yet.
fn is_short(job: &Job, room: usize) -> bool
    ensures { result ≡ ltb room (job.now.rows * job.now.columns) }
{
    room < usize::from(job.rows) * usize::from(job.columns)
}

// Document 01: the crossbar of a job. Grounds 1 to 11, then 14.
#[tactic(auto, unfolding(common::specs::Limits::max_nodes))]
pub fn map(text: &[u8], cells: &mut [u8]) -> Result<Crossbar, Refusal>
    ensures { Answered (map_job text.now (length cells.old)) (handed (λ w. w.head)) (λ w. w.codes) (length cells.old) result cells.new }
{
    cells.fill(0);
    let mut nodes = [Node::default(); MAX_NODES];
    let job = read_diagram(text, &mut nodes)?;
    if is_short(&job, cells.len()) {
        return Err(Fault::NoRoom.at(0));
    }
    let diagram = job.diagram(&nodes);
    let wires = number_wires(&diagram);
    let plan = Plan {
        job: &job,
        diagram,
        wires: &wires,
    };
    plan.all_cells(cells);
    Ok(plan.head())
}
