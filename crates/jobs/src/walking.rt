// Document 01, "The services": "walk: job text, setting and output number in; the diagram's value, 0 or 1, out."
ghost use Rattle.std.specs.Prelude.{◌≡◌, not, ◌&&◌, ltb};
ghost use Rattle.cells.specs.Setting.{is_setting};
ghost use Rattle.common.specs.Fault.{handed};
ghost use Rattle.jobs.specs.Job.{walk};

use crate::Job;
use crate::reading::read_diagram;
use cells::checks;
use common::{Fault, MAX_NODES, Refusal};
use diagram::{Node, walks};

// Ground 13: "The setting is not V bytes of 0 or 1, or walk's output number is not below K".
fn is_wrong(job: &Job, setting: &[u8], output: u32) -> bool
    ensures { result ≡ not (is_setting job.now.switches setting.now && ltb output job.now.outputs) }
{
    !checks::is_setting(job.switches, setting) || output >= u32::from(job.outputs)
}

// "Walk gives 11 too." Then ground 13, on no line. The output's number is cast, since `usize` has no `From<u32>`.
#[tactic(auto, unfolding(common::specs::Limits::max_nodes, common::specs::Limits::max_outputs))]
pub fn walk(text: &[u8], setting: &[u8], output: u32) -> Result<u8, Refusal>
    ensures { result ≡ handed (λ v. v) (walk text.now setting.now output) }
{
    let mut nodes = [Node::default(); MAX_NODES];
    let job = read_diagram(text, &mut nodes)?;
    if is_wrong(&job, setting, output) {
        return Err(Fault::WrongSetting.at(0));
    }
    let diagram = job.diagram(&nodes);
    Ok(walks::walk_value(&diagram, setting, job.outs[output as usize]))
}
