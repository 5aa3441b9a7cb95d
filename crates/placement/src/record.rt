// The record of a crossbar.
use crate::Plan;
use cells::Crossbar;
use std::array;

impl Plan<'_> {
    ghost use Rattle.std.specs.Prelude.{◌≡◌, get_or, map};
    ghost use Rattle.placement.specs.Placement.{out_row, crossbar};

    // The row of an output: that of the id it names, or for id 0 the last row, without cells. Past the last output it is 0.
    #[tactic(auto, using(crate::proofs::Plans::plans, crate::proofs::Heads::rows))]
    fn out_row(&self, j: usize) -> u16
        ensures { result ≡ get_or (map (out_row self.now) self.now.outs) j 0 }
    {
        let job = self.job;
        if j >= usize::from(job.outputs) {
            return 0;
        }
        let id = job.outs[j];
        if id == 0 {
            job.rows - 1
        } else {
            self.wires[usize::from(id)].row
        }
    }

    // R, C, V, K and the output rows.
    #[tactic(auto, using(crate::proofs::Plans::plans, crate::proofs::Plans::head_is))]
    pub fn head(&self) -> Crossbar
        ensures { result ≡ crossbar self.now }
    {
        let job = self.job;
        Crossbar {
            rows: job.rows,
            columns: job.columns,
            switches: job.switches,
            outputs: job.outputs,
            outs: array::from_fn(|j| self.out_row(j)),
        }
    }
}
