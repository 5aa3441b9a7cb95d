// Placement: from a job to its crossbar.
#![tactic(auto)]

pub mod filling; // filling.rt: the cells, stored one after another
pub mod mapping; // mapping.rt: the call map
pub mod record; // record.rt: the record of a crossbar

use common::MAX_IDS;
use diagram::{Diagram, IdWires};
use jobs::Job;
use std::marker::Model;

// What is placed: an accepted job, the diagram of its nodes, and the numbers of its wires by id, in an array since nothing may allocate.
#[derive(Drop)]
pub struct Plan<'a> {
    job: &'a Job,
    diagram: Diagram<'a>,
    wires: &'a [IdWires; MAX_IDS],
}

impl<'a> Model for Plan<'a> {
    ghost use Rattle.diagram.specs.Diagram as law;

    ghost Value = { law.Diagram };

    ghost use Rattle.placement.specs.Plan.{planned, IsPlan};

    ghost view = { planned };

    ghost invariant = { IsPlan };
}
