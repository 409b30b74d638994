//! Reports.

use crate::entry::Entry;
use crate::progress::Progress;
use crate::schedule::Move;
use std::marker::Model;

/// What is reported about a run.
#[derive(Debug, Drop)]
pub struct Report {
    /// The moves, in order.
    pub schedule: Vec<Move>,
    /// What each of them did.
    pub journal: Vec<Entry>,
    /// The bytes of each block at the end.
    pub blocks: Vec<Vec<u8>>,
    /// How far each agent came.
    pub agents: Vec<Progress>,
}

impl Model for Report {
    ghost use Rattle.sab_plan.specs.Report.{ReportParts, items_of_each};

    ghost Value = { ReportParts };

    ghost view = { λ r. record {
      schedule = r.schedule.items;
      journal = r.journal.items;
      blocks = items_of_each r.blocks.items;
      agents = r.agents.items;
    } };
}
