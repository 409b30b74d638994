//! Where agents stand at the end.

ghost use Rattle.sab_replay.specs.Report.Facts.{AreStandings};

use crate::explain::{Explainer, Standing};
use sab_sim::Plan;

/// Where each agent stands of whose calls some haven't returned.
pub(crate) fn standings_of(explainer: &Explainer) -> [Option<Standing>; Plan::MAX_AGENTS]
    ensures { AreStandings explainer.now.plan explainer.now.journal result }
{
    let mut standings = [None; Plan::MAX_AGENTS];
    for a in 0..Plan::MAX_AGENTS {
        standings[a] = explainer.standing(a as u32);
    }
    standings
}
