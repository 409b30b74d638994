//! How a run ended.

ghost use Rattle.std.specs.Prelude.{◌≡◌};
ghost use Rattle.std.specs.List.{list_all};
ghost use Rattle.sab_replay.specs.ScriptRunner.Ended.{has_returned, ended_of};

use sab_sim::{Progress, Report};

/// How a run ended.
#[derive(Clone, Copy, Debug, PartialEq, Eq)]
pub enum Ended {
    /// All calls of all agents have returned.
    Finished,
    /// Some call of an agent hasn't.
    Unfinished,
}

impl Ended {
    /// How the run of a report ended.
    pub fn of(report: &Report) -> Ended
        ensures { result ≡ ended_of report.now }
    {
        if have_returned(&report.agents) {
            Ended::Finished
        } else {
            Ended::Unfinished
        }
    }
}

/// Whether all calls of these agents have returned.
fn have_returned(agents: &[Progress]) -> bool
    ensures { result ≡ list_all has_returned agents.now }
{
    agents
        .iter()
        .all(|progress| progress.returned == progress.total)
}
