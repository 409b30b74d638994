//! What is done with a script or a file of automata.

use sab_automata::Timeouts;
use sab_race::Share;
use sab_report_text::text::{ReportForm, VerdictFormat};

/// In which form a run is written.
#[derive(Clone, Copy, Debug, PartialEq, Eq)]
pub enum RunForm {
    /// Its report, which is written so.
    Report(ReportForm),
    /// A script that replays to that report.
    Script,
}

/// What the program is asked to do with a script, without a thread.
#[derive(Clone, Copy, Debug, PartialEq, Eq)]
pub enum Job {
    /// To replay the script.
    Replay {
        /// In which form the run is written.
        form: RunForm,
        /// Whether the program ends with another status if some calls haven't returned.
        finish: bool,
    },
    /// To check the script.
    Check,
    /// To replay it, and to judge the run for unordered accesses.
    Judge {
        /// How the verdict is written.
        format: VerdictFormat,
        /// Whether the program ends with another status if some calls haven't returned.
        finish: bool,
    },
}

/// How the agents of a script are to be run in threads.
#[derive(Clone, Copy, Debug, PartialEq, Eq)]
pub struct RaceJob {
    /// How they share the simulator.
    pub share: Share,
    /// How often an agent steps at a wait before its time is up, at most [`MAX_SPINS`](sab_race::MAX_SPINS).
    pub spins: u32,
    /// The seed that the threads are mixed by, or none if each run takes another one.
    pub mix: Option<u64>,
    /// In which form the run is written.
    pub form: RunForm,
    /// Whether the program ends with another status if some calls haven't returned.
    pub finish: bool,
}

/// In which form what a search finds is written.
#[derive(Clone, Copy, Debug, PartialEq, Eq)]
pub enum SearchForm {
    /// All that it finds.
    Findings {
        /// How that is written.
        format: VerdictFormat,
        /// Whether each state is written too.
        states: bool,
    },
    /// A script that replays to a failure.
    Script {
        /// Which failure, by its place in the list, from 1; none for the first of those with the fewest acts.
        failure: Option<u32>,
    },
}

/// How a file of automata is to be searched.
#[derive(Clone, Copy, Debug, PartialEq, Eq)]
pub struct SearchJob {
    /// When a wait may end by its timeout.
    pub timeouts: Timeouts,
    /// How many states it lists at most, which isn't 0.
    pub limit: u32,
    /// In which form what it finds is written.
    pub form: SearchForm,
}
