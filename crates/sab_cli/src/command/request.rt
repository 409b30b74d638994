//! What the program is asked for, and of which input.

use crate::command::job::{Job, RaceJob, SearchJob};
use sab_report_text::text::VerdictFormat;

/// What is to be done with the input.
#[derive(Clone, Copy, Debug, PartialEq, Eq)]
pub enum Task {
    /// The input is a script, and this is to be done with it.
    OfScript(Job),
    /// The input is a script, and its agents are to be run in threads.
    OfRace(RaceJob),
    /// The input is a trace of a run, which is to be judged for unordered accesses; the verdict is written so.
    OfTrace(VerdictFormat),
    /// The input is a file of automata, and all schedules of its agents are to be searched.
    OfSearch(SearchJob),
}

/// Where the input is read from.
#[derive(Clone, Copy, Debug)]
pub enum Source<'a> {
    /// Standard input.
    Standard,
    /// The file of this name.
    File(&'a str),
}

/// What the program is asked for.
#[derive(Clone, Copy, Debug)]
pub struct Request<'a> {
    /// What is to be done.
    pub task: Task,
    /// Where the input is read from.
    pub source: Source<'a>,
    /// Whether to report why the script is refused, and at which place, also if no terminal shows it.
    pub explain: bool,
}
