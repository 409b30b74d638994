//! How a report is written.

use crate::text::lines::Lines;

/// The formats of a report.
#[derive(Clone, Copy, Debug, PartialEq, Eq)]
pub enum Format {
    /// A line for each entry, block and agent.
    Plain,
    /// The same, and behind it in words what happened.
    Explained,
    /// An object of JSON on each line, with what happened.
    Json,
    /// A picture, of all lines whichever are asked for.
    Svg,
}

/// The formats of a verdict on a run's unordered accesses.
#[derive(Clone, Copy, Debug, PartialEq, Eq)]
pub enum VerdictFormat {
    /// A line in words for each race.
    Plain,
    /// An object of JSON for each race, on a line.
    Json,
}

/// How a report is written.
#[derive(Clone, Copy, Debug, PartialEq, Eq)]
pub struct ReportForm {
    /// Its format.
    pub format: Format,
    /// Which entries have a line.
    pub lines: Lines,
}
