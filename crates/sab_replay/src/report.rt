//! From a script to its report, in any format, and to the verdict on its run.

mod driver;
mod explaining;
mod judging;
mod laws;
mod moves;
mod names;
mod ordinary;
mod racing;
mod replaying;
mod standings;

pub use crate::script_runner::Ended;
pub use judging::{Judged, MAX_REPORTED, judge_as};
pub use laws::{calls_are_reported_as_spelled, the_last_entry_of_an_agent_is_noted};
pub use racing::{RaceOptions, race_as};
pub use replaying::replay_as;
pub use sab_report_text::text::{Format, Lines, ReportForm, VerdictFormat};
