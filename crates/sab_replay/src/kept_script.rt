//! Runs that are kept as scripts: the text of a replay or of a race, which replays to its report.

mod canonical;
mod moves;
mod parsing;
mod racing;
mod recorded_moves;
mod replaying;
mod rescheduled;

pub use racing::keep_race;
pub use recorded_moves::recorded_move;
pub use replaying::keep_replay;
