//! From a script to a report: reads a JSON text that says what agents do to blocks of bytes and in which order, runs
//! it, and writes what each move did.

mod ended;
mod input;
mod racing;
mod replaying;
mod report;
mod script;

pub use ended::Ended;
pub use input::{MAX_INPUT, read_at_most, read_input};
pub use racing::{race_bytes, race_mixed, race_plan};
pub use replaying::{replay_bytes, replay_moves};
pub use report::write_report;
pub use sab_race::{MAX_SPINS, Share};
pub use sab_reader::script::{MAX_MOVES, Setup, ViewSpec, read_setup};
pub use script::setup_of;
