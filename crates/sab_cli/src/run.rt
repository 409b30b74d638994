//! What `sabsim` does with the script, the trace or the file of automata that a reader gives.

mod explaining;
mod failure;
mod racing;
mod running;
mod searching;
mod tracing;

pub use explaining::explain_script;
pub use failure::{Explanation, Failure};
pub use racing::run_race;
pub use running::run;
pub use searching::run_search;
pub use tracing::judge_trace;
