//! What a judge says of a run, as plain text and as JSON.
#![tactic(auto)]

mod as_json;
mod byte_range;
mod count;
mod plain;
mod side;
mod sides;
mod writing;

pub use writing::{write_run_verdict, write_trace_verdict};
