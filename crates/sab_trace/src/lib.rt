//! Reads traces of the recorder: from lines of JSON, each of which reports an event, to the events that a judge takes.
#![tactic(auto)]

mod deed;
mod flags;
mod found;
mod laws;
mod line;
mod line_fault;
mod members;
mod numbers;
mod plain;
mod reading;
mod refusal;
mod said;
mod spelling;
mod tokens;

pub use laws::{bytes_spell_one_trace, refused_bytes_spell_none};
pub use line::MAX_LINE;
pub use line_fault::LineFault;
pub use reading::read_trace;
pub use refusal::Refusal;
