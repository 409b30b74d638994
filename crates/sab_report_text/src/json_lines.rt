//! A report as JSON: a line for each entry with its fact, for each block and for each agent.

mod blocks;
mod call;
mod entry;
mod format;
mod found;
mod small;
mod standing;

pub use call::{CALL_LEN, push_call_data};
pub use format::Json;
pub use small::push_small;
