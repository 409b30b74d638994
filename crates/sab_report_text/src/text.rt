//! The text of a report.

mod chunk;
mod entry_line;
mod format;
mod line;
mod lines;
mod report;

pub use chunk::Chunk;
pub use entry_line::{ANSWER_LEN, prepend_answer, prepend_entry, prepend_why};
pub use format::{Format, ReportForm, VerdictFormat};
pub use line::Line;
pub use lines::Lines;
pub use report::{prepend_agent, write_blocks, write_hex, write_plain};
