//! How `sabsim` ends: how a job ended, the exit status, and the line that reports a fault.

mod complaint;
mod ending;
mod fault_line;
mod no_job;
mod no_words;
mod outcome;
mod status;

pub use complaint::Complaint;
pub use ending::Ending;
pub use fault_line::FaultLine;
pub use no_job::without_job;
pub use no_words::without_words;
pub use outcome::Outcome;
