//! What `sabsim` can be asked for: its command line and the help.

mod command_line;
mod help;
mod job;
mod reading;
mod request;

pub use job::{Job, RaceJob, RunForm, SearchForm, SearchJob};
pub use reading::request_of;
pub use request::{Request, Source, Task};
