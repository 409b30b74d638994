//! The events of a journal, which `sab_judge` judges.
//!
//! [`trace_of`] makes one event of each entry: what its move read and wrote, and in whose waiters' critical section it
//! was. An entry that doesn't act is an event that accesses nothing.

mod events;
mod laws;
mod target;

pub use events::trace_of;
pub use laws::{
    an_entry_changes_what_its_event_writes, an_entry_depends_on_what_its_event_reads,
    an_event_is_of_its_agent, an_event_reads_what_was_left, an_event_reports_its_call,
    an_unwritten_byte_is_zero,
};
