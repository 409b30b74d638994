//! The sequential object: blocks, one line of waiters, the agents that were woken, and the acts of calls on them.
#![tactic(auto)]

mod act;
mod line;
mod object;

pub use act::{act_access, find_notify, find_wait};
pub use line::{depart, is_in, take_off, wake, woken_count};
pub use object::perform;
