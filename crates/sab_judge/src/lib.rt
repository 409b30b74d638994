//! Judges the events of a run for unordered accesses, by the happens-before order of ECMA-262.
#![tactic(auto)]

mod access;
mod cell;
mod clock;
mod clocks;
mod data_race;
mod event;
mod judging;
mod latest;
mod laws;
mod link;
mod order;
mod past;
mod place;
mod race;
mod race_kind;
mod readers;
mod reads;
mod seen;
mod shelf;
mod stretch;
mod trace;
mod trace_fault;
mod verdict;

pub use access::Access;
pub use event::Event;
pub use judging::judge;
pub use laws::{data_races_are_races, happens_before_is_earlier};
pub use order::Order;
pub use place::Place;
pub use race::Race;
pub use trace::Trace;
pub use trace_fault::TraceFault;
pub use verdict::Verdict;
