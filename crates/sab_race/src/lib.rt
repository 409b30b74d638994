//! Agents in real threads, which share one simulator by a lock or send it their moves by rings.
//!
//! What happened is a report, whose schedule is the order in which the moves took effect: it can be replayed.
#![tactic(auto)]

mod agenda;
mod count;
mod feeding;
mod gate;
mod lane;
mod locked;
mod mix;
mod mixing;
mod owner;
mod race;
mod race_fault;
mod rings;
mod route;
mod script_moves;
mod share;

pub use feeding::feed;
pub use gate::{Gate, NoGate};
pub use locked::run_locked;
pub use mix::Mix;
pub use race_fault::RaceFault;
pub use rings::{run_rings, run_rings_mixed};
pub use script_moves::{MAX_SPINS, moves};
pub use share::Share;
