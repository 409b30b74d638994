//! Which linearizations a history of operations on an object can have.
#![tactic(auto)]

mod closure;
mod configurations;
pub mod laws;
mod model;
mod monitor;
mod order;
mod waiting;

pub use configurations::Configurations;
pub use model::{Cell, Outcome, SequentialModel};
pub use monitor::Monitor;
pub use order::sorted;

#[cfg(test)]
mod tests;
