//! Replays a script or races its agents: finds the facts, makes the report, and says how the run ended.
#![tactic(auto)]

pub mod events;
pub mod explain;
pub mod faults;
pub mod kept_script;
pub mod report;
pub mod script_runner;
