//! The command line: what its words ask for, the job, and how the program ends.
#![tactic(auto)]

pub mod command;
pub mod exit;
pub mod run;
