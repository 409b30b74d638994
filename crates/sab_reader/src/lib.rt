//! Reads a script: makes a setup of it, or says where and why it is refused; reports what it has.
#![tactic(auto)]

pub mod check;
pub mod script;
