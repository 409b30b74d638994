//! The agents of a plan, and the simulator of one schedule of their moves.
#![tactic(auto)]

mod agent;
mod line;
mod lookup;
mod machine;
mod room;
mod runner;
mod sim;
mod sim_fault;

pub use runner::replay;
pub use sab_plan::{
    Answer, Call, Entry, Move, Place, Plan, PlanFault, PlanView, Progress, Report, Script, Waiters,
    What, Why,
};
pub use sim::Sim;
pub use sim_fault::SimFault;
