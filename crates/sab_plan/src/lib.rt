//! Plans: blocks, views on them, and the calls of each agent; schedules of moves; and reports of what moves did.
#![tactic(auto)]

mod answer;
mod argument;
mod call;
mod check;
mod entry;
mod fact;
mod limits;
mod place;
mod plan;
mod plan_fault;
mod plan_view;
mod progress;
mod report;
mod schedule;
mod script;
mod standing;
mod waiter;
mod waiters;

pub use answer::Answer;
pub use argument::{Argument, Arguments};
pub use call::Call;
pub use check::{failing_check, notify_place, wait_place};
pub use entry::{Entry, What, Why};
pub use fact::{Explained, Fact, Found};
pub use place::Place;
pub use plan::Plan;
pub use plan_fault::PlanFault;
pub use plan_view::PlanView;
pub use progress::Progress;
pub use report::Report;
pub use schedule::Move;
pub use script::Script;
pub use standing::{At, Standing};
pub use waiter::Waiter;
pub use waiters::Waiters;
