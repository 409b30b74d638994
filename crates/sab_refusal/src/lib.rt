//! What is wrong with a script, and where: the faults, what a value should have been, and the place where it is.
#![tactic(auto)]

mod excerpt;
mod located;
mod location;
mod member;
mod read_fault;
mod reason;
mod reason_text;
mod refusal;
pub mod syntax;

pub use excerpt::Excerpt;
pub use located::Located;
pub use location::Location;
pub use member::Member;
pub use read_fault::ReadFault;
pub use reason::{Counted, Misfit, Reason, Unit, Wanted};
pub use refusal::Refusal;
