//! The faults that the program reports: their numbers and names, and which one a refused script, a failed race, a
//! failed write or missing memory has.

mod tool_fault;

pub use sab_refusal::ReadFault;
pub use tool_fault::ToolFault;
