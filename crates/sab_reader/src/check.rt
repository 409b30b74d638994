//! Checks scripts: says what a script has and which of its calls throw whenever they act, or where it is refused and
//! why.

mod cause;
mod check;
mod foreign;
mod foreign_line;
mod ok_line;
mod scanning;
mod warning;
mod warnings;

pub use check::{Checked, check_script};
