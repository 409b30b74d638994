//! Where a text stops being JSON: the first token that no text which is read has there, and what is wrong with it.

mod brackets;
mod fault;
mod literal;
mod number_part;
mod place;
mod reader;
mod spot;
mod stop;
mod string_part;

pub use fault::{Expected, Fault};
pub use place::{Place, place_of};
pub use spot::Spot;
pub use stop::{Stop, stop_of};
