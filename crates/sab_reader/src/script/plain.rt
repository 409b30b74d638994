//! Plain scripts, which are read from the tokens of their text, so that no tree is made.
//!
//! A script of either form is plain if no object of it has a member twice. A `None` here, and `Miss::NotPlain`, say
//! that a value isn't plain, or spells nothing: which of the two, and why, is found by the tree.

mod agents;
mod blocks;
mod calls;
mod lists;
mod members;
mod numbers;
mod operands;
mod schedule;
mod setup;
mod views;

pub(crate) use lists::Miss;
pub(crate) use setup::plain_setup;
