//! Agents that wait at places.

use crate::place::Place;

/// An agent that waits at a place.
#[derive(Clone, Copy, Debug, PartialEq, Eq)]
pub struct Waiter {
    pub place: Place,
    pub agent: u32,
}
