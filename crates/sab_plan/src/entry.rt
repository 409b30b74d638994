//! Entries of the journal.

use crate::answer::Answer;

/// What a move did: one entry of the journal.
#[derive(Clone, Copy, Debug, PartialEq, Eq)]
pub struct Entry {
    /// The agent whose move it was.
    pub agent: u32,
    /// How many of the agent's calls had returned before the move.
    pub call: u32,
    /// What the move did.
    pub what: What,
}

/// What a move did.
#[derive(Clone, Copy, Debug, PartialEq, Eq)]
pub enum What {
    /// The agent's next call began.
    Began,
    /// The call acted, and has this answer.
    Acted(Answer),
    /// The call is a wait, and its agent joined the line of waiters.
    Enlisted,
    /// The agent left its wait with this answer.
    Left(Answer),
    /// The call returned its answer.
    Returned(Answer),
    /// The move had no effect.
    Stuck(Why),
}

/// Why a move had no effect.
#[derive(Clone, Copy, Debug, PartialEq, Eq)]
pub enum Why {
    /// All calls of the agent have returned.
    Done,
    /// The agent waits.
    Waiting,
    /// The agent doesn't wait, so no timeout ends its wait.
    NotWaiting,
    /// The agent's wait has no timeout.
    Endless,
}
