//! What calls answer.

use sab_block::{Operand, Thrown};

/// The answer of a call.
#[derive(Clone, Copy, Debug, PartialEq, Eq)]
pub enum Answer {
    /// An access: its value.
    Value(Operand),
    /// A wait that was notified: "ok".
    Woken,
    /// A wait whose value wasn't the element: "not-equal".
    NotEqual,
    /// A wait that its timeout ended: "timed-out".
    TimedOut,
    /// A notify: how many agents it woke.
    Count(u32),
    /// The error that the call threw.
    Threw(Thrown),
}
