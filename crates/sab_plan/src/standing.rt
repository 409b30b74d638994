//! Where agents stand whose calls haven't all returned.

use crate::call::Call;
use crate::place::Place;

/// Where an agent stands, some of whose calls haven't returned.
#[derive(Clone, Copy, Debug, PartialEq, Eq)]
pub struct Standing {
    /// The call that it is at.
    pub call: Call,
    /// The place that the call names; none where its view has no such element.
    pub place: Option<Place>,
    /// The position of its last entry that had an effect; none if it hasn't moved.
    pub since: Option<u32>,
    /// How far it is with the call.
    pub at: At,
}

/// How far an agent is with a call.
#[derive(Clone, Copy, Debug, PartialEq, Eq)]
pub enum At {
    /// It hasn't begun the call.
    Ready,
    /// The call has begun and hasn't acted.
    Begun,
    /// It waits; whether anyone has notified its place since it joined the line.
    Waits { notified: bool },
    /// It was woken by this entry and hasn't left its wait.
    Woken { entry: u32 },
    /// Its call has its answer and hasn't returned.
    Answered,
}
