//! Gates, which are called at each move of a race.

/// Is called at each move of an agent's own thread, before it and after it. An agent's moves are numbered from 0.
///
/// A gate can hold a thread back, as long as it likes, and so force an order on a race.
pub trait Gate: Send + Sync + Drop {
    /// Is called by the agent's thread: before it asks for the lock for its move `k`, or before it sends it.
    fn before(&self, agent: u32, k: u32);

    /// Is called after move `k` was made: by the agent's thread once it gave the lock back, or by the owner of the
    /// rings.
    fn applied(&self, agent: u32, k: u32);
}

/// The gate that does nothing.
#[derive(Clone, Copy, Debug)]
pub struct NoGate;

impl Gate for NoGate {
    fn before(&self, _agent: u32, _k: u32) {}

    fn applied(&self, _agent: u32, _k: u32) {}
}
