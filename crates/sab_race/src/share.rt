//! Ways of sharing.

/// How agents in threads share one simulator.
#[derive(Clone, Copy, Debug, PartialEq, Eq)]
pub enum Share {
    /// By a lock, which an agent takes for each of its moves.
    Lock,
    /// By rings: each agent sends its moves through one of its own to the simulator's owner, who makes them.
    Ring,
}
