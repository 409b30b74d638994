//! How far agents came.

/// How far an agent came.
#[derive(Clone, Copy, Debug, PartialEq, Eq)]
pub struct Progress {
    /// How many of its calls returned.
    pub returned: u32,
    /// How many calls it has.
    pub total: u32,
}
