//! Views as scripts describe them.

use sab_block::Kind;

/// What a script says of a view, except its name.
#[derive(Clone, Copy, Debug, PartialEq, Eq)]
pub struct ViewSpec {
    /// The kind of its elements.
    pub kind: Kind,
    /// The byte at which its first element begins.
    pub offset: i64,
    /// How many elements it has, or `None` for all that are left.
    pub length: Option<i64>,
    /// The position of its block.
    pub block: u32,
}
