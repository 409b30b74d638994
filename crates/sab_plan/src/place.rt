//! Places of elements.

/// The place of an element: a block of the plan and the byte of it at which the element begins.
///
/// A list of waiters belongs to a place, so equal bytes of different blocks have different lists.
#[derive(Clone, Copy, Debug, PartialEq, Eq)]
pub struct Place {
    pub block: u32,
    pub byte: u32,
}
