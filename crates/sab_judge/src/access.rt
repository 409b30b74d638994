//! Accesses of bytes of shared memory.

use crate::order::Order;
use crate::place::Place;

/// An access of the bytes from a place on.
#[derive(Clone, Copy, Debug, PartialEq, Eq)]
pub struct Access {
    /// Where the first byte lies.
    pub place: Place,
    /// How many bytes there are in its range.
    pub len: u32,
    /// Whether it reads them.
    pub reads: bool,
    /// Whether it writes them. An access that does both is a read-modify-write.
    pub writes: bool,
    pub order: Order,
}

impl Access {
    ghost use Rattle.std.specs.Prelude.{◌≡◌, ◌+◌};
    ghost use Rattle.sab_judge.specs.Access.{covers, same_range, overlap, are_atomic_alike, conflict, both_write};

    /// The first byte of its range.
    pub(crate) fn start(self) -> u64
        ensures { result ≡ self.place.byte }
    {
        u64::from(self.place.byte)
    }

    /// The byte behind its range.
    pub(crate) fn end(self) -> u64
        ensures { result ≡ self.place.byte + self.len }
    {
        u64::from(self.place.byte) + u64::from(self.len)
    }

    /// Whether the byte is in its range.
    pub(crate) fn covers(self, block: u32, byte: u64) -> bool
        ensures { result ≡ covers self block byte }
    {
        self.place.block == block && self.start() <= byte && byte < self.end()
    }

    /// Whether the two ranges are equal.
    fn has_range_of(self, other: Access) -> bool
        ensures { result ≡ same_range self other }
    {
        self.place.is_same(other.place) && self.len == other.len
    }

    /// Whether the two ranges have a byte in common.
    fn overlaps(self, other: Access) -> bool
        ensures { result ≡ overlap self other }
    {
        self.place.block == other.place.block
            && self.start() < other.end()
            && other.start() < self.end()
    }

    /// Whether the two are SeqCst and have equal ranges.
    pub(crate) fn is_atomic_alike(self, other: Access) -> bool
        ensures { result ≡ are_atomic_alike self other }
    {
        self.order.is_seq_cst() && other.order.is_seq_cst() && self.has_range_of(other)
    }

    /// Whether the two overlap, one of them writes, and they aren't both SeqCst with equal ranges.
    pub(crate) fn conflicts(self, other: Access) -> bool
        ensures { result ≡ conflict self other }
    {
        self.overlaps(other) && (self.writes || other.writes) && !self.is_atomic_alike(other)
    }

    /// Whether the two overlap, and both write.
    pub(crate) fn writes_as(self, other: Access) -> bool
        ensures { result ≡ both_write self other }
    {
        self.overlaps(other) && self.writes && other.writes
    }
}
