//! Events of a run.

use crate::access::Access;
use crate::place::Place;

/// What an agent does at one moment: it accesses bytes, is in a critical section of waiters, does both, or neither. A
/// wait does both: it reads its element in the critical section of the waiters of its place.
#[derive(Clone, Copy, Debug, PartialEq, Eq)]
pub struct Event {
    /// The agent's number, below 16.
    pub agent: u32,
    /// Its access, if it makes one.
    pub access: Option<Access>,
    /// The place in whose waiters' critical section it is, if it is in one (EnterCriticalSection).
    pub waiters: Option<Place>,
}

impl Event {
    ghost use Rattle.std.specs.Prelude.{◌≡◌, ◌↔◌, IsTrue};
    ghost use Rattle.sab_judge.specs.Event.{reads_byte, writes_byte, are_alike, do_conflict, do_both_write};
    ghost use Rattle.sab_judge.specs.Trace.{IsInBlocks};

    /// Whether the bytes that it accesses, and those that it waits at, are there.
    pub(crate) fn is_in_blocks(self) -> bool
        ensures { IsTrue result ↔ IsInBlocks self }
    {
        let reaches = match self.access {
            Some(access) => access.place.has_bytes(access.len),
            None => true,
        };
        let waits = match self.waiters {
            Some(place) => place.has_bytes(1),
            None => true,
        };
        reaches && waits
    }

    /// Whether it writes the byte.
    pub(crate) fn writes(self, block: u32, byte: u64) -> bool
        ensures { result ≡ writes_byte self block byte }
    {
        match self.access {
            Some(access) => access.writes && access.covers(block, byte),
            None => false,
        }
    }

    /// Whether it reads the byte.
    pub(crate) fn reads(self, block: u32, byte: u64) -> bool
        ensures { result ≡ reads_byte self block byte }
    {
        match self.access {
            Some(access) => access.reads && access.covers(block, byte),
            None => false,
        }
    }

    /// Whether both make SeqCst accesses of equal ranges.
    pub(crate) fn is_alike(self, other: Event) -> bool
        ensures { result ≡ are_alike self other }
    {
        match (self.access, other.access) {
            (Some(a), Some(b)) => a.is_atomic_alike(b),
            _ => false,
        }
    }

    /// Whether their accesses overlap, one of them writes, and they aren't both SeqCst with equal ranges.
    pub(crate) fn conflicts(self, other: Event) -> bool
        ensures { result ≡ do_conflict self other }
    {
        match (self.access, other.access) {
            (Some(a), Some(b)) => a.conflicts(b),
            _ => false,
        }
    }

    /// Whether their accesses overlap, and both write.
    pub(crate) fn writes_as(self, other: Event) -> bool
        ensures { result ≡ do_both_write self other }
    {
        match (self.access, other.access) {
            (Some(a), Some(b)) => a.writes_as(b),
            _ => false,
        }
    }
}
