//! Places in shared memory.

/// A byte of a block of shared memory.
#[derive(Clone, Copy, Debug, PartialEq, Eq)]
pub struct Place {
    pub block: u32,
    pub byte: u32,
}

impl Place {
    ghost use Rattle.std.specs.Prelude.{◌≡◌, ◌↔◌, IsTrue};
    ghost use Rattle.sab_judge.specs.Place.{same_place};
    ghost use Rattle.sab_judge.specs.Trace.{HasBytes};

    /// Whether there are so many bytes from it on: there are 4 blocks of 65,536 bytes.
    pub(crate) fn has_bytes(self, len: u32) -> bool
        ensures { IsTrue result ↔ HasBytes self len }
    {
        self.block < 4 && u64::from(self.byte) + u64::from(len) <= 65_536
    }

    /// Whether the two are one place.
    pub(crate) fn is_same(self, other: Place) -> bool
        ensures { result ≡ same_place self other }
    {
        self.block == other.block && self.byte == other.byte
    }
}
