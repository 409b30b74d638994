//! Ranges of bytes.

use sab_judge::Access;

/// Bytes of a block, side by side.
#[derive(Clone, Copy)]
pub(crate) struct ByteRange {
    /// The first one.
    pub start: u64,
    /// The one behind the last one.
    pub end: u64,
}

impl ByteRange {
    ghost use Rattle.std.specs.Prelude.{◌≡◌};
    ghost use Rattle.sab_verdict.specs.Events.{range_of, overlap_of};

    /// The bytes of an access.
    pub fn of(access: Access) -> ByteRange
        ensures { result ≡ range_of access }
    {
        let start = u64::from(access.place.byte);
        ByteRange {
            start,
            end: start + u64::from(access.len),
        }
    }

    /// The bytes that two accesses of one block share.
    pub fn shared(a: Access, b: Access) -> ByteRange
        ensures { result ≡ overlap_of a b }
    {
        let (a, b) = (ByteRange::of(a), ByteRange::of(b));
        ByteRange {
            start: a.start.max(b.start),
            end: a.end.min(b.end),
        }
    }
}
