//! What is said of an event beside what it does.

/// Whether an event reads its bytes and writes them, is atomic, and is in a critical section of waiters.
#[derive(Clone, Copy, Debug)]
pub(crate) struct Flags {
    pub(crate) read: bool,
    pub(crate) write: bool,
    pub(crate) atomic: bool,
    pub(crate) waiters: bool,
}

impl Flags {
    ghost use Rattle.std.specs.Prelude.{◌≡◌, ◌↔◌, IsTrue};
    ghost use Rattle.sab_trace.specs.Deeds.{flags, accesses, acts};

    /// The flags of an event that does nothing to bytes and waiters, as a call that throws.
    pub(crate) const NONE: Flags = Flags {
        read: false,
        write: false,
        atomic: false,
        waiters: false,
    };

    /// Whether both have the same flags.
    pub(crate) fn are(self, other: Flags) -> bool
        ensures { IsTrue result ↔ (self ≡ other) }
    {
        self.read == other.read
            && self.write == other.write
            && self.atomic == other.atomic
            && self.waiters == other.waiters
    }

    /// Whether the event reads or writes its bytes.
    pub(crate) fn access(self) -> bool
        ensures { result ≡ accesses self }
    {
        self.read || self.write
    }

    /// Whether it accesses bytes or is in a critical section of waiters.
    pub(crate) fn act(self) -> bool
        ensures { result ≡ acts self }
    {
        self.access() || self.waiters
    }
}
