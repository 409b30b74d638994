//! Which events are known to be read from.

ghost use Rattle.std.specs.Prelude.{◌≡◌, ◌+◌, ◌<◌, ◌↔◌, IfOk, IsTrue, length, slice_set};
ghost use Rattle.sab_judge.specs.Readers.{AreNoted, IsNoted};
ghost use Rattle.sab_judge.specs.declared.trace.TheConstants.Trace.{MAX_EVENTS};

use std::alloc::{AllocError, Global};
use std::vec;

/// For each event the last one that was noted to read from it: one more than its position, or 0.
#[derive(Drop)]
pub(crate) struct Readers {
    last: Vec<u32>,
}

impl Readers {
    /// Of so many events none.
    pub(crate) fn new(alloc: Global, events: usize) -> Result<Readers, AllocError>
        ensures { IfOk result (AreNoted events 0) }
    {
        Ok(Readers {
            last: vec![in alloc; 0; events]?,
        })
    }

    /// Notes that the `j`-th event reads from the `i`-th, and returns whether that wasn't noted before.
    pub(crate) fn note(&mut self, i: usize, j: usize) -> bool
        requires within { i < length self.old.last.items }
        requires small { j < MAX_EVENTS }
        ensures new { IsTrue result ↔ (¬ IsNoted self.old j i) }
        ensures noted { self.new.last.items ≡ slice_set self.old.last.items i (j + 1) }
    {
        let reader = j as u32 + 1;
        let is_new = self.last[i] != reader;
        self.last[i] = reader;
        is_new
    }
}
