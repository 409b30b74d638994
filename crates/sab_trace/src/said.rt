//! What a line says.

use crate::deed::Deed;
use crate::flags::Flags;
use crate::numbers::Numbers;

/// What an event does, with its flags and the numbers of its object, which are whole.
#[derive(Clone, Copy)]
pub(crate) struct Said {
    pub(crate) does: Deed,
    pub(crate) flags: Flags,
    pub(crate) numbers: Numbers,
}

impl Said {
    ghost use Rattle.std.specs.Prelude.{◌↔◌, IsTrue};
    ghost use Rattle.sab_trace.specs.Numbers.{Fit};

    /// Whether the numbers are right for an event at a position: they give the position, a call, and a size that goes
    /// with what the event does.
    pub(crate) fn fits(&self, position: u32) -> bool
        ensures { IsTrue result ↔ Fit position self.now.does self.now.flags self.now.numbers }
    {
        self.numbers.event == i64::from(position)
            && self.numbers.call >= 0
            && (!self.flags.act() || self.does.can_be_at(self.numbers.size))
    }
}
