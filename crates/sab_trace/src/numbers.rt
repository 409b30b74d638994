//! The numbers of an event's object.

ghost use Rattle.std.specs.Prelude.{◌↔◌, ℕ, IsTrue, IfSome, IfNone};
ghost use Rattle.sab_judge.specs.declared.place.Place.{Place};
ghost use Rattle.sab_trace.specs.Numbers.{IsSafe, IsAgent, AreBytes};
ghost use Rattle.sab_trace.specs.Seen.{AreSafe};

use sab_judge::{Place, Trace};

/// The largest whole number that a JSON number of a trace can be, 2^53 - 1; the least is its negative.
const MAX_WHOLE: i64 = 0x1f_ffff_ffff_ffff;

/// The numbers of an event's object, which are whole.
#[derive(Clone, Copy)]
pub(crate) struct Numbers {
    pub(crate) agent: i64,
    pub(crate) block: i64,
    pub(crate) byte: i64,
    pub(crate) call: i64,
    pub(crate) event: i64,
    pub(crate) size: i64,
}

/// Whether a number is within ±(2^53 - 1).
pub(crate) fn is_safe(n: i64) -> bool
    ensures { IsTrue result ↔ IsSafe n }
{
    -MAX_WHOLE <= n && n <= MAX_WHOLE
}

/// Whether three numbers are within ±(2^53 - 1).
fn three_are_safe(a: i64, b: i64, c: i64) -> bool
    ensures { IsTrue result ↔ (IsSafe a × IsSafe b × IsSafe c) }
{
    is_safe(a) && is_safe(b) && is_safe(c)
}

impl Numbers {
    /// Whether all are within ±(2^53 - 1).
    pub(crate) fn are_safe(&self) -> bool
        ensures { IsTrue result ↔ AreSafe self.now }
    {
        three_are_safe(self.agent, self.block, self.byte)
            && three_are_safe(self.call, self.event, self.size)
    }

    /// The agent, if it is one of 16.
    pub(crate) fn agent(&self) -> Option<u32>
        ensures some { IfSome result (IsAgent self.now) }
        ensures none { IfNone result ((agent : ℕ) → IsAgent self.now agent → ⊥) }
    {
        if self.agent < 0 || self.agent >= i64::from(Trace::MAX_AGENTS) {
            return None;
        }
        Some(self.agent as u32)
    }

    /// The place of the first byte, and how many bytes there are, if there are as many in its block.
    pub(crate) fn bytes(&self) -> Option<(Place, u32)>
        ensures some { IfSome result (λ p. AreBytes self.now p.0 p.1) }
        ensures none { IfNone result ((place : Place) (len : ℕ) → AreBytes self.now place len → ⊥) }
    {
        if self.block < 0 || self.block >= 4 || self.byte < 0 || self.size < 1 {
            return None;
        }
        if self.byte > 65_536 || self.size > 65_536 - self.byte {
            return None;
        }
        let place = Place {
            block: self.block as u32,
            byte: self.byte as u32,
        };
        Some((place, self.size as u32))
    }
}
