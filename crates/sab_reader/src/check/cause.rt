//! Why a call throws whenever it acts.

ghost use Rattle.std.specs.Prelude.{◌≡◌};
ghost use Rattle.sab_plan.specs.Check.{verdict};
ghost use Rattle.sab_reader.specs.Check.Cause.{reason_of, first_cause, thrown_of};

use sab_block::{Check, Kind, Thrown, View};
use sab_plan::{Call, failing_check};
use std::fmt;

/// What a call's check finds amiss.
#[derive(Clone, Copy)]
pub(crate) enum ThrowReason {
    /// The functions of `Atomics` don't take this kind.
    NotAtomic(Kind),
    /// `Atomics.wait` and `Atomics.notify` don't take this kind.
    NotWaitable(Kind),
    /// The view has no element at this index, but so many.
    NoElement(i64, u32),
    /// An operand is a BigInt, and elements of this kind are Numbers.
    NotNumber(Kind),
    /// An operand is a Number, and elements of this kind are BigInts.
    NotBigInt(Kind),
    /// The agent can't block.
    CannotBlock,
}

/// What a call throws whenever it acts, and why.
#[derive(Clone, Copy)]
pub(crate) struct Cause {
    /// What it throws.
    pub thrown: Thrown,
    /// The first of its checks that fails.
    pub reason: ThrowReason,
}

/// What a call throws whenever it acts, and why; none for a call that depends on the bytes alone.
pub(crate) fn cause_of(can_block: bool, view: View, call: &Call) -> Option<Cause>
    ensures cause { result ≡ first_cause can_block view call.now }
    ensures verdict { thrown_of result ≡ verdict can_block view call.now }
{
    let check = failing_check(view, *call, can_block)?;
    Some(Cause {
        thrown: check.thrown(),
        reason: ThrowReason::of(view, call, check),
    })
}

impl ThrowReason {
    /// What is amiss where a check of a call on its view fails.
    fn of(view: View, call: &Call, check: Check) -> ThrowReason
        ensures { result ≡ reason_of view call.now check }
    {
        let kind = view.kind();
        match check {
            Check::AtomicKind => ThrowReason::NotAtomic(kind),
            Check::WaitableKind => ThrowReason::NotWaitable(kind),
            Check::Index => ThrowReason::NoElement(call.index(), view.len()),
            Check::Operand if kind.is_big() => ThrowReason::NotBigInt(kind),
            Check::Operand => ThrowReason::NotNumber(kind),
            Check::CanBlock => ThrowReason::CannotBlock,
        }
    }
}

impl fmt::Display for ThrowReason {
    ghost use Rattle.std.specs.Prelude.{Some};
    ghost use Rattle.sab_reader.specs.Check.Text.{reason_text};

    ghost output = { λ reason. Some (reason_text reason) };

    fn fmt<W: fmt::Write>(&self, f: &mut fmt::Formatter<W>) -> fmt::Result {
        match self {
            ThrowReason::NotAtomic(kind) => write!(f, "Atomics doesn't take {kind}"),
            ThrowReason::NotWaitable(kind) => write!(f, "{kind} isn't waitable"),
            ThrowReason::NoElement(index, len) => {
                write!(f, "there is no index {index}: the length is {len}")
            }
            ThrowReason::NotNumber(kind) => write!(f, "{kind} takes Numbers and no BigInts"),
            ThrowReason::NotBigInt(kind) => write!(f, "{kind} takes BigInts and no Numbers"),
            ThrowReason::CannotBlock => f.write_str("the agent can't block"),
        }
    }
}
