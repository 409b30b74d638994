//! The checks that calls make before they act.

ghost use Rattle.std.specs.Prelude.{◌≡◌, ◌+◌, ◌≤◌, true, IfOk};
ghost use Rattle.std.specs.List.{list_all};
ghost use Rattle.sab_block.specs.Kind.{element_size, is_atomic};
ghost use Rattle.sab_block.specs.Operand as operands;
ghost use Rattle.sab_block.specs.View as views;
ghost use Rattle.sab_block.specs.View.{kind_of, block_len_of};
ghost use Rattle.sab_block.specs.Check.{thrown_by, Places};
ghost use Rattle.sab_block.specs.Access.{access_checks, index_of, operands_of};

use crate::access::Access;
use crate::kind::Kind;
use crate::operand::agrees;
use crate::thrown::Thrown;
use crate::view::View;

/// A check of a call.
#[derive(Clone, Copy, Debug, PartialEq, Eq)]
pub enum Check {
    /// The view's kind is one that the functions of `Atomics` take (ValidateIntegerTypedArray).
    AtomicKind,
    /// The view's kind is one that `Atomics.wait` and `Atomics.notify` take (ValidateIntegerTypedArray, where waitable
    /// is true).
    WaitableKind,
    /// The view has an element at the index (ValidateAtomicAccess).
    Index,
    /// Each operand is a BigInt exactly if the elements are (ToBigInt, ToIntegerOrInfinity).
    Operand,
    /// The agent can block (AgentCanSuspend).
    CanBlock,
}

impl Check {
    /// What a call throws where it is the first check that fails.
    pub fn thrown(self) -> Thrown
        ensures { result ≡ thrown_by self }
    {
        match self {
            Check::Index => Thrown::RangeError,
            Check::AtomicKind | Check::WaitableKind | Check::Operand | Check::CanBlock => {
                Thrown::TypeError
            }
        }
    }
}

/// The byte at which the element of an access begins, or the first of the access's checks that fails.
pub fn access_place(view: &View, access: &Access) -> Result<u32, Check>
    ensures place { Places (access_checks view.now access.now) (views.place view.now (index_of access.now)) result }
    ensures inside { IfOk result (λ p. p + element_size (kind_of view.now) ≤ block_len_of view.now) }
    ensures atomic { IfOk result (λ p. is_atomic (kind_of view.now) ≡ true) }
{
    let kind = view.kind();
    if !kind.is_atomic() {
        return Err(Check::AtomicKind);
    }
    let Ok(place) = view.place(access.index()) else {
        return Err(Check::Index);
    };
    if !operands_agree(kind, access) {
        return Err(Check::Operand);
    }
    Ok(place)
}

/// Whether each operand of an access is a BigInt exactly if the elements are.
fn operands_agree(kind: Kind, access: &Access) -> bool
    ensures { result ≡ list_all (operands.agrees kind) (operands_of access.now) }
{
    match *access {
        Access::Load { .. } => true,
        Access::Store { value, .. } | Access::Rmw { value, .. } => agrees(kind, value),
        Access::CompareExchange {
            expected,
            replacement,
            ..
        } => agrees(kind, expected) && agrees(kind, replacement),
    }
}
