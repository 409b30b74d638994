//! The checks of calls, in order.

ghost use Rattle.std.specs.Prelude.{◌≡◌, ◌+◌, ◌≤◌, IfOk};
ghost use Rattle.sab_block.specs.Kind.{element_size};
ghost use Rattle.sab_block.specs.View.{kind_of, block_len_of, place};
ghost use Rattle.sab_block.specs.Check.{first_failed, Places};
ghost use Rattle.sab_plan.specs.Check.{checks, wait_checks, notify_checks};

use crate::call::Call;
use sab_block::{Check, Operand, View, access_place, agrees};

/// The first check that fails of a call on its view, by an agent that can block or can't.
pub fn failing_check(view: View, call: Call, can_block: bool) -> Option<Check>
    ensures { result ≡ first_failed (checks can_block view call) }
{
    match call {
        Call::Access { access, .. } => access_place(&view, &access).err(),
        Call::Wait { index, value, .. } => wait_place(view, index, value, can_block).err(),
        Call::Notify { index, .. } => notify_place(view, index).err(),
    }
}

/// The byte at which the element of a wait begins, or the first of the wait's checks that fails.
pub fn wait_place(view: View, index: i64, value: Operand, can_block: bool) -> Result<u32, Check>
    ensures place { Places (wait_checks can_block view index value) (place view index) result }
    ensures inside { IfOk result (λ p. p + element_size (kind_of view) ≤ block_len_of view) }
{
    let place = notify_place(view, index)?;
    if !agrees(view.kind(), value) {
        return Err(Check::Operand);
    }
    if !can_block {
        return Err(Check::CanBlock);
    }
    Ok(place)
}

/// The byte at which the element of a notify begins, or the first of the notify's checks that fails.
pub fn notify_place(view: View, index: i64) -> Result<u32, Check>
    ensures place { Places (notify_checks view index) (place view index) result }
    ensures inside { IfOk result (λ p. p + element_size (kind_of view) ≤ block_len_of view) }
{
    if !view.kind().is_waitable() {
        return Err(Check::WaitableKind);
    }
    match view.place(index) {
        Ok(place) => Ok(place),
        Err(_) => Err(Check::Index),
    }
}
