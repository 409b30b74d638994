//! Calls, from their tokens.

ghost use Rattle.std.specs.Prelude.{◌≡◌, IfOk, IfSome, codes};
ghost use Rattle.serde_json.specs.Data.{Items as Trees, array};
ghost use Rattle.sab_block.specs.RmwOp.{function_of_op};
ghost use Rattle.sab_reader.specs.Script.Calls.{spelling_of, SpellsParts, SpellsCall, SpellsCalls};
ghost use Rattle.sab_reader.specs.Script.Plain.{HoldsTree, HoldsItems};
ghost use Rattle.sab_reader.specs.Script.Views.{view_names};

use crate::script::calls::rmw_op;
use crate::script::plain::lists::{Miss, Scanner, scan_items};
use crate::script::plain::operands::{
    last_limit, last_operand, next_operand, next_text, next_whole, no_more_items,
};
use crate::script::views::Views;
use json::{Element, Items};
use sab_block::{Access, RmwOp};
use sab_plan::{Call, Plan};
use sab_refusal::Location;
use std::alloc::Global;

/// The read-modify-write operation of a call's name; `None` where there is none.
fn op_of(name: &str) -> Option<RmwOp>
    ensures { IfSome result (λ op. name.now ≡ function_of_op op) }
{
    rmw_op(Location::Script, name).ok()
}

/// A read-modify-write call, by its operation and its parts.
fn rmw_call(op: RmwOp, view: u32, index: i64, rest: &mut Items<'_, '_>) -> Option<Call>
    ensures { IfSome result
        (λ c. HoldsItems 0 (λ ds. SpellsParts (function_of_op op) view index ds (spelling_of c)) rest.old) }
{
    let value = last_operand(rest)?;
    let access = Access::Rmw { op, index, value };
    Some(Call::Access { view, access })
}

/// A wait, by its parts.
fn wait_call(view: u32, index: i64, rest: &mut Items<'_, '_>) -> Option<Call>
    ensures { IfSome result
        (λ c. HoldsItems 0 (λ ds. SpellsParts (codes "wait") view index ds (spelling_of c)) rest.old) }
{
    let value = next_operand(rest)?;
    let timeout = last_limit(rest)?;
    Some(Call::Wait {
        view,
        index,
        value,
        timeout,
    })
}

/// A compare-exchange, by its parts.
fn compare_exchange_call(view: u32, index: i64, rest: &mut Items<'_, '_>) -> Option<Call>
    ensures { IfSome result
        (λ c. HoldsItems 0 (λ ds. SpellsParts (codes "compareExchange") view index ds (spelling_of c)) rest.old) }
{
    let expected = next_operand(rest)?;
    let replacement = last_operand(rest)?;
    let access = Access::CompareExchange {
        index,
        expected,
        replacement,
    };
    Some(Call::Access { view, access })
}

/// A call, by its parts.
fn named_call(name: &str, view: u32, index: i64, rest: &mut Items<'_, '_>) -> Option<Call>
    ensures { IfSome result
        (λ c. HoldsItems 0 (λ ds. SpellsParts name.now view index ds (spelling_of c)) rest.old) }
{
    match name {
        "load" => {
            no_more_items(rest)?;
            let access = Access::Load { index };
            Some(Call::Access { view, access })
        }
        "store" => {
            let value = last_operand(rest)?;
            let access = Access::Store { index, value };
            Some(Call::Access { view, access })
        }
        "compareExchange" => compare_exchange_call(view, index, rest),
        "wait" => wait_call(view, index, rest),
        "notify" => {
            let count = last_limit(rest)?;
            Some(Call::Notify { view, index, count })
        }
        _ => rmw_call(op_of(name)?, view, index, rest),
    }
}

/// A call on one of the views; `None` where it is none.
fn scan_call(views: &Views, element: &Element<'_, '_>) -> Option<Call>
    ensures { IfSome result (λ c. HoldsTree 1 (λ d. SpellsCall (view_names views.now) d c) element.now) }
{
    let mut rest = element.items()?;
    let name = next_text(&mut rest)?;
    let view = views.position(next_text(&mut rest)?)?;
    let index = next_whole(&mut rest)?;
    named_call(name, view, index, &mut rest)
}

/// Reads a call on one of the views.
#[derive(Clone, Copy)]
struct CallScanner<'v> {
    views: &'v Views,
}

impl Scanner for CallScanner<'_> {
    type Item = Call;

    ghost nests = { λ _. 1 };

    ghost Spells = { λ scanner. SpellsCall (view_names scanner.views.now) };

    fn scan(&self, element: &Element<'_, '_>) -> Result<Call, Miss> {
        scan_call(self.views, element).ok_or(Miss::NotPlain)
    }
}

/// The calls of an agent, in order.
pub(crate) fn scan_calls(
    alloc: Global,
    views: &Views,
    element: &Element<'_, '_>,
) -> Result<Vec<Call>, Miss>
    ensures { IfOk result (λ calls. HoldsTree 2 (λ d. (ds : Trees) × (d ≡ array ds)
        × SpellsCalls (view_names views.now) ds calls.items) element.now) }
{
    let scanner = CallScanner { views };
    scan_items(alloc, &scanner, Plan::MAX_CALLS, element)
}
