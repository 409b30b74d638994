//! Calls.

ghost use Rattle.std.specs.Prelude.{◌≡◌, ◌⊎◌, ◌<◌, ℕ, IfErr, MatchOption};
ghost use Rattle.serde_json.specs.Data.{Data, array};
ghost use Rattle.serde_json.specs.View.{view, items_view};
ghost use Rattle.sab_block.specs.RmwOp.{function_of_op};
ghost use Rattle.sab_refusal.specs.declared.location.Location.TheVariants as L;
ghost use Rattle.sab_refusal.specs.declared.member.Member.TheVariants as M;
ghost use Rattle.sab_reader.specs.Script.Reading.{Finds};
ghost use Rattle.sab_reader.specs.Script.Views.{view_names};
ghost use Rattle.sab_plan.specs.declared.call.Call.{Call as Calls};
ghost use Rattle.sab_refusal.specs.Location.{item_at};
ghost use Rattle.sab_refusal.specs.Reason.{fault_of};
ghost use Rattle.sab_reader.specs.Script.Places.{IsNamed, Stands};
ghost use Rattle.sab_reader.specs.Script.Truth.{IsTrueWhere, IsTrueOf, HasItems};
ghost use Rattle.sab_reader.specs.Script.Known.{HasNames, HasArguments};
ghost use Rattle.sab_reader.specs.Script.Arguments.{IsNameOfRmw, TakesElements};
ghost use Rattle.sab_reader.specs.Script.Calls.{spelling_of, SpellsParts, SpellsCall, SpellsCalls};

use crate::script::elements::{Reader, read_each};
use crate::script::operands::{
    no_operand, one_operand, optional_limit, timed_operand, two_operands,
};
use crate::script::tree::{items, text, whole};
use crate::script::views::{Views, view_of};
use sab_block::{Access, RmwOp};
use sab_plan::{Call, Plan};
use sab_refusal::{Excerpt, Located, Location, ReadFault, Reason, Unit, Wanted};
use serde_json::Value;
use std::alloc::Global;

/// The read-modify-write operation of a call's name.
pub(crate) fn rmw_op(at: Location, name: &str) -> Result<RmwOp, Located>
    ensures found { Finds (λ op. op) (λ op. name.now ≡ function_of_op op) result }
    ensures reported { IfErr result (λ e. (root : Data) (i j : ℕ) → at ≡ Location.Call M.Agents i M.Calls j
        → IsNamed root i j name.now → IsNameOfRmw name.now → IsTrueOf root e) }
{
    match name {
        "exchange" => Ok(RmwOp::Exchange),
        "add" => Ok(RmwOp::Add),
        "sub" => Ok(RmwOp::Sub),
        "and" => Ok(RmwOp::And),
        "or" => Ok(RmwOp::Or),
        "xor" => Ok(RmwOp::Xor),
        _ => {
            let at = at.item(0);
            let why = Reason::NoCall(Excerpt::of(name));
            Err(Located { at, why })
        }
    }
}

/// A read-modify-write call, by its operation and its parts.
fn rmw_of(
    at: Location,
    op: RmwOp,
    view: u32,
    index: i64,
    operands: &[Value],
) -> Result<Call, Located>
    ensures found { Finds (λ c. c)
        (λ c. SpellsParts (function_of_op op) view index (items_view operands.now) (spelling_of c)) result }
    ensures reported { IfErr result (λ e. (root : Data)
        → HasArguments root at (function_of_op op) (items_view operands.now)
        → IsTrueOf root e) }
{
    let value = one_operand(at, operands)?;
    let access = Access::Rmw { op, index, value };
    Ok(Call::Access { view, access })
}

/// A call, by its parts.
fn call_of(
    at: Location,
    name: &str,
    view: u32,
    index: i64,
    operands: &[Value],
) -> Result<Call, Located>
    ensures found { Finds (λ c. c)
        (λ c. SpellsParts name.now view index (items_view operands.now) (spelling_of c)) result }
    ensures reported { IfErr result (λ e. (root : Data) → HasArguments root at name.now (items_view operands.now)
        → IsTrueOf root e) }
{
    match name {
        "load" => {
            no_operand(at, operands)?;
            let access = Access::Load { index };
            Ok(Call::Access { view, access })
        }
        "store" => {
            let value = one_operand(at, operands)?;
            let access = Access::Store { index, value };
            Ok(Call::Access { view, access })
        }
        "compareExchange" => {
            let (expected, replacement) = two_operands(at, operands)?;
            let access = Access::CompareExchange {
                index,
                expected,
                replacement,
            };
            Ok(Call::Access { view, access })
        }
        "wait" => {
            let (value, timeout) = timed_operand(at, operands)?;
            Ok(Call::Wait {
                view,
                index,
                value,
                timeout,
            })
        }
        "notify" => {
            let count = optional_limit(at, 0, operands)?;
            Ok(Call::Notify { view, index, count })
        }
        _ => rmw_of(at, rmw_op(at, name)?, view, index, operands),
    }
}

/// How many elements a call of a name has at least, and at most; `None` where no call has the name.
fn elements_of(name: &str) -> Option<(usize, usize)>
    ensures { MatchOption result ((call : Calls) → name.now ≡ (spelling_of call).name → ⊥)
        (λ p. TakesElements name.now p.0 p.1) }
{
    match name {
        "load" => Some((3, 3)),
        "store" => Some((4, 4)),
        "exchange" => Some((4, 4)),
        "add" => Some((4, 4)),
        "sub" => Some((4, 4)),
        "and" => Some((4, 4)),
        "or" => Some((4, 4)),
        "xor" => Some((4, 4)),
        "compareExchange" => Some((5, 5)),
        "wait" => Some((4, 5)),
        "notify" => Some((3, 4)),
        _ => None,
    }
}

/// A refusal of a call with this name that ends before its index.
fn short_call(at: Location, count: usize, name: &str) -> Located
    requires { count < 3 }
    ensures fault { fault_of result.why ≡ ReadFault.BadCall }
    ensures reported { (root : Data) (i j : ℕ) → at ≡ Location.Call M.Agents i M.Calls j → IsNamed root i j name.now
        → HasItems root at count → IsTrueOf root result }
{
    match elements_of(name) {
        Some((least, most)) => {
            let why = Reason::FewElements(count, least, most);
            Located { at, why }
        }
        None => {
            let why = Reason::NoCall(Excerpt::of(name));
            Located {
                at: at.item(0),
                why,
            }
        }
    }
}

/// A refusal of a call that ends before its index, by what is first in it.
fn cut_short(at: Location, count: usize, name_tree: &Value) -> Located
    requires { count < 3 }
    ensures fault { (fault_of result.why ≡ ReadFault.BadShape) ⊎ (fault_of result.why ≡ ReadFault.BadCall) }
    ensures reported { (root : Data) (i j : ℕ) → at ≡ Location.Call M.Agents i M.Calls j
        → Stands root (item_at at 0) (view name_tree.now) → HasItems root at count → IsTrueOf root result }
{
    match text(at.item(0), name_tree) {
        Ok(name) => short_call(at, count, name),
        Err(refusal) => refusal,
    }
}

/// A call on one of the views.
pub fn read_call(at: Location, views: &Views, tree: &Value) -> Result<Call, Located>
    ensures found { Finds (λ c. c) (SpellsCall (view_names views.now) (view tree.now)) result }
    ensures reported { IfErr result (IsTrueWhere at (view tree.now)
        (λ root. ((i : ℕ) × (j : ℕ) × (at ≡ Location.Call M.Agents i M.Calls j))
        × HasNames root (view_names views.now))) }
{
    let trees = items(at, tree)?;
    if trees.is_empty() {
        let why = Reason::EmptyCall;
        return Err(Located { at, why });
    }
    let [name_tree, view_tree, index_tree, operands @ ..] = trees else {
        return Err(cut_short(at, trees.len(), &trees[0]));
    };
    let name = text(at.item(0), name_tree)?;
    let view = view_of(at.item(1), views, view_tree)?;
    let index = whole(at.item(2), Wanted::Whole, index_tree)?;
    call_of(at, name, view, index, operands)
}

/// Reads a call on one of the views.
#[derive(Clone, Copy)]
struct CallReader<'a> {
    views: &'a Views,
}

impl Reader for CallReader<'_> {
    type Element = Call;

    ghost Spells = { λ reader. SpellsCall (view_names reader.views.now) };

    ghost Knows = { λ reader root at. ((i : ℕ) × (j : ℕ) × (at ≡ L.Call M.Agents i M.Calls j))
        × HasNames root (view_names reader.views.now) };

    fn read(&self, at: Location, tree: &Value) -> Result<Call, Located> {
        read_call(at, self.views, tree)
    }
}

/// The calls of an agent, in order.
pub(crate) fn read_calls(
    alloc: Global,
    at: Location,
    views: &Views,
    trees: &[Value],
) -> Result<Vec<Call>, Located>
    ensures found { Finds (λ calls. calls.items) (SpellsCalls (view_names views.now) (items_view trees.now)) result }
    ensures reported { IfErr result (IsTrueWhere at (array (items_view trees.now))
        (λ root. ((i : ℕ) × (at ≡ Location.Part M.Agents i M.Calls))
        × HasNames root (view_names views.now))) }
{
    let reader = CallReader { views };
    read_each(alloc, at, &reader, Unit::Calls, Plan::MAX_CALLS, trees)
}
