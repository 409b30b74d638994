//! What the parts of a plan have to meet.

ghost use Rattle.std.specs.Prelude.{◌≡◌, ◌<◌, ◌≤◌, ◌↔◌, length, slice_get, Some, All, IsTrue};
ghost use Rattle.sab_block.specs.View.{block_len_of};
ghost use Rattle.sab_plan.specs.Call.{view_of};
ghost use Rattle.sab_plan.specs.Script.{ScriptParts};
ghost use Rattle.sab_plan.specs.Plan.{IsWithinLimits, NamesViews, parts_of};

use crate::call::Call;
use crate::plan::Plan;
use crate::plan_view::PlanView;
use crate::script::Script;

/// Whether nothing is more than its limit.
pub fn is_within_limits(lens: &[u32], views: &[PlanView], scripts: &[Script]) -> bool
    ensures { IsTrue result ↔ IsWithinLimits (parts_of lens.now views.now scripts.now) }
{
    lens.len() <= Plan::MAX_BLOCKS
        && views.len() <= Plan::MAX_VIEWS
        && scripts.len() <= Plan::MAX_AGENTS
        && are_short(lens)
        && have_few_calls(scripts)
}

/// Whether no block is too long.
fn are_short(lens: &[u32]) -> bool
    ensures { IsTrue result ↔ All (λ len. len ≤ 65536) lens.now }
{
    lens.iter().all(|&len| len <= Plan::MAX_BLOCK_LEN)
}

/// Whether no agent has too many calls.
fn have_few_calls(scripts: &[Script]) -> bool
    ensures { IsTrue result ↔ All (λ (s : ScriptParts). length s.calls ≤ 1000) scripts.now }
{
    scripts
        .iter()
        .all(|script| script.calls.len() <= Plan::MAX_CALLS)
}

/// Whether there is a block, and each view names one.
pub fn names_blocks(lens: &[u32], views: &[PlanView]) -> bool
    ensures { IsTrue result ↔ ((1 ≤ length lens.now) × All (λ (v : PlanView). v.block < length lens.now) views.now) }
{
    !lens.is_empty() && views.iter().all(|view| (view.block as usize) < lens.len())
}

/// Whether each view was made for its block's length, and each call names a view.
pub fn names_views(lens: &[u32], views: &[PlanView], scripts: &[Script]) -> bool
    ensures { IsTrue result ↔ NamesViews (parts_of lens.now views.now scripts.now) }
{
    fit_blocks(lens, views)
        && scripts
            .iter()
            .all(|script| are_on_views(&script.calls, views.len()))
}

/// Whether each view was made for its block's length.
fn fit_blocks(lens: &[u32], views: &[PlanView]) -> bool
    ensures { IsTrue result ↔ All (λ (v : PlanView). slice_get lens.now v.block
        ≡ Some (block_len_of v.view)) views.now }
{
    views.iter().all(|view| lens.get(view.block as usize) == Some(&view.view.block_len()))
}

/// Whether each call names one of so many views.
fn are_on_views(calls: &[Call], views: usize) -> bool
    ensures { IsTrue result ↔ All (λ call. view_of call < views) calls.now }
{
    calls.iter().all(|call| (call.view() as usize) < views)
}
