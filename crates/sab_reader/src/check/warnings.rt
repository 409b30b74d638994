//! The warnings of a setup.

ghost use Rattle.std.specs.Prelude.{◌≡◌, ◌++◌, slice_get, OnOk, string_bytes};
ghost use Rattle.sab_plan.specs.Call.{view_of};
ghost use Rattle.sab_reader.specs.Script.Views.{named_views, view_names};
ghost use Rattle.sab_reader.specs.Check.Text.{name_in, call_lines, calls_lines, agents_lines};

use crate::check::cause::cause_of;
use crate::check::warning::Warning;
use crate::script::Setup;
use sab_plan::{Call, Script};
use std::alloc::AllocError;

/// The position of the view that a call names.
fn view_position(call: &Call) -> u32
    ensures { result ≡ view_of call.now }
{
    match call {
        Call::Access { view, .. } | Call::Wait { view, .. } | Call::Notify { view, .. } => *view,
    }
}

/// The name of the view at a position.
fn view_name(setup: &Setup, position: u32) -> &str
    ensures { result.now ≡ name_in (slice_get (view_names setup.now.views) position) }
{
    match setup.views().get_index(position as usize) {
        Some((name, _)) => name.as_str(),
        None => "",
    }
}

/// Appends the warning of a call, if there is one.
fn push_call(
    text: &mut String,
    setup: &Setup,
    can_block: bool,
    agent: usize,
    call: usize,
    what: &Call,
) -> Result<(), AllocError>
    ensures { OnOk result (string_bytes text.new
        ≡ string_bytes text.old ++ call_lines setup.now can_block agent call what.now) }
{
    let position = view_position(what);
    let Some(plan_view) = setup.plan().views().get(position as usize) else {
        return Ok(());
    };
    let Some(cause) = cause_of(can_block, plan_view.view, what) else {
        return Ok(());
    };
    let warning = Warning {
        agent,
        call,
        word: what.function(),
        view: view_name(setup, position),
        cause,
    };
    write!(text, "{warning}\n")
}

/// Appends the warnings of an agent's calls.
#[tactic(auto, using(crate::proofs::OfCheck::Lines::calls_after, crate::proofs::OfCheck::Lines::no_calls_left))]
fn push_calls(
    text: &mut String,
    setup: &Setup,
    agent: usize,
    script: &Script,
) -> Result<(), AllocError>
    ensures { OnOk result (string_bytes text.new
        ≡ string_bytes text.old ++ calls_lines setup.now script.now.can_block agent 0 script.now.calls) }
{
    for (call, what) in script.calls.iter().enumerate() {
        push_call(text, setup, script.can_block, agent, call, what)?;
    }
    Ok(())
}

/// Appends the warnings of all calls.
#[tactic(auto, using(crate::proofs::OfCheck::Lines::agents_after, crate::proofs::OfCheck::Lines::no_agents_left))]
pub(crate) fn push_warnings(text: &mut String, setup: &Setup) -> Result<(), AllocError>
    ensures { OnOk result (string_bytes text.new
        ≡ string_bytes text.old ++ agents_lines setup.now 0 setup.now.plan.scripts) }
{
    for (agent, script) in setup.plan().scripts().iter().enumerate() {
        push_calls(text, setup, agent, script)?;
    }
    Ok(())
}
