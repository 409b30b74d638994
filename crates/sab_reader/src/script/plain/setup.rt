//! Setups, from the tokens of a script.

ghost use Rattle.std.specs.Prelude.{IfOk, IfSome};
ghost use Rattle.json.specs.Find.{HasValue};
ghost use Rattle.sab_reader.specs.Script.Plain.{HoldsTree, HasScriptParts};
ghost use Rattle.sab_reader.specs.Script.Script.{IsScriptOf};
ghost use Rattle.sab_reader.specs.Script.Setup.{Spells};

use crate::script::form::Form;
use crate::script::plain::agents::scan_agents;
use crate::script::plain::blocks::scan_lens;
use crate::script::plain::lists::Miss;
use crate::script::plain::members::{are_named, only_member};
use crate::script::plain::schedule::scan_schedule;
use crate::script::plain::views::scan_views;
use crate::script::setup::{Setup, setup_by_parts};
use json::{Element, Error, Scratch, Tape};
use sab_refusal::Member;
use std::alloc::Global;
use std::str;

/// The values of a script's members.
#[derive(Drop)]
struct ScriptValues<'t, 'a> {
    agents: Element<'t, 'a>,
    lens: Element<'t, 'a>,
    schedule: Element<'t, 'a>,
    views: Element<'t, 'a>,
}

/// The values of the members of a script of one form; `None` if the value isn't an object of just these members.
fn values_in<'t, 'a>(form: Form, element: &Element<'t, 'a>) -> Option<ScriptValues<'t, 'a>>
    ensures { IfSome result (λ p. HasScriptParts form element.now p.agents p.lens p.schedule p.views) }
{
    let lens_member = form.lens_member();
    are_named(
        element,
        &[Member::Agents, lens_member, Member::Schedule, Member::Views],
    )?;
    let agents = only_member(element, Member::Agents)?;
    let lens = only_member(element, lens_member)?;
    let schedule = only_member(element, Member::Schedule)?;
    let views = only_member(element, Member::Views)?;
    Some(ScriptValues {
        agents,
        lens,
        schedule,
        views,
    })
}

/// The form of a script, and the values of its members; `None` if the value has neither form.
fn script_values<'t, 'a>(element: &Element<'t, 'a>) -> Option<(Form, ScriptValues<'t, 'a>)>
    ensures { IfSome result
        (λ p. HasScriptParts p.0 element.now p.1.agents p.1.lens p.1.schedule p.1.views) }
{
    match values_in(Form::Blocks, element) {
        Some(values) => Some((Form::Blocks, values)),
        None => Some((Form::Bytes, values_in(Form::Bytes, element)?)),
    }
}

/// The setup that a value spells.
fn scan_setup(alloc: Global, element: &Element<'_, '_>) -> Result<Setup, Miss>
    requires { HasValue element.now }
    ensures { IfOk result (λ setup. HoldsTree 5 (λ d. Spells d setup) element.now) }
{
    let Some((form, parts)) = script_values(element) else {
        return Err(Miss::NotPlain);
    };
    let lens = scan_lens(alloc, form, &parts.lens)?;
    let (views, plan_views) = scan_views(alloc, form, &lens, &parts.views)?;
    let scripts = scan_agents(alloc, &views, &parts.agents)?;
    let schedule = scan_schedule(alloc, scripts.len() as u32, &parts.schedule)?;
    Ok(setup_by_parts(lens, views, plan_views, scripts, schedule))
}

/// The setup that a plain script spells.
///
/// NotPlain where it isn't plain, or isn't a script at all.
pub(crate) fn plain_setup(alloc: Global, script: &[u8]) -> Result<Setup, Miss>
    ensures { IfOk result (IsScriptOf script.now) }
{
    let Ok(text) = str::from_utf8(script) else {
        return Err(Miss::NotPlain);
    };
    let mut scratch = Scratch::new(alloc);
    match Tape::parse(text, &mut scratch, Vec::new(alloc)) {
        Ok(tape) => scan_setup(alloc, &tape.root()),
        Err(Error::OutOfMemory) => Err(Miss::Memory),
        Err(_) => Err(Miss::NotPlain),
    }
}
