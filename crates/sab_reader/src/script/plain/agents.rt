//! Agents, from their tokens.

ghost use Rattle.std.specs.Prelude.{◌≡◌, IfOk, IfSome};
ghost use Rattle.json.specs.Json.{Json};
ghost use Rattle.json.specs.Find.{BeginsWith};
ghost use Rattle.serde_json.specs.Data.{Items as Trees, boolean, array};
ghost use Rattle.sab_reader.specs.Script.Agents.{SpellsScript, SpellsScripts};
ghost use Rattle.sab_reader.specs.Script.Plain.{HoldsTree, IsObjectOf, agent_members};
ghost use Rattle.sab_reader.specs.Script.Views.{view_names};

use crate::script::plain::calls::scan_calls;
use crate::script::plain::lists::{Miss, Scanner, scan_items};
use crate::script::plain::members::{are_named, only_member};
use crate::script::views::Views;
use json::Element;
use sab_plan::{Plan, Script};
use sab_refusal::Member;
use std::alloc::Global;

/// The values of an agent's members: whether it can block, and its calls; `None` where the value has other members.
fn agent_values<'t, 'a>(element: &Element<'t, 'a>) -> Option<(Element<'t, 'a>, Element<'t, 'a>)>
    ensures { IfSome result (λ p. (j : Json) → BeginsWith element.now j
        → (b : Json) × (c : Json) × IsObjectOf (agent_members b c) j × BeginsWith p.0 b × BeginsWith p.1 c) }
{
    are_named(element, &[Member::Block, Member::Calls])?;
    let block = only_member(element, Member::Block)?;
    let calls = only_member(element, Member::Calls)?;
    Some((block, calls))
}

/// `true` or `false`; `None` where the value is neither.
fn scan_flag(element: &Element<'_, '_>) -> Option<bool>
    ensures { IfSome result (λ b. HoldsTree 0 (λ d. d ≡ boolean b) element.now) }
{
    let flag = element.as_bool()?;
    Some(flag)
}

/// Reads what an agent is to do, with the views that its calls are on.
#[derive(Clone, Copy)]
struct AgentScanner<'v> {
    alloc: Global,
    views: &'v Views,
}

impl Scanner for AgentScanner<'_> {
    type Item = Script;

    ghost nests = { λ _. 3 };

    ghost Spells = { λ scanner. SpellsScript (view_names scanner.views.now) };

    fn scan(&self, element: &Element<'_, '_>) -> Result<Script, Miss> {
        let Some((block, calls)) = agent_values(element) else {
            return Err(Miss::NotPlain);
        };
        let Some(can_block) = scan_flag(&block) else {
            return Err(Miss::NotPlain);
        };
        let calls = scan_calls(self.alloc, self.views, &calls)?;
        Ok(Script { can_block, calls })
    }
}

/// What the agents are to do, in order.
pub(crate) fn scan_agents(
    alloc: Global,
    views: &Views,
    element: &Element<'_, '_>,
) -> Result<Vec<Script>, Miss>
    ensures { IfOk result (λ scripts. HoldsTree 4 (λ d. (ds : Trees) × (d ≡ array ds)
        × SpellsScripts (view_names views.now) ds scripts.items) element.now) }
{
    let scanner = AgentScanner { alloc, views };
    scan_items(alloc, &scanner, Plan::MAX_AGENTS, element)
}
