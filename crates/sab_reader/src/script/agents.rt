//! Agents.

ghost use Rattle.std.specs.Prelude.{◌≡◌, ℕ, IfErr, IfOk, OnErr};
ghost use Rattle.serde_json.specs.Data.{Data, array};
ghost use Rattle.serde_json.specs.View.{view, items_view};
ghost use Rattle.sab_refusal.specs.declared.location.Location.TheVariants as L;
ghost use Rattle.sab_refusal.specs.declared.member.Member.TheVariants as M;
ghost use Rattle.sab_reader.specs.Script.Reading.{Finds};
ghost use Rattle.sab_reader.specs.Script.Views.{view_names};
ghost use Rattle.sab_reader.specs.Script.Agents.{agent_object, SpellsScript, SpellsScripts};
ghost use Rattle.sab_refusal.specs.Reason.{fault_of};
ghost use Rattle.sab_reader.specs.Script.Truth.{IsTrueWhere};
ghost use Rattle.sab_reader.specs.Script.Known.{HasNames};

use crate::script::calls::read_calls;
use crate::script::elements::{Reader, read_each};
use crate::script::tree::{end, flag, items, member, members};
use crate::script::views::Views;
use sab_plan::{Plan, Script};
use sab_refusal::{Located, Location, Member, ReadFault, Unit};
use serde_json::Value;
use std::alloc::Global;

/// The members of an agent.
fn agent_members(at: Location, tree: &Value) -> Result<(&Value, &Value), Located>
    ensures ok { IfOk result (λ p. view tree.now ≡ agent_object (view p.0.now) (view p.1.now)) }
    ensures err { OnErr result ((block calls : Data) → view tree.now ≡ agent_object block calls → ⊥) }
    ensures fault { IfErr result (λ e. fault_of e.why ≡ ReadFault.BadShape) }
    ensures place { IfErr result (λ e. e.at ≡ at) }
    ensures reported { IfErr result (IsTrueWhere at (view tree.now)
        (λ root. (i : ℕ) × (at ≡ Location.Item Member.Agents i))) }
{
    let mut rest = members(at, tree)?;
    let block = member(at, &mut rest, Member::Block)?;
    let calls = member(at, &mut rest, Member::Calls)?;
    end(at, &mut rest)?;
    Ok((block, calls))
}

/// Reads what an agent is to do, with the views that its calls are on.
#[derive(Clone, Copy)]
struct AgentReader<'a> {
    alloc: Global,
    views: &'a Views,
}

impl Reader for AgentReader<'_> {
    type Element = Script;

    ghost Spells = { λ reader. SpellsScript (view_names reader.views.now) };

    ghost Knows = { λ reader root at. ((i : ℕ) × (at ≡ L.Item M.Agents i))
        × HasNames root (view_names reader.views.now) };

    fn read(&self, at: Location, tree: &Value) -> Result<Script, Located> {
        let (block_tree, calls_tree) = agent_members(at, tree)?;
        let can_block = flag(at.member(Member::Block), block_tree)?;
        let at_calls = at.member(Member::Calls);
        let trees = items(at_calls, calls_tree)?;
        let calls = read_calls(self.alloc, at_calls, self.views, trees)?;
        Ok(Script { can_block, calls })
    }
}

/// What the agents are to do, in order.
pub(crate) fn read_agents(
    alloc: Global,
    at: Location,
    views: &Views,
    trees: &[Value],
) -> Result<Vec<Script>, Located>
    ensures found { Finds (λ scripts. scripts.items) (SpellsScripts (view_names views.now) (items_view trees.now))
        result }
    ensures reported { IfErr result (IsTrueWhere at (array (items_view trees.now))
        (λ root. (at ≡ Location.Member Member.Agents) × HasNames root (view_names views.now))) }
{
    let reader = AgentReader { alloc, views };
    read_each(alloc, at, &reader, Unit::Agents, Plan::MAX_AGENTS, trees)
}
