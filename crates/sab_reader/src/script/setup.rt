//! Setups, and the scripts that spell them.

ghost use Rattle.std.specs.Prelude.{◌≡◌, IfOk, IfErr, OnErr};
ghost use Rattle.serde_json.specs.Data.{Data, array};
ghost use Rattle.serde_json.specs.View.{view, items_view};
ghost use Rattle.sab_plan.specs.Plan.{IsPlan, parts_of};
ghost use Rattle.sab_refusal.specs.declared.read_fault.ReadFault.TheVariants.{OutOfMemory};
ghost use Rattle.sab_refusal.specs.Reason.{fault_of};
ghost use Rattle.sab_reader.specs.Script.Reading.{Refuses, Reads, Finds};
ghost use Rattle.sab_reader.specs.Script.Views.{named_views, AreDescribed};
ghost use Rattle.sab_reader.specs.Script.Setup.{IsSetup, Spells, IsOnlySetup, script_object};
ghost use Rattle.sab_reader.specs.Script.Places.{form_of};
ghost use Rattle.sab_reader.specs.Script.Truth.{IsTrueOf, IsTrueFault};

use crate::script::agents::read_agents;
use crate::script::blocks::read_lens;
use crate::script::form::Form;
use crate::script::schedule::read_schedule;
use crate::script::tree::{end, items, member, members};
use crate::script::view_entry::read_views;
use crate::script::view_spec::ViewSpec;
use crate::script::views::Views;
use indexmap::IndexMap;
use sab_plan::{Move, Plan, PlanView, Script};
use sab_refusal::{Located, Location, Member, ReadFault};
use serde_json::Value;
use std::alloc::Global;
use std::marker::Model;

/// What a script says: a plan, what its views are called, and a schedule.
///
/// View i of the plan is the one that entry i of the views describes.
#[derive(Drop)]
pub struct Setup {
    plan: Plan,
    views: Views,
    schedule: Vec<Move>,
}

impl Model for Setup {
    ghost use Rattle.sab_reader.specs.Script.Setup.{SetupParts, IsSetup};

    ghost Value = { SetupParts };

    ghost view = { λ s. record { plan = s.plan; views = s.views; schedule = s.schedule.items } };

    ghost invariant = { λ s. IsSetup (record { plan = s.plan; views = s.views; schedule = s.schedule.items }) };
}

impl Setup {
    /// The plan.
    pub fn plan(&self) -> &Plan
        ensures plan { result.now ≡ self.now.plan }
        ensures valid { IsSetup self.now }
    {
        &self.plan
    }

    /// The views by name, in the order of the plan's.
    pub fn views(&self) -> &IndexMap<String, ViewSpec>
        ensures views { named_views result.now ≡ self.now.views }
        ensures valid { IsSetup self.now }
    {
        self.views.by_name()
    }

    /// The moves, in order.
    pub fn schedule(&self) -> &[Move]
        ensures { result.now ≡ self.now.schedule }
    {
        self.schedule.as_slice()
    }

    /// The plan and the moves.
    pub fn into_parts(self) -> (Plan, Vec<Move>)
        ensures plan { result.0 ≡ self.plan }
        ensures schedule { result.1.items ≡ self.schedule }
    {
        (self.plan, self.schedule)
    }
}

/// The values of a script's members: its agents, its blocks, its schedule and its views; and its form.
fn script_members(tree: &Value) -> Result<(Form, (&Value, &Value, &Value, &Value)), Located>
    ensures ok { IfOk result (λ p. view tree.now
        ≡ script_object p.0 (view p.1.0.now) (view p.1.1.now) (view p.1.2.now) (view p.1.3.now)) }
    ensures err { OnErr result ((form : Form) (a l s v : Data) → view tree.now ≡ script_object form a l s v → ⊥) }
    ensures form { IfOk result (λ p. form_of (view tree.now) ≡ p.0) }
    ensures reported { IfErr result (IsTrueOf (view tree.now)) }
{
    match members_in(tree, Form::Blocks) {
        Ok(found) => Ok((Form::Blocks, found)),
        Err(refusal) => match members_in(tree, Form::Bytes) {
            Ok(found) => Ok((Form::Bytes, found)),
            // A script with `bytes` is meant to be of the older form.
            Err(older) => Err(if tree.get("bytes").is_some() {
                older
            } else {
                refusal
            }),
        },
    }
}

/// The values of the members of a script of one form: its agents, its blocks, its schedule and its views.
fn members_in(tree: &Value, form: Form) -> Result<(&Value, &Value, &Value, &Value), Located>
    ensures ok { IfOk result (λ p. view tree.now
        ≡ script_object form (view p.0.now) (view p.1.now) (view p.2.now) (view p.3.now)) }
    ensures err { OnErr result ((a l s v : Data) → view tree.now ≡ script_object form a l s v → ⊥) }
    ensures reported { IfErr result (λ e. form_of (view tree.now) ≡ form → IsTrueOf (view tree.now) e) }
{
    let at = Location::Script;
    let mut rest = members(at, tree)?;
    let agents = member(at, &mut rest, Member::Agents)?;
    let lens = member(at, &mut rest, form.lens_member())?;
    let schedule = member(at, &mut rest, Member::Schedule)?;
    let views = member(at, &mut rest, Member::Views)?;
    end(at, &mut rest)?;
    Ok((agents, lens, schedule, views))
}

/// The values of a script's members, of which its agents, its schedule and its views are arrays; and its form.
fn script_parts(tree: &Value) -> Result<(Form, (&[Value], &Value, &[Value], &[Value])), Located>
    ensures ok { IfOk result (λ p. view tree.now ≡ script_object p.0 (array (items_view p.1.0.now)) (view p.1.1.now)
        (array (items_view p.1.2.now)) (array (items_view p.1.3.now))) }
    ensures err { IfErr result (λ e. Refuses (Spells (view tree.now)) (fault_of e.why)) }
    ensures form { IfOk result (λ p. form_of (view tree.now) ≡ p.0) }
    ensures reported { IfErr result (IsTrueOf (view tree.now)) }
{
    let (form, (agents, lens, schedule, views)) = script_members(tree)?;
    let agents = items(Location::Member(Member::Agents), agents)?;
    let schedule = items(Location::Member(Member::Schedule), schedule)?;
    let views = items(Location::Member(Member::Views), views)?;
    Ok((form, (agents, lens, schedule, views)))
}

/// A plan of parts that make one.
fn plan_of(lens: Vec<u32>, views: Vec<PlanView>, scripts: Vec<Script>) -> Plan
    requires { IsPlan (parts_of lens.items views.items scripts.items) }
    ensures { result ≡ parts_of lens.items views.items scripts.items }
{
    match Plan::new(lens, views, scripts) {
        Ok(plan) => plan,
        Err(_) => unreachable!(),
    }
}

/// A setup of parts that make one.
pub(crate) fn setup_by_parts(
    lens: Vec<u32>,
    views: Views,
    plan_views: Vec<PlanView>,
    scripts: Vec<Script>,
    schedule: Vec<Move>,
) -> Setup
    requires plan { IsPlan (parts_of lens.items plan_views.items scripts.items) }
    requires made { AreDescribed lens.items views plan_views.items }
    ensures { result ≡ record {
      plan = parts_of lens.items plan_views.items scripts.items;
      views = views;
      schedule = schedule.items;
    } }
{
    let plan = plan_of(lens, plan_views, scripts);
    Setup {
        plan,
        views,
        schedule,
    }
}

/// The one setup that a JSON value spells, in either form of a script; or where it isn't one, and why.
///
/// A fault other than OutOfMemory is returned only where the value spells none.
pub fn locate_setup(alloc: Global, tree: &Value) -> Result<Setup, Located>
    ensures spelled { Finds (λ setup. setup) (Spells (view tree.now)) result }
    ensures only { IfOk result (IsOnlySetup (view tree.now)) }
    ensures reported { IfErr result (IsTrueOf (view tree.now)) }
{
    let (form, (agent_trees, lens_tree, move_trees, view_trees)) = script_parts(tree)?;
    let at_agents = Location::Member(Member::Agents);
    let at_schedule = Location::Member(Member::Schedule);
    let at_views = Location::Member(Member::Views);
    let lens = read_lens(alloc, Location::Member(form.lens_member()), form, lens_tree)?;
    let (views, plan_views) = read_views(alloc, at_views, form, &lens, view_trees)?;
    let scripts = read_agents(alloc, at_agents, &views, agent_trees)?;
    let schedule = read_schedule(alloc, at_schedule, scripts.len() as u32, move_trees)?;
    Ok(setup_by_parts(lens, views, plan_views, scripts, schedule))
}

/// The one setup that a JSON value spells, in either form of a script.
///
/// A fault other than OutOfMemory is returned only where the value spells none.
pub fn read_setup(alloc: Global, tree: &Value) -> Result<Setup, ReadFault>
    ensures spelled { Reads (λ setup. setup) (Spells (view tree.now)) result }
    ensures only { IfOk result (IsOnlySetup (view tree.now)) }
    ensures reported { IfErr result (IsTrueFault (view tree.now)) }
{
    match locate_setup(alloc, tree) {
        Ok(setup) => Ok(setup),
        Err(refusal) => Err(refusal.fault()),
    }
}
