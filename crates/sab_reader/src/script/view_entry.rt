//! The views of a script, as its array has them.

ghost use Rattle.std.specs.Prelude.{◌≡◌, ◌<◌, ◌≤◌, ℕ, length, slice_get, IfOk, IfErr, OnErr, Some, None};
ghost use Rattle.serde_json.specs.Data.{Data, Members as MemberList, array};
ghost use Rattle.serde_json.specs.View.{view, items_view, members_view};
ghost use Rattle.sab_reader.specs.Script.Reading.{Refuses, Finds};
ghost use Rattle.sab_reader.specs.Script.Blocks.{with_block, IsBlockIn};
ghost use Rattle.sab_reader.specs.Script.Places.{form_of};
ghost use Rattle.sab_reader.specs.Script.Truth.{IsTrueOf, IsTrueWhere};
ghost use Rattle.sab_reader.specs.Script.Known.{HasLens};
ghost use Rattle.sab_reader.specs.Script.ViewPlaces.{HasBlocks, HasView, IsTrueOfView};
ghost use Rattle.sab_reader.specs.Script.Views.{description, count_on, SpellsDescription, SpellsView, SpellsViews};
ghost use Rattle.sab_reader.specs.Script.Views.{IsDescribed, AreDescribed};
ghost use Rattle.sab_refusal.specs.Reason.{fault_of};

use crate::script::form::Form;
use crate::script::misfit::misfit;
use crate::script::names::{is_name, kind};
use crate::script::tree::{Members, end, member, members, position, text, whole, whole_or_null};
use crate::script::view_spec::ViewSpec;
use crate::script::views::Views;
use sab_block::View;
use sab_plan::{Plan, PlanView};
use sab_refusal::{Counted, Excerpt, Located, Location, Member, Reason, Unit, Wanted};
use serde_json::Value;
use std::alloc::Global;

/// The block that the first of a view's members names; or the first of all, where no member names one.
fn read_block(at: Location, form: Form, blocks: u32, rest: &mut Members<'_>) -> Result<u32, Located>
    requires { 0 < blocks }
    ensures parts { IfOk result (λ block. members_view rest.old ≡ with_block form block (members_view rest.new)) }
    ensures form { IfOk result (IsBlockIn form) }
    ensures there { IfOk result (λ block. block < blocks) }
    ensures err { IfErr result (λ e. Refuses
        (λ (p : ℕ × MemberList). (members_view rest.old ≡ with_block form p.0 p.1) × (p.0 < blocks)) (fault_of e.why)) }
    ensures reported { IfErr result (IsTrueOfView at (members_view rest.old) (λ root. HasBlocks root form blocks)) }
{
    match form {
        Form::Bytes => Ok(0),
        Form::Blocks => {
            let block = member(at, rest, Member::Block)?;
            let at_block = at.member(Member::Block);
            position(at_block, Wanted::Whole, Counted::Block, blocks, block)
        }
    }
}

/// The values of a view's members: its kind, its length, its name and its offset.
fn description_members<'a>(
    at: Location,
    mut rest: Members<'a>,
) -> Result<(&'a Value, &'a Value, &'a Value, &'a Value), Located>
    ensures ok { IfOk result (λ p. members_view rest.entry
        ≡ description (view p.0.now) (view p.1.now) (view p.2.now) (view p.3.now)) }
    ensures err { OnErr result ((k l n o : Data) → members_view rest.entry ≡ description k l n o → ⊥) }
    ensures reported { IfErr result (λ e. (form : Form) (block : ℕ) → IsTrueOfView at
        (with_block form block (members_view rest.entry)) (λ root. form_of root ≡ form) e) }
{
    let kind = member(at, &mut rest, Member::Kind)?;
    let length = member(at, &mut rest, Member::Length)?;
    let name = member(at, &mut rest, Member::Name)?;
    let offset = member(at, &mut rest, Member::Offset)?;
    end(at, &mut rest)?;
    Ok((kind, length, name, offset))
}

/// The view of a plan that is described, made on one of the blocks.
pub(crate) fn plan_view(at: Location, lens: &[u32], spec: ViewSpec) -> Result<PlanView, Located>
    requires { spec.block < length lens.now }
    ensures made { IfOk result (IsDescribed lens.now spec) }
    ensures err { OnErr result (count_on lens.now spec ≡ None) }
    ensures reported { IfErr result (λ e. (root : Data) (i len : ℕ) → at ≡ Location.Item Member.Views i
        → slice_get lens.now spec.block ≡ Some len → HasView root i len spec → IsTrueOf root e) }
{
    let block = spec.block;
    let len = lens[block as usize];
    match View::new(spec.kind, len, spec.offset, spec.length) {
        Ok(view) => Ok(PlanView { block, view }),
        Err(_) => Err(misfit(at, len, spec)),
    }
}

/// A view's name, what it is on its block, and the view of a plan.
fn read_description<'a>(
    at: Location,
    lens: &[u32],
    block: u32,
    rest: Members<'a>,
) -> Result<(&'a str, ViewSpec, PlanView), Located>
    requires { block < length lens.now }
    ensures read { Finds (λ p. (p.0.now, p.1))
        (λ v. SpellsDescription lens.now (members_view rest.entry) v × (v.1.block ≡ block)) result }
    ensures made { IfOk result (λ p. IsDescribed lens.now p.1 p.2) }
    ensures reported { IfErr result (λ e. (form : Form) → IsBlockIn form block → IsTrueOfView at
        (with_block form block (members_view rest.entry)) (λ root. HasLens root form lens.now) e) }
{
    let (kind_tree, length_tree, name_tree, offset_tree) = description_members(at, rest)?;
    let at_kind = at.member(Member::Kind);
    let kind_word = text(at_kind, kind_tree)?;
    let kind = kind(at_kind, kind_word)?;
    let length = whole_or_null(at.member(Member::Length), length_tree)?;
    let at_name = at.member(Member::Name);
    let name = text(at_name, name_tree)?;
    let offset = whole(at.member(Member::Offset), Wanted::Whole, offset_tree)?;
    if !is_name(name) {
        let why = Reason::NameForm(Excerpt::of(name));
        return Err(Located { at: at_name, why });
    }
    let spec = ViewSpec {
        kind,
        offset,
        length,
        block,
    };
    let plan_view = plan_view(at, lens, spec)?;
    Ok((name, spec, plan_view))
}

/// A view's name, what it is, and the view of a plan.
fn read_view<'a>(
    at: Location,
    form: Form,
    lens: &[u32],
    tree: &'a Value,
) -> Result<(&'a str, ViewSpec, PlanView), Located>
    requires some { 0 < length lens.now }
    requires few { length lens.now ≤ Plan.MAX_BLOCKS }
    ensures read { Finds (λ p. (p.0.now, p.1)) (SpellsView form lens.now (view tree.now)) result }
    ensures made { IfOk result (λ p. IsDescribed lens.now p.1 p.2) }
    ensures reported { IfErr result (IsTrueWhere at (view tree.now)
        (λ root. ((i : ℕ) × (at ≡ Location.Item Member.Views i)) × HasLens root form lens.now)) }
{
    let mut rest = members(at, tree)?;
    let block = read_block(at, form, lens.len() as u32, &mut rest)?;
    read_description(at, lens, block, rest)
}

/// The views by name, and as a plan's on blocks of these lengths, in order.
#[tactic(auto, using(crate::proofs::OfScript::Each::each_none, crate::proofs::OfScript::Each::each_more, crate::proofs::OfScript::Each::each_all, crate::proofs::OfScript::ViewNames::none_are_views, crate::proofs::OfScript::KnownViews::stand_none))]
pub fn read_views(
    alloc: Global,
    at: Location,
    form: Form,
    lens: &[u32],
    trees: &[Value],
) -> Result<(Views, Vec<PlanView>), Located>
    requires some { 0 < length lens.now }
    requires few { length lens.now ≤ Plan.MAX_BLOCKS }
    ensures read { Finds (λ p. p.0) (SpellsViews form lens.now (items_view trees.now)) result }
    ensures made { IfOk result (λ p. AreDescribed lens.now p.0 p.1.items) }
    ensures reported { IfErr result (IsTrueWhere at (array (items_view trees.now))
        (λ root. (at ≡ Location.Member Member.Views) × HasLens root form lens.now)) }
{
    if trees.len() > Plan::MAX_VIEWS {
        let why = Reason::TooMany(Unit::Views, trees.len() as u64, Plan::MAX_VIEWS as u64);
        return Err(Located { at, why });
    }
    let mut views = Views::new(alloc);
    let mut plan_views = Vec::with_capacity(alloc, trees.len())?;
    for tree in trees {
        let at_view = at.item(plan_views.len());
        let (name, spec, plan_view) = read_view(at_view, form, lens, tree)?;
        if let Some(other) = views.position(name) {
            let why = Reason::Twice(Excerpt::of(name), other);
            let at = at_view.member(Member::Name);
            return Err(Located { at, why });
        }
        views.add(alloc, name, spec)?;
        plan_views.push_reserved(plan_view);
    }
    Ok((views, plan_views))
}
