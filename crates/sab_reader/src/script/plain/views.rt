//! Views, from their tokens.

ghost use Rattle.std.specs.Prelude.{◌≡◌, ◌<◌, ◌≤◌, IfOk, IfSome, length as count};
ghost use Rattle.serde_json.specs.Data.{Items as Trees, array, string};
ghost use Rattle.sab_block.specs.Kind.{kind_name};
ghost use Rattle.sab_reader.specs.Script.Numbers.{SpellsOptional};
ghost use Rattle.sab_reader.specs.Script.Plain.{HoldsTree, HoldsBlock, HoldsDescription};
ghost use Rattle.sab_reader.specs.Script.Views.{IsName, SpellsView, SpellsViews, IsDescribed, AreDescribed};

use crate::script::form::Form;
use crate::script::names::{is_name, kind};
use crate::script::plain::lists::Miss;
use crate::script::plain::members::{are_named, only_member};
use crate::script::plain::numbers::{scan_position, scan_whole};
use crate::script::view_entry::plan_view;
use crate::script::view_spec::ViewSpec;
use crate::script::views::Views;
use json::Element;
use sab_block::Kind;
use sab_plan::{Plan, PlanView};
use sab_refusal::{Location, Member};
use std::alloc::{AllocError, Global};

/// The kind of a name; `None` where there is none.
fn kind_named(name: &str) -> Option<Kind>
    ensures { IfSome result (λ k. name.now ≡ kind_name k) }
{
    kind(Location::Script, name).ok()
}

/// The kind that a value names; `None` where it names none.
fn scan_kind(element: &Element<'_, '_>) -> Option<Kind>
    ensures { IfSome result (λ k. HoldsTree 0 (λ d. d ≡ string (kind_name k)) element.now) }
{
    kind_named(element.as_str()?)
}

/// The length of a view, or null for none; `None` where the value is neither.
fn scan_length(element: &Element<'_, '_>) -> Option<Option<i64>>
    ensures { IfSome result (λ o. HoldsTree 0 (λ d. SpellsOptional d o) element.now) }
{
    if element.is_null() {
        Some(None)
    } else {
        Some(Some(scan_whole(element)?))
    }
}

/// The name of a view; `None` where the value is none that a view can have.
fn scan_name<'a>(element: &Element<'_, 'a>) -> Option<&'a str>
    ensures { IfSome result (λ s. HoldsTree 0 (λ d. d ≡ string s.now) element.now × IsName s.now) }
{
    let name = element.as_str()?;
    if is_name(name) { Some(name) } else { None }
}

/// The view of a plan that is described; `None` where it can't be made on its block.
fn view_on(lens: &[u32], spec: ViewSpec) -> Option<PlanView>
    requires { spec.block < count lens.now }
    ensures { IfSome result (IsDescribed lens.now spec) }
{
    plan_view(Location::Script, lens, spec).ok()
}

/// The position of a view's block, of so many blocks: the first, if a view of this form has none; `None` if the
/// value is no such position.
fn scan_block(form: Form, blocks: u32, element: &Element<'_, '_>) -> Option<u32>
    requires { 0 < blocks }
    ensures reported { IfSome result (HoldsBlock form element.now) }
    ensures there { IfSome result (λ block. block < blocks) }
{
    match form {
        Form::Bytes => Some(0),
        Form::Blocks => scan_position(blocks, &only_member(element, Member::Block)?),
    }
}

/// A view's name, and what it is on a block, by the members of a value; `None` if they spell no view.
fn scan_description<'a>(block: u32, element: &Element<'_, 'a>) -> Option<(&'a str, ViewSpec)>
    ensures reported { IfSome result (λ p. HoldsDescription element.now (p.0.now, p.1)) }
    ensures block { IfSome result (λ p. p.1.block ≡ block) }
{
    let kind = scan_kind(&only_member(element, Member::Kind)?)?;
    let length = scan_length(&only_member(element, Member::Length)?)?;
    let name = scan_name(&only_member(element, Member::Name)?)?;
    let offset = scan_whole(&only_member(element, Member::Offset)?)?;
    let spec = ViewSpec {
        kind,
        offset,
        length,
        block,
    };
    Some((name, spec))
}

/// A view's name, what it is, and the view of a plan; `None` if the value spells none in this form.
fn scan_view<'a>(
    form: Form,
    lens: &[u32],
    element: &Element<'_, 'a>,
) -> Option<(&'a str, ViewSpec, PlanView)>
    requires some { 0 < count lens.now }
    requires few { count lens.now ≤ Plan.MAX_BLOCKS }
    ensures read { IfSome result (λ p. HoldsTree 1 (λ d. SpellsView form lens.now d (p.0.now, p.1)) element.now) }
    ensures made { IfSome result (λ p. IsDescribed lens.now p.1 p.2) }
{
    are_named(element, form.view_members())?;
    let block = scan_block(form, lens.len() as u32, element)?;
    let (name, spec) = scan_description(block, element)?;
    let plan_view = view_on(lens, spec)?;
    Some((name, spec, plan_view))
}

/// The views by name, and as a plan's on blocks of these lengths, in order.
pub(crate) fn scan_views(
    alloc: Global,
    form: Form,
    lens: &[u32],
    element: &Element<'_, '_>,
) -> Result<(Views, Vec<PlanView>), Miss>
    requires some { 0 < count lens.now }
    requires few { count lens.now ≤ Plan.MAX_BLOCKS }
    ensures read { IfOk result (λ p. HoldsTree 2 (λ d. (ds : Trees) × (d ≡ array ds)
        × SpellsViews form lens.now ds p.0) element.now) }
    ensures made { IfOk result (λ p. AreDescribed lens.now p.0 p.1.items) }
{
    let Some(mut items) = element.items() else {
        return Err(Miss::NotPlain);
    };
    let mut views = Views::new(alloc);
    let mut plan_views = Vec::new(alloc);
    while let Some(item) = items.next() {
        let Some((name, spec, plan_view)) = scan_view(form, lens, &item) else {
            return Err(Miss::NotPlain);
        };
        if plan_views.len() >= Plan::MAX_VIEWS || views.position(name).is_some() {
            return Err(Miss::NotPlain);
        }
        views.add(alloc, name, spec)?;
        if let Err(e) = plan_views.push(plan_view) {
            return Err(AllocError::from(e).into());
        }
    }
    Ok((views, plan_views))
}
