//! Views by name.

ghost use Rattle.std.specs.Prelude.{◌≡◌, ◌<◌, ℕ, [], ◌∷◌, ◌++◌, length, slice_get, Some, IfSome, IfNone, IfOk, IfErr};
ghost use Rattle.std.specs.Prelude.{OnOk};
ghost use Rattle.sab_refusal.specs.declared.member.Member.TheVariants as M;
ghost use Rattle.sab_reader.specs.Script.Truth.{IsTrueWhere};
ghost use Rattle.sab_reader.specs.Script.Known.{HasNames};
ghost use Rattle.serde_json.specs.View.{view};
ghost use Rattle.sab_reader.specs.Script.Reading.{Finds};
ghost use Rattle.sab_reader.specs.Script.Views.{named_views, view_names, AreViews, SpellsName};

use crate::script::tree::text;
use crate::script::view_spec::ViewSpec;
use indexmap::IndexMap;
use sab_plan::Plan;
use sab_refusal::{Excerpt, Located, Location, Reason};
use serde_json::Value;
use std::alloc::{AllocError, Global};
use std::marker::Model;

/// What the views of a script are, by name and in order: at most 64, and no name twice.
#[derive(Drop)]
pub struct Views {
    by_name: IndexMap<String, ViewSpec>,
}

impl Model for Views {
    ghost use Rattle.std.specs.Prelude.{ℕ, List};
    ghost use Rattle.sab_reader.specs.declared.script.view_spec.ViewSpec.{ViewSpec};
    ghost use Rattle.sab_reader.specs.Script.Views.{named_views, AreViews};

    ghost Value = { List (List ℕ × ViewSpec) };

    ghost view = { λ s. named_views s.by_name };

    ghost invariant = { λ s. AreViews (named_views s.by_name) };
}

impl Views {
    /// No views.
    pub(crate) fn new(alloc: Global) -> Views
        ensures { result ≡ [] }
    {
        Views {
            by_name: IndexMap::new(alloc),
        }
    }

    /// The views, as a map.
    pub(crate) fn by_name(&self) -> &IndexMap<String, ViewSpec>
        ensures { named_views result.now ≡ self.now }
    {
        &self.by_name
    }

    /// The position of the view of a name.
    pub(crate) fn position(&self, name: &str) -> Option<u32>
        ensures some { IfSome result (λ v. slice_get (view_names self.now) v ≡ Some name.now) }
        ensures none { IfNone result ((v : ℕ) → slice_get (view_names self.now) v ≡ Some name.now → ⊥) }
        ensures views { AreViews self.now }
    {
        let position = self.by_name.get_index_of(name)?;
        Some(position as u32)
    }

    /// Appends a view with a new name.
    pub(crate) fn add(
        &mut self,
        alloc: Global,
        name: &str,
        spec: ViewSpec,
    ) -> Result<(), AllocError>
        requires room { length self.old < Plan.MAX_VIEWS }
        requires new { (v : ℕ) → slice_get (view_names self.old) v ≡ Some name.now → ⊥ }
        ensures added { OnOk result (self.new ≡ self.old ++ (name.now, spec) ∷ []) }
        ensures views { OnOk result (AreViews self.new) }
    {
        let name = String::from_str(alloc, name)?;
        self.by_name.insert(name, spec)?;
        Ok(())
    }
}

/// The position of the view that a value names.
pub(crate) fn view_of(at: Location, views: &Views, tree: &Value) -> Result<u32, Located>
    ensures read { Finds (λ v. v) (SpellsName (view_names views.now) (view tree.now)) result }
    ensures views { IfOk result (λ _. AreViews views.now) }
    ensures reported { IfErr result (IsTrueWhere at (view tree.now)
        (λ root. ((i : ℕ) × (j : ℕ) × (at ≡ Location.Element M.Agents i M.Calls j 1))
        × HasNames root (view_names views.now))) }
{
    let name = text(at, tree)?;
    match views.position(name) {
        Some(view) => Ok(view),
        None => {
            let why = Reason::NoView(Excerpt::of(name));
            Err(Located { at, why })
        }
    }
}
