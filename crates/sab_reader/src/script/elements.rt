//! Items of an array, one after another.

ghost use Rattle.std.specs.Prelude.{◌≡◌, ℕ, IfErr};
ghost use Rattle.serde_json.specs.Data.{Data, array};
ghost use Rattle.serde_json.specs.View.{view, items_view};
ghost use Rattle.sab_refusal.specs.declared.location.Location.{Location as Place};
ghost use Rattle.sab_refusal.specs.Location.{item_at};
ghost use Rattle.sab_reader.specs.Script.Reading.{Finds, SpellsUpTo};
ghost use Rattle.sab_reader.specs.Script.Truth.{IsTrueWhere, IsListOf, limit_of};

use sab_refusal::{Located, Location, Reason, Unit};
use serde_json::Value;
use std::alloc::Global;

/// Reads an element of a list.
pub(crate) trait Reader {
    /// What an element is.
    type Element: Drop;

    /// What it is to spell an element.
    ghost Spells: { Self → Data → Self.Element → Type 0 };

    /// What has to be known of the script where an element is.
    ghost Knows: { Self → Data → Place → Type 0 };

    /// The element that a value there spells.
    fn read(&self, at: Location, tree: &Value) -> Result<Self::Element, Located>
        ensures found { Finds (λ x. x) (Spells self.now (view tree.now)) result }
        ensures reported { IfErr result (IsTrueWhere at (view tree.now) (λ root. Knows self.now root at)) };
}

/// The elements that the items of an array spell, in order, of which there may be `most`.
#[tactic(auto, using(crate::proofs::OfScript::Each::each_none, crate::proofs::OfScript::Each::each_more, crate::proofs::OfScript::Each::each_all))]
pub(crate) fn read_each<R: Reader>(
    alloc: Global,
    at: Location,
    reader: &R,
    unit: Unit,
    most: usize,
    trees: &[Value],
) -> Result<Vec<R::Element>, Located>
    ensures found { Finds (λ elements. elements.items) (SpellsUpTo most (R.Spells reader.now) (items_view trees.now))
        result }
    ensures reported { IfErr result (IsTrueWhere at (array (items_view trees.now))
        (λ root. IsListOf unit at × (most ≡ limit_of unit) × ((i : ℕ) → R.Knows reader.now root (item_at at i)))) }
{
    if trees.len() > most {
        let why = Reason::TooMany(unit, trees.len() as u64, most as u64);
        return Err(Located { at, why });
    }
    let mut elements = Vec::with_capacity(alloc, trees.len())?;
    for tree in trees {
        elements.push_reserved(reader.read(at.item(elements.len()), tree)?);
    }
    Ok(elements)
}
