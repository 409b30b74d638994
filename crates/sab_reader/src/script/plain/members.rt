//! Members of objects, from their tokens.

ghost use Rattle.std.specs.Prelude.{◌≡◌, IfSome, OnSome, IsTrue, map};
ghost use Rattle.json.specs.Json.{Json, Members as TextMembers, object};
ghost use Rattle.json.specs.Find.{BeginsWith};
ghost use Rattle.sab_refusal.specs.Location.{member_name};
ghost use Rattle.sab_reader.specs.Script.Plain.{IsAmong, AreNamed, HasOnly};

use json::Element;
use sab_refusal::Member;

/// That a value is an object, each member of which has one of these names; else `None`.
pub(crate) fn are_named(element: &Element<'_, '_>, names: &[Member]) -> Option<()>
    ensures { OnSome result ((j : Json) → BeginsWith element.now j
        → (ms : TextMembers) × (j ≡ object ms) × AreNamed (map member_name names.now) ms) }
{
    let mut rest = element.members()?;
    while let Some((name, _)) = rest.next() {
        if !is_among(name, names) {
            return None;
        }
    }
    Some(())
}

/// Whether a name is one of these.
fn is_among(name: &str, names: &[Member]) -> bool
    ensures { IsTrue result → IsAmong name.now (map member_name names.now) }
{
    for it in names {
        if it.name() == name {
            return true;
        }
    }
    false
}

/// The value of the only member of this name; `None` where there is none, or more than one.
pub(crate) fn only_member<'t, 'a>(
    element: &Element<'t, 'a>,
    name: Member,
) -> Option<Element<'t, 'a>>
    ensures { IfSome result (λ value. (ms : TextMembers) → BeginsWith element.now (object ms)
        → (j : Json) × HasOnly (member_name name) j ms × BeginsWith value j) }
{
    let mut rest = element.members()?;
    let mut only = None;
    while let Some((found, value)) = rest.next() {
        if found == name.name() {
            if only.is_some() {
                return None;
            }
            only = Some(value);
        }
    }
    only
}
