//! Parts of a JSON tree.

ghost use Rattle.std.specs.Prelude.{◌≡◌, ◌⊎◌, IfOk, IfErr, OnOk, OnErr};
ghost use Rattle.serde_json.specs.Data.{Data, Members as MemberList, string, boolean, array, object, no_members};
ghost use Rattle.serde_json.specs.Data.{member as member_then};
ghost use Rattle.serde_json.specs.View.{view, items_view, members_view};
ghost use Rattle.sab_reader.specs.Script.Reading.{Finds};
ghost use Rattle.sab_refusal.specs.Location.{member_name};
ghost use Rattle.sab_reader.specs.Script.Numbers.{SpellsWhole, SpellsOptional, SpellsPosition};
ghost use Rattle.sab_refusal.specs.Reason.{fault_of, fault_beyond};
ghost use Rattle.sab_reader.specs.Script.Places.{CallsFor};
ghost use Rattle.sab_reader.specs.Script.Truth.{IsTrueWhere, IsCountedAt};
ghost use Rattle.sab_reader.specs.Script.Known.{AreInOrder, IsFirst, LackMember, IsNumberAs};

use crate::script::numbers::no_whole;
use sab_block::Operand;
use sab_refusal::{Counted, Excerpt, Located, Location, Member, ReadFault, Reason, Wanted};
use serde_json::Value;
use std::collections::btree_map::Iter;

/// The members of an object that are not yet read, in the order of their names.
pub(crate) type Members<'a> = Iter<'a, String, Value>;

/// A whole number within ±(2^53 - 1), where `wanted` is called for.
pub(crate) fn whole(at: Location, wanted: Wanted, tree: &Value) -> Result<i64, Located>
    ensures reads { Finds (λ z. z) (SpellsWhole (view tree.now)) result }
    ensures fault { IfErr result (λ e. (fault_of e.why ≡ ReadFault.BadShape) ⊎ (fault_of e.why ≡ ReadFault.BadNumber)) }
    ensures place { IfErr result (λ e. e.at ≡ at) }
    ensures reported { IfErr result (IsTrueWhere at (view tree.now)
        (λ root. CallsFor root at wanted × IsNumberAs wanted (view tree.now))) }
{
    let Value::Number(number) = tree else {
        let why = Reason::Type(wanted);
        return Err(Located { at, why });
    };
    match number.as_i64() {
        Some(n) if -Operand::MAX_SAFE_INTEGER <= n && n <= Operand::MAX_SAFE_INTEGER => Ok(n),
        _ => Err(no_whole(at, wanted, number)),
    }
}

/// The position of one of `count`, where `wanted` is called for.
pub(crate) fn position(
    at: Location,
    wanted: Wanted,
    counted: Counted,
    count: u32,
    tree: &Value,
) -> Result<u32, Located>
    ensures reads { Finds (λ n. n) (SpellsPosition count (view tree.now)) result }
    ensures fault { IfErr result (λ e. (fault_of e.why ≡ fault_beyond counted)
        ⊎ ((fault_of e.why ≡ ReadFault.BadShape) ⊎ (fault_of e.why ≡ ReadFault.BadNumber))) }
    ensures place { IfErr result (λ e. e.at ≡ at) }
    ensures reported { IfErr result (IsTrueWhere at (view tree.now)
        (λ root. CallsFor root at wanted × IsNumberAs wanted (view tree.now) × IsCountedAt root at counted count)) }
{
    let n = whole(at, wanted, tree)?;
    if n < 0 || n >= i64::from(count) {
        let why = Reason::Beyond(counted, n, count);
        return Err(Located { at, why });
    }
    Ok(n as u32)
}

/// A whole number, or null for none.
pub(crate) fn whole_or_null(at: Location, tree: &Value) -> Result<Option<i64>, Located>
    ensures reads { Finds (λ z. z) (SpellsOptional (view tree.now)) result }
    ensures fault { IfErr result (λ e. (fault_of e.why ≡ ReadFault.BadShape) ⊎ (fault_of e.why ≡ ReadFault.BadNumber)) }
    ensures place { IfErr result (λ e. e.at ≡ at) }
    ensures reported { IfErr result (IsTrueWhere at (view tree.now) (λ root. CallsFor root at Wanted.WholeOrNull)) }
{
    if let Value::Null = tree {
        return Ok(None);
    }
    Ok(Some(whole(at, Wanted::WholeOrNull, tree)?))
}

/// A string.
pub(crate) fn text(at: Location, tree: &Value) -> Result<&str, Located>
    ensures reads { Finds (λ s. s.now) (λ s. view tree.now ≡ string s) result }
    ensures fault { IfErr result (λ e. fault_of e.why ≡ ReadFault.BadShape) }
    ensures place { IfErr result (λ e. e.at ≡ at) }
    ensures reported { IfErr result (IsTrueWhere at (view tree.now) (λ root. CallsFor root at Wanted.Text)) }
{
    let why = Reason::Type(Wanted::Text);
    tree.as_str().ok_or(Located { at, why })
}

/// `true` or `false`.
pub(crate) fn flag(at: Location, tree: &Value) -> Result<bool, Located>
    ensures reads { Finds (λ b. b) (λ b. view tree.now ≡ boolean b) result }
    ensures fault { IfErr result (λ e. fault_of e.why ≡ ReadFault.BadShape) }
    ensures place { IfErr result (λ e. e.at ≡ at) }
    ensures reported { IfErr result (IsTrueWhere at (view tree.now) (λ root. CallsFor root at Wanted.Flag)) }
{
    let why = Reason::Type(Wanted::Flag);
    tree.as_bool().ok_or(Located { at, why })
}

/// The items of an array.
pub(crate) fn items(at: Location, tree: &Value) -> Result<&[Value], Located>
    ensures reads { Finds (λ trees. items_view trees.now) (λ trees. view tree.now ≡ array trees) result }
    ensures fault { IfErr result (λ e. fault_of e.why ≡ ReadFault.BadShape) }
    ensures place { IfErr result (λ e. e.at ≡ at) }
    ensures reported { IfErr result (IsTrueWhere at (view tree.now) (λ root. CallsFor root at Wanted.Array)) }
{
    match tree.as_array() {
        Some(items) => Ok(items.as_slice()),
        None => {
            let why = Reason::Type(Wanted::Array);
            Err(Located { at, why })
        }
    }
}

/// The members of an object.
pub(crate) fn members(at: Location, tree: &Value) -> Result<Members<'_>, Located>
    ensures ok { IfOk result (λ rest. view tree.now ≡ object (members_view rest)) }
    ensures err { OnErr result ((rest : MemberList) → view tree.now ≡ object rest → ⊥) }
    ensures fault { IfErr result (λ e. fault_of e.why ≡ ReadFault.BadShape) }
    ensures place { IfErr result (λ e. e.at ≡ at) }
    ensures reported { IfErr result (IsTrueWhere at (view tree.now) (λ root. CallsFor root at Wanted.Object)) }
    ensures order { IfOk result (λ rest. AreInOrder (members_view rest)) }
{
    match tree.as_object() {
        Some(members) => Ok(members.iter()),
        None => {
            let why = Reason::Type(Wanted::Object);
            Err(Located { at, why })
        }
    }
}

/// The next member, which has this name.
pub(crate) fn member<'a>(
    at: Location,
    members: &mut Members<'a>,
    name: Member,
) -> Result<&'a Value, Located>
    ensures ok { IfOk result (λ tree. members_view members.old
        ≡ member_then (member_name name) (view tree.now) (members_view members.new)) }
    ensures err { OnErr result ((d : Data) (rest : MemberList)
        → members_view members.old ≡ member_then (member_name name) d rest → ⊥) }
    ensures fault { IfErr result (λ e. fault_of e.why ≡ ReadFault.BadShape) }
    ensures place { IfErr result (λ e. e.at ≡ at) }
    ensures lacks { IfErr result (λ e. AreInOrder (members_view members.old)
        → LackMember name (members_view members.old) e.why) }
{
    match members.next() {
        Some((found, tree)) if found.as_str() == name.name() => Ok(tree),
        // Names come in order: one that is less than the next that is called for is none of those.
        Some((found, _)) if found.as_str() < name.name() => {
            let why = Reason::Surplus(Excerpt::of(found.as_str()));
            Err(Located { at, why })
        }
        _ => {
            let why = Reason::Missing(name);
            Err(Located { at, why })
        }
    }
}

/// There is no further member.
pub(crate) fn end(at: Location, members: &mut Members<'_>) -> Result<(), Located>
    ensures ok { OnOk result (members_view members.old ≡ no_members) }
    ensures err { OnErr result (members_view members.old ≡ no_members → ⊥) }
    ensures fault { IfErr result (λ e. fault_of e.why ≡ ReadFault.BadShape) }
    ensures place { IfErr result (λ e. e.at ≡ at) }
    ensures first { IfErr result (λ e. IsFirst (members_view members.old) e.why) }
{
    match members.next() {
        None => Ok(()),
        Some((found, _)) => {
            let why = Reason::Surplus(Excerpt::of(found.as_str()));
            Err(Located { at, why })
        }
    }
}
