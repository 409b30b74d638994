//! The members of an event's object.

ghost use Rattle.std.specs.Prelude.{◌≡◌, ℕ, ℤ, Bool, List, Option, IfSome, IfNone, codes};
ghost use Rattle.serde_json.specs.Data.{Num, Data, Members as MemberList, number as number_data, boolean, string};
ghost use Rattle.serde_json.specs.Data.{object as object_data, member as member_then};
ghost use Rattle.serde_json.specs.View.{view, members_view, number_view};
ghost use Rattle.sab_trace.specs.declared.deed.Deed.{Deed};
ghost use Rattle.sab_trace.specs.declared.numbers.Numbers.{Numbers};
ghost use Rattle.sab_trace.specs.Deeds.{word_of};
ghost use Rattle.sab_trace.specs.Members.{Values, HasMembers, source_data, agent_to_byte, call_to_read, size_to_write};
ghost use Rattle.sab_trace.specs.Numbers.{IsWhole, AreNumbers};
ghost use Rattle.sab_trace.specs.Seen.{values_of};

use crate::deed::Deed;
use crate::flags::Flags;
use crate::numbers::{Numbers, is_safe};
use serde_json::{Number, Value};
use std::collections::btree_map::Iter;

/// What the members say, except the source.
#[derive(Clone, Copy)]
pub(crate) struct Members<'a> {
    pub(crate) does: Deed,
    pub(crate) flags: Flags,
    agent: &'a Number,
    block: &'a Number,
    byte: &'a Number,
    call: &'a Number,
    event: &'a Number,
    size: &'a Number,
}

/// The members of an object that are not yet read, in the order of their names.
type Rest<'a> = Iter<'a, String, Value>;

/// The members of an object.
fn object(tree: &Value) -> Option<Rest<'_>>
    ensures some { IfSome result (λ rest. view tree.now ≡ object_data (members_view rest)) }
    ensures none { IfNone result ((ms : MemberList) → view tree.now ≡ object_data ms → ⊥) }
{
    match tree {
        Value::Object(members) => Some(members.iter()),
        _ => None,
    }
}

/// The next member, which has this name.
fn member<'a>(rest: &mut Rest<'a>, name: &str) -> Option<&'a Value>
    ensures some { IfSome result (λ tree. members_view rest.old
        ≡ member_then name.now (view tree.now) (members_view rest.new)) }
    ensures none { IfNone result ((d : Data) (ms : MemberList)
        → members_view rest.old ≡ member_then name.now d ms → ⊥) }
{
    match rest.next() {
        Some((found, tree)) if found.as_str() == name => Some(tree),
        _ => None,
    }
}

/// The number of the next member, which has this name.
fn number<'a>(rest: &mut Rest<'a>, name: &str) -> Option<&'a Number>
    ensures some { IfSome result (λ n. members_view rest.old
        ≡ member_then name.now (number_data (number_view n.now)) (members_view rest.new)) }
    ensures none { IfNone result ((n : Num) (ms : MemberList)
        → members_view rest.old ≡ member_then name.now (number_data n) ms → ⊥) }
{
    match member(rest, name)? {
        Value::Number(number) => Some(number),
        _ => None,
    }
}

/// The whole number within ±(2^53 - 1) that a number is.
fn whole(number: &Number) -> Option<i64>
    ensures some { IfSome result (IsWhole (number_view number.now)) }
    ensures none { IfNone result ((z : ℤ) → IsWhole (number_view number.now) z → ⊥) }
{
    match number.as_i64() {
        Some(n) if is_safe(n) => Some(n),
        _ => None,
    }
}

/// `true` or `false` of the next member, which has this name.
fn flag(rest: &mut Rest<'_>, name: &str) -> Option<bool>
    ensures some { IfSome result (λ b. members_view rest.old
        ≡ member_then name.now (boolean b) (members_view rest.new)) }
    ensures none { IfNone result ((b : Bool) (ms : MemberList)
        → members_view rest.old ≡ member_then name.now (boolean b) ms → ⊥) }
{
    match member(rest, name)? {
        Value::Bool(flag) => Some(*flag),
        _ => None,
    }
}

/// What the next member says that the event does.
fn deed(rest: &mut Rest<'_>) -> Option<Deed>
    ensures some { IfSome result (λ does. members_view rest.old
        ≡ member_then (codes "does") (string (word_of does)) (members_view rest.new)) }
    ensures none { IfNone result ((does : Deed) (ms : MemberList)
        → members_view rest.old ≡ member_then (codes "does") (string (word_of does)) ms → ⊥) }
{
    match member(rest, "does")? {
        Value::String(word) => Deed::of(word.as_str()),
        _ => None,
    }
}

/// Passes the next member, if it names a source, or that none is known.
fn source(rest: &mut Rest<'_>) -> Option<()>
    ensures some { IfSome result (λ _. (source : Option (List ℕ))
        × (members_view rest.old ≡ member_then (codes "source") (source_data source) (members_view rest.new))) }
    ensures none { IfNone result ((source : Option (List ℕ)) (ms : MemberList)
        → members_view rest.old ≡ member_then (codes "source") (source_data source) ms → ⊥) }
{
    let tree = member(rest, "source")?;
    if tree.is_null() || tree.is_string() {
        return Some(());
    }
    None
}

/// The agent, whether it is atomic, the block and the byte.
fn agent_to_byte<'a>(rest: &mut Rest<'a>) -> Option<(&'a Number, bool, &'a Number, &'a Number)>
    ensures some { IfSome result (λ p. members_view rest.old
        ≡ agent_to_byte (number_view p.0.now) p.1 (number_view p.2.now) (number_view p.3.now) (members_view rest.new)) }
    ensures none { IfNone result ((agent : Num) (atomic : Bool) (block byte : Num) (ms : MemberList)
        → members_view rest.old ≡ agent_to_byte agent atomic block byte ms → ⊥) }
{
    let agent = number(rest, "agent")?;
    let atomic = flag(rest, "atomic")?;
    let block = number(rest, "block")?;
    let byte = number(rest, "byte")?;
    Some((agent, atomic, block, byte))
}

/// The call, what the event does, its position, and whether it reads.
fn call_to_read<'a>(rest: &mut Rest<'a>) -> Option<(&'a Number, Deed, &'a Number, bool)>
    ensures some { IfSome result (λ p. members_view rest.old
        ≡ call_to_read (number_view p.0.now) p.1 (number_view p.2.now) p.3 (members_view rest.new)) }
    ensures none { IfNone result ((call : Num) (does : Deed) (event : Num) (read : Bool) (ms : MemberList)
        → members_view rest.old ≡ call_to_read call does event read ms → ⊥) }
{
    let call = number(rest, "call")?;
    let does = deed(rest)?;
    let event = number(rest, "event")?;
    let read = flag(rest, "read")?;
    Some((call, does, event, read))
}

/// How many bytes, whether it is at waiters, and whether it writes; and nothing more.
fn size_to_write<'a>(rest: &mut Rest<'a>) -> Option<(&'a Number, bool, bool)>
    ensures some { IfSome result (λ p. (source : Option (List ℕ))
        × (members_view rest.old ≡ size_to_write (number_view p.0.now) source p.1 p.2)) }
    ensures none { IfNone result ((size : Num) (source : Option (List ℕ)) (waiters write : Bool)
        → members_view rest.old ≡ size_to_write size source waiters write → ⊥) }
{
    let size = number(rest, "size")?;
    source(rest)?;
    let waiters = flag(rest, "waiters")?;
    let write = flag(rest, "write")?;
    if rest.next().is_some() {
        return None;
    }
    Some((size, waiters, write))
}

/// The members of an event's object; `None` if the tree isn't one.
pub(crate) fn read_members(tree: &Value) -> Option<Members<'_>>
    ensures some { IfSome result (λ found. HasMembers (view tree.now) (values_of found)) }
    ensures none { IfNone result ((values : Values) → HasMembers (view tree.now) values → ⊥) }
{
    let mut rest = object(tree)?;
    let (agent, atomic, block, byte) = agent_to_byte(&mut rest)?;
    let (call, does, event, read) = call_to_read(&mut rest)?;
    let (size, waiters, write) = size_to_write(&mut rest)?;
    let flags = Flags {
        read,
        write,
        atomic,
        waiters,
    };
    Some(Members {
        does,
        flags,
        agent,
        block,
        byte,
        call,
        event,
        size,
    })
}

impl Members<'_> {
    /// Its numbers; `None` if one of them isn't whole, or not within ±(2^53 - 1).
    pub(crate) fn numbers(&self) -> Option<Numbers>
        ensures some { IfSome result (AreNumbers (values_of self.now)) }
        ensures none { IfNone result ((numbers : Numbers) → AreNumbers (values_of self.now) numbers → ⊥) }
    {
        Some(Numbers {
            agent: whole(self.agent)?,
            block: whole(self.block)?,
            byte: whole(self.byte)?,
            call: whole(self.call)?,
            event: whole(self.event)?,
            size: whole(self.size)?,
        })
    }
}
