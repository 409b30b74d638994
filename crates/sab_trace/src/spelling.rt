//! The event that a line spells.

ghost use Rattle.std.specs.Prelude.{◌≡◌, ◌<◌, ◌≤◌, ℕ, IfOk, IfErr, length};
ghost use Rattle.serde_json.specs.Data.{Data};
ghost use Rattle.serde_json.specs.View.{view};
ghost use Rattle.sab_trace.specs.Seen.{Says};
ghost use Rattle.sab_trace.specs.Spelling.{access_of, waiters_of, SpellsEvent, SpellsLine};
ghost use Rattle.sab_trace.specs.LineFault.{IsTreeFault, IsReadingFault};
ghost use Rattle.sab_judge.specs.declared.trace.TheConstants.Trace.{MAX_EVENTS};

use crate::flags::Flags;
use crate::line_fault::LineFault;
use crate::members::read_members;
use crate::plain::plain_line;
use crate::said::Said;
use json::Scratch;
use sab_judge::{Access, Event, Order, Place};
use serde_json::Value;
use std::alloc::Global;

/// The access of so many bytes from a place on, if one is made.
fn access(flags: Flags, place: Place, len: u32) -> Option<Access>
    ensures { result ≡ access_of flags place len }
{
    if !flags.access() {
        return None;
    }
    let order = if flags.atomic {
        Order::SeqCst
    } else {
        Order::Unordered
    };
    Some(Access {
        place,
        len,
        reads: flags.read,
        writes: flags.write,
        order,
    })
}

/// The place in whose waiters' critical section the event is, if it is in one.
fn waiters(flags: Flags, place: Place) -> Option<Place>
    ensures { result ≡ waiters_of flags place }
{
    if flags.waiters { Some(place) } else { None }
}

/// The event that a line spells which says this, and stands at a position.
fn event_of(position: u32, said: &Said) -> Result<Event, LineFault>
    ensures ok { IfOk result (λ event. (tree : Data) → Says tree said.now → SpellsEvent position tree event) }
    ensures err { IfErr result (λ fault. (tree : Data) → Says tree said.now → IsTreeFault position tree fault) }
{
    if !said.fits(position) {
        return Err(LineFault::BadNumber);
    }
    let Some(agent) = said.numbers.agent() else {
        return Err(LineFault::BadAgent);
    };
    if !said.flags.act() {
        return Ok(Event {
            agent,
            access: None,
            waiters: None,
        });
    }
    let Some((place, len)) = said.numbers.bytes() else {
        return Err(LineFault::BadBytes);
    };
    Ok(Event {
        agent,
        access: access(said.flags, place, len),
        waiters: waiters(said.flags, place),
    })
}

/// What a tree says.
fn tree_says(tree: &Value) -> Result<Said, LineFault>
    ensures ok { IfOk result (Says (view tree.now)) }
    ensures err { IfErr result (λ fault. (position : ℕ) → IsTreeFault position (view tree.now) fault) }
{
    let Some(members) = read_members(tree) else {
        return Err(LineFault::BadShape);
    };
    if !members.does.can_have(members.flags) {
        return Err(LineFault::BadShape);
    }
    let Some(numbers) = members.numbers() else {
        return Err(LineFault::BadNumber);
    };
    Ok(Said {
        does: members.does,
        flags: members.flags,
        numbers,
    })
}

/// The event that a line spells by its tree.
fn read_tree(alloc: Global, position: u32, line: &[u8]) -> Result<Event, LineFault>
    requires few { position < MAX_EVENTS }
    requires short { length line.now ≤ 1024 }
    ensures ok { IfOk result (SpellsLine position line.now) }
    ensures err { IfErr result (IsReadingFault position line.now) }
{
    let tree = match Value::from_slice(alloc, line) {
        Ok(tree) => tree,
        Err(error) if error.is_memory() => return Err(LineFault::OutOfMemory),
        Err(_) => return Err(LineFault::NotJson),
    };
    match tree_says(&tree) {
        Ok(said) => event_of(position, &said),
        Err(fault) => Err(fault),
    }
}

/// The event that a line spells, which stands at a position.
pub(crate) fn read_line(
    alloc: Global,
    scratch: &mut Scratch,
    position: u32,
    line: &[u8],
) -> Result<Event, LineFault>
    requires few { position < MAX_EVENTS }
    requires short { length line.now ≤ 1024 }
    ensures ok { IfOk result (SpellsLine position line.now) }
    ensures err { IfErr result (IsReadingFault position line.now) }
{
    match plain_line(scratch, line) {
        Some(said) => event_of(position, &said),
        None => read_tree(alloc, position, line),
    }
}
