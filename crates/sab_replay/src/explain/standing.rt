//! Where agents stand whose calls haven't all returned.

ghost use Rattle.std.specs.Prelude.{◌≡◌};
ghost use Rattle.std.specs.List.{list_any};
ghost use Rattle.sab_plan.specs.Plan.{call_of};
ghost use Rattle.sab_replay.specs.Explain.Standing as standings;
ghost use Rattle.sab_replay.specs.Explain.Standing.{are_one, by_last, is_notify, what_at, entries_after};

use crate::explain::before::place_named;
use sab_plan::{Answer, At, Call, Entry, Place, Plan, What};

/// Whether an entry after a position is a notify's act at the place.
pub fn is_notified(plan: &Plan, journal: &[Entry], since: Option<u32>, place: Option<Place>) -> bool
    ensures { result ≡ list_any (standings.notifies plan.now place) (entries_after journal.now since) }
{
    match since {
        Some(position) => notify_among(
            plan,
            journal.get(position as usize + 1..).unwrap_or(&[]),
            place,
        ),
        None => notify_among(plan, journal, place),
    }
}

/// Whether one of these entries is a notify's act at the place.
fn notify_among(plan: &Plan, entries: &[Entry], place: Option<Place>) -> bool
    ensures { result ≡ list_any (standings.notifies plan.now place) entries.now }
{
    entries.iter().any(|entry| notifies(plan, place, *entry))
}

/// Whether an entry is a notify's act at the place.
fn notifies(plan: &Plan, place: Option<Place>, entry: Entry) -> bool
    ensures { result ≡ standings.notifies plan.now place entry }
{
    if !matches!(entry.what, What::Acted(Answer::Count(_))) {
        return false;
    }
    let call = call_in(plan, entry.agent, entry.call);
    match (place_named(plan, call), place) {
        (Some(named), Some(place)) => named == place,
        _ => false,
    }
}

/// A call of an agent; none, where there is no such agent or no such call.
fn call_in(plan: &Plan, agent: u32, call: u32) -> Option<Call>
    ensures { result ≡ call_of plan.now agent call }
{
    let script = plan.scripts().get(agent as usize)?;
    script.calls.get(call as usize).copied()
}

/// Where an agent stands that neither waits nor was woken, by its last entry that had an effect.
pub fn by_last(journal: &[Entry], since: Option<u32>) -> At
    ensures { result ≡ standings.by_last (what_at journal.now since) }
{
    let Some(position) = since else {
        return At::Ready;
    };
    let Some(entry) = journal.get(position as usize).copied() else {
        return At::Ready;
    };
    match entry.what {
        What::Began => At::Begun,
        What::Acted(_) | What::Left(_) => At::Answered,
        _ => At::Ready,
    }
}
