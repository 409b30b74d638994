//! From journals to traces.

ghost use Rattle.std.specs.Prelude.{◌≡◌, ◌<◌, ◌≤◌, ◌^◌, length, All, IfOk};
ghost use Rattle.sab_judge.specs.Trace.{IsInBlocks};
ghost use Rattle.sab_plan.specs.declared.entry.Entry.{Entry};
ghost use Rattle.sab_plan.specs.declared.plan.TheConstants.Plan.{MAX_AGENTS};
ghost use Rattle.sab_replay.specs.Events.Events.{event_of, events_of};
ghost use Rattle.sab_sim.specs.declared.sim.TheConstants.Sim.{MAX_ENTRIES};

use crate::events::target::target_of;
use sab_judge::{Event, Trace, TraceFault};
use sab_plan::Plan;
use sab_sim::{Entry, What};
use std::alloc::{AllocError, Global};

/// The events of a journal, one for each entry, in order.
///
/// The journal has at most 2^20 entries, of agents below 16, as each report of a plan has. An entry of a call that the
/// plan hasn't is an event that accesses nothing.
pub fn trace_of(alloc: Global, plan: &Plan, journal: &[Entry]) -> Result<Trace, AllocError>
    requires few { length journal.now ≤ MAX_ENTRIES }
    requires agents { All (λ (e : Entry). e.agent < MAX_AGENTS) journal.now }
    ensures { IfOk result (λ trace. trace ≡ events_of plan.now journal.now) }
{
    let mut trace = Trace::new(alloc);
    for entry in journal {
        match trace.push(event_of(plan, *entry)) {
            Ok(()) => {}
            Err(TraceFault::OutOfMemory) => return Err(AllocError),
            Err(TraceFault::Full | TraceFault::NoAgent | TraceFault::OutOfRange) => unreachable!(),
        }
    }
    Ok(trace)
}

/// The event of an entry.
fn event_of(plan: &Plan, entry: Entry) -> Event
    ensures event { result ≡ event_of plan.now entry }
    ensures there { IsInBlocks result }
{
    let acts = matches!(entry.what, What::Acted(_) | What::Enlisted | What::Left(_));
    let target = if acts { target_of(plan, entry) } else { None };
    Event {
        agent: entry.agent,
        access: target.and_then(|target| target.access(entry.what)),
        waiters: target.and_then(|target| target.waiters(entry.what)),
    }
}
