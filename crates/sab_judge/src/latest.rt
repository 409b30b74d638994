//! The last of the events that are alike.

ghost use Rattle.std.specs.Prelude.{◌≡◌, ◌+◌, ◌<◌, ◌≤◌, ◌↔◌, ℕ, All, IfOk, IsTrue, MatchOption, Some, length};
ghost use Rattle.std.specs.Prelude.{slice_get};
ghost use Rattle.sab_judge.specs.declared.cell.Cell.{Cell};
ghost use Rattle.sab_judge.specs.declared.event.Event.{Event};
ghost use Rattle.sab_judge.specs.declared.latest.Latest.{Latest};
ghost use Rattle.sab_judge.specs.Clock.{HasClock};
ghost use Rattle.sab_judge.specs.Event.{event_at};
ghost use Rattle.sab_judge.specs.Race.{Counts};
ghost use Rattle.sab_judge.specs.RaceKind.{IsRaceOf};
ghost use Rattle.sab_judge.specs.Link.{AreLinks, HasAccess, IsLike, IsLink};
ghost use Rattle.sab_judge.specs.Cell.{AreLatest, BeginsIn, IsLatest};
ghost use Rattle.sab_judge.specs.declared.trace.TheConstants.Trace.{MAX_EVENTS};

use crate::access::Access;
use crate::cell::Cell;
use crate::clock::Clock;
use crate::event::Event;
use crate::link::{Link, count_from};
use crate::race_kind::RaceKind;
use std::alloc::AllocError;

/// Of the events of an agent that make one access the last one so far, by its position in the trace.
#[derive(Clone, Copy)]
pub(crate) struct Latest {
    pub(crate) agent: u32,
    pub(crate) position: u32,
}

/// The access of the event at a position, if it makes one.
fn access_at(trace: &[Event], position: u32) -> Option<Access>
    ensures { result ≡ (event_at trace.now position).access }
{
    match trace.get(position as usize) {
        Some(event) => event.access,
        None => None,
    }
}

impl Latest {
    /// Whether it is of this agent, and makes this access.
    #[tactic(auto, using(crate::proofs::Equality::same_option_access, crate::proofs::Equality::option_access_itself))]
    fn is_of(self, trace: &[Event], agent: u32, access: Option<Access>) -> bool
        ensures { IsTrue result ↔ ((self.agent ≡ agent) × ((event_at trace.now self.position).access ≡ access)) }
    {
        self.agent == agent && access_at(trace, self.position) == access
    }

    /// How many events like it are in a race of the kind with the `j`-th, by its clock.
    fn count_races(
        self,
        trace: &[Event],
        links: &[Link],
        clock: &Clock,
        j: usize,
        kind: RaceKind,
        cell: Cell,
    ) -> u64
        requires event_clock { HasClock trace.now j clock.now }
        requires links { AreLinks trace.now j links.now }
        requires latest { IsLatest trace.now j cell self }
        ensures { Counts (λ i. IsRaceOf kind trace.now i j × IsLike trace.now self.position i) j result }
    {
        let bound = clock.bound(self.agent);
        let position = self.position as usize;
        // What is known needs no look at the trace.
        if position < bound
            || self.agent == trace[j].agent
            || !kind.takes(trace[position], trace[j])
        {
            return 0;
        }
        u64::from(count_from(trace, links, self.position, bound))
    }
}

/// Where in a list the last event stands that is of this agent and makes this access.
fn position_of(
    list: &[Latest],
    trace: &[Event],
    agent: u32,
    access: Option<Access>,
) -> Option<usize>
    ensures { MatchOption result
        ((k : ℕ) (t : Latest) → slice_get list.now k ≡ Some t → t.agent ≡ agent
        → (event_at trace.now t.position).access ≡ access → ⊥)
        (λ k. (k < length list.now)
        × ((t : Latest) → slice_get list.now k ≡ Some t
        → (t.agent ≡ agent) × ((event_at trace.now t.position).access ≡ access))) }
{
    list.iter()
        .position(|latest| latest.is_of(trace, agent, access))
}

/// Takes the `j`-th event, which is the next and whose access begins in the cell, into the cell's list, and returns its
/// link.
pub(crate) fn note_latest(
    list: &mut Vec<Latest>,
    links: &[Link],
    trace: &[Event],
    j: usize,
    cell: Cell,
) -> Result<Link, AllocError>
    requires within { j < length trace.now }
    requires short { length trace.now ≤ MAX_EVENTS }
    requires begins { BeginsIn trace.now cell j }
    requires links { AreLinks trace.now j links.now }
    requires latest { AreLatest trace.now j cell list.old.items }
    ensures latest { IfOk result (λ _. AreLatest trace.now (j + 1) cell list.new.items) }
    ensures link { IfOk result (IsLink trace.now j) }
{
    let agent = trace[j].agent;
    let newest = Latest {
        agent,
        position: j as u32,
    };
    match position_of(list, trace, agent, trace[j].access) {
        Some(k) => {
            let previous = list[k].position;
            list[k] = newest;
            Ok(Link::behind(trace, links, j, previous))
        }
        None => {
            list.push(newest)?;
            Ok(Link::first())
        }
    }
}

/// How many of the events whose accesses begin in the cell are in a race of the kind with the `j`-th, by its clock.
pub(crate) fn count_latest(
    list: &[Latest],
    links: &[Link],
    trace: &[Event],
    clock: &Clock,
    j: usize,
    kind: RaceKind,
    cell: Cell,
) -> u64
    requires event_clock { HasClock trace.now j clock.now }
    requires links { AreLinks trace.now j links.now }
    requires latest { AreLatest trace.now j cell list.now }
    ensures { Counts (λ i. IsRaceOf kind trace.now i j × BeginsIn trace.now cell i) j result }
{
    let mut count = 0;
    for latest in list {
        count += latest.count_races(trace, links, clock, j, kind, cell);
    }
    count
}
