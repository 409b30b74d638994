//! What of the events so far a later one may learn of.

ghost use Rattle.std.specs.Prelude.{◌≡◌, ◌+◌, ◌<◌, ◌≤◌, ℕ, All, IfOk, List, length, Some, true};
ghost use Rattle.sab_judge.specs.declared.event.Event.{Event};
ghost use Rattle.sab_judge.specs.Event.{event_at};
ghost use Rattle.sab_judge.specs.Sought.{IsLastBelow, OfAgent, AtWaiters};
ghost use Rattle.sab_judge.specs.Past.{AreOrdered, AreWaiters, AreWriters, AreWritten, IsPast};
ghost use Rattle.sab_judge.specs.Readers.{HaveWriter};
ghost use Rattle.sab_judge.specs.Stretch.{AreStretches};
ghost use Rattle.sab_judge.specs.Trace.{IsInBlocks};
ghost use Rattle.sab_judge.specs.declared.trace.TheConstants.Trace.{MAX_EVENTS, MAX_AGENTS};

use crate::access::Access;
use crate::clock::AGENTS;
use crate::event::Event;
use crate::place::Place;
use crate::stretch::{Held, Stretches};
use std::alloc::{AllocError, Global};
use std::collections::HashMap;

/// The last event among the waiters of each place, by the place's block and byte.
type Waiters = HashMap<(u32, u32), usize>;

/// Of each block that is written the stretches of bytes that have one last writer.
type Writers = HashMap<u32, Stretches>;

/// The last event of each agent, among the waiters of each place, and of those that write each byte.
#[derive(Drop)]
pub(crate) struct Past {
    agents: [Option<usize>; AGENTS],
    waiters: Waiters,
    writers: Writers,
}

impl Past {
    /// Nothing yet.
    pub(crate) fn new(alloc: Global) -> Past
        ensures { (trace : List Event) → IsPast trace 0 result }
    {
        Past {
            agents: [None; AGENTS],
            waiters: HashMap::new(alloc),
            writers: HashMap::new(alloc),
        }
    }

    /// The last event of an agent.
    pub(crate) fn last_of_agent(&self, agent: u32) -> Option<usize>
        requires { agent < MAX_AGENTS }
        ensures { (trace : List Event) (n : ℕ) → IsPast trace n self.now → IsLastBelow trace (OfAgent agent) n result }
    {
        self.agents[agent as usize]
    }

    /// The last event among the waiters of a place.
    pub(crate) fn last_at_waiters(&self, place: Place) -> Option<usize>
        ensures { (trace : List Event) (n : ℕ) → IsPast trace n self.now
            → IsLastBelow trace (AtWaiters place) n result }
    {
        self.waiters.get(&(place.block, place.byte)).copied()
    }

    /// The last event that writes a byte below the limit, and up to where below the limit it is that of the bytes
    /// behind.
    pub(crate) fn last_writer(&self, block: u32, byte: u64, limit: u64) -> Held
        requires order { AreOrdered self.now.writers }
        requires below { byte < limit }
        ensures more { byte < result.end }
        ensures within { result.end ≤ limit }
        ensures writer { (trace : List Event) (n : ℕ) → IsPast trace n self.now
            → HaveWriter trace n block byte result.end result.writer }
    {
        match self.writers.get(&block) {
            Some(stretches) => stretches.find(byte, limit),
            None => Held {
                writer: None,
                end: limit,
            },
        }
    }

    /// Takes the `j`-th event in, which is the next.
    pub(crate) fn note(
        &mut self,
        alloc: Global,
        trace: &[Event],
        j: usize,
    ) -> Result<(), AllocError>
        requires within { j < length trace.now }
        requires short { length trace.now ≤ MAX_EVENTS }
        requires agents { All (λ (e : Event). e.agent < MAX_AGENTS) trace.now }
        requires blocks { All IsInBlocks trace.now }
        requires past { IsPast trace.now j self.old }
        ensures { IfOk result (λ _. IsPast trace.now (j + 1) self.new) }
    {
        self.agents[trace[j].agent as usize] = Some(j);
        note_waiters(&mut self.waiters, trace, j)?;
        note_writers(alloc, &mut self.writers, trace, j)
    }
}

/// Notes the `j`-th event as the last among the waiters of the place whose critical section it is in, if it is in one.
fn note_waiters(waiters: &mut Waiters, trace: &[Event], j: usize) -> Result<(), AllocError>
    requires within { j < length trace.now }
    requires waiters { AreWaiters trace.now j waiters.old }
    ensures { IfOk result (λ _. AreWaiters trace.now (j + 1) waiters.new) }
{
    if let Some(place) = trace[j].waiters {
        waiters.insert((place.block, place.byte), j)?;
    }
    Ok(())
}

/// Notes the `j`-th event as the last writer of each byte that it writes.
fn note_writers(
    alloc: Global,
    writers: &mut Writers,
    trace: &[Event],
    j: usize,
) -> Result<(), AllocError>
    requires within { j < length trace.now }
    requires short { length trace.now ≤ MAX_EVENTS }
    requires blocks { All IsInBlocks trace.now }
    requires writers { AreWriters trace.now j writers.old }
    ensures { IfOk result (λ _. AreWriters trace.now (j + 1) writers.new) }
{
    match trace[j].access {
        Some(access) if access.writes && access.len > 0 => {
            note_bytes(alloc, writers, trace, access, j)
        }
        _ => Ok(()),
    }
}

/// Notes the `j`-th event as the last writer of the bytes of its access, which writes some.
fn note_bytes(
    alloc: Global,
    writers: &mut Writers,
    trace: &[Event],
    access: Access,
    j: usize,
) -> Result<(), AllocError>
    requires access { (event_at trace.now j).access ≡ Some access }
    requires writes { access.writes ≡ true }
    requires some { 0 < access.len }
    requires reach { access.place.byte + access.len ≤ 65536 }
    requires small { j < MAX_EVENTS }
    requires writers { AreWriters trace.now j writers.old }
    ensures { IfOk result (λ _. AreWriters trace.now (j + 1) writers.new) }
{
    let Place { block, byte } = access.place;
    let mut stretches = kept_or_new(alloc, writers.remove(&block))?;
    stretches.write(byte, byte + access.len, j)?;
    writers.insert(block, stretches)?;
    Ok(())
}

/// What is kept of a block; of one that nobody has written, one stretch.
fn kept_or_new(alloc: Global, kept: Option<Stretches>) -> Result<Stretches, AllocError>
    ensures { IfOk result (λ stretches. (trace : List Event) (n block : ℕ) → AreWritten trace n block kept
        → AreStretches trace n block stretches.list.items) }
{
    match kept {
        Some(stretches) => Ok(stretches),
        None => Stretches::new(alloc),
    }
}
