//! What of the events so far a later one may race with.

ghost use Rattle.std.specs.Prelude.{◌≡◌, ◌+◌, ◌<◌, ◌≤◌, ◌^◌, IfOk, List, Some, length};
ghost use Rattle.sab_judge.specs.declared.event.Event.{Event};
ghost use Rattle.sab_judge.specs.Clock.{HasClock};
ghost use Rattle.sab_judge.specs.Event.{event_at};
ghost use Rattle.sab_judge.specs.Race.{Counts};
ghost use Rattle.sab_judge.specs.RaceKind.{IsRaceOf};
ghost use Rattle.sab_judge.specs.Link.{AreLinks, IsLink};
ghost use Rattle.sab_judge.specs.Cell.{AreKept, BeginsBetween, BeginsIn, IsOfClass};
ghost use Rattle.sab_judge.specs.Shelf.{IsShelf};
ghost use Rattle.sab_judge.specs.Seen.{IsSeen};
ghost use Rattle.sab_judge.specs.declared.trace.TheConstants.Trace.{MAX_EVENTS};

use crate::access::Access;
use crate::cell::{CLASSES, Cell, Cells};
use crate::clock::Clock;
use crate::event::Event;
use crate::latest::{Latest, count_latest, note_latest};
use crate::link::Link;
use crate::race_kind::RaceKind;
use crate::shelf::{Shelves, count_below, shelve};
use std::alloc::{AllocError, Global};
use std::collections::HashMap;

/// The accesses of all events so far.
#[derive(Drop)]
pub(crate) struct Seen {
    cells: Cells,
    // In which cells accesses begin.
    shelves: Shelves,
    // Whether some access is of the size class. Most traces have accesses of few sizes.
    used: [bool; 32],
    // Of each event its link.
    links: Vec<Link>,
}

impl Seen {
    /// Nothing yet, with room for the links of so many events.
    pub(crate) fn new(alloc: Global, events: usize) -> Result<Seen, AllocError>
        ensures { IfOk result (λ seen. (trace : List Event) → IsSeen trace 0 seen) }
    {
        Ok(Seen {
            cells: HashMap::new(alloc),
            shelves: HashMap::new(alloc),
            used: [false; 32],
            links: Vec::with_capacity(alloc, events)?,
        })
    }

    /// Keeps the access of the `j`-th event, which is the next.
    pub(crate) fn keep(
        &mut self,
        alloc: Global,
        trace: &[Event],
        j: usize,
    ) -> Result<(), AllocError>
        requires within { j < length trace.now }
        requires short { length trace.now ≤ MAX_EVENTS }
        requires seen { IsSeen trace.now j self.old }
        ensures { IfOk result (λ _. IsSeen trace.now (j + 1) self.new) }
    {
        match trace[j].access {
            Some(access) => self.keep_access(alloc, trace, j, access),
            None => {
                self.links.push(Link::first())?;
                Ok(())
            }
        }
    }

    /// Keeps this access of the `j`-th event, which is the next.
    fn keep_access(
        &mut self,
        alloc: Global,
        trace: &[Event],
        j: usize,
        access: Access,
    ) -> Result<(), AllocError>
        requires within { j < length trace.now }
        requires short { length trace.now ≤ MAX_EVENTS }
        requires makes { (event_at trace.now j).access ≡ Some access }
        requires seen { IsSeen trace.now j self.old }
        ensures { IfOk result (λ _. IsSeen trace.now (j + 1) self.new) }
    {
        let cell = Cell::of(access);
        self.used[cell.class as usize] = true;
        shelve(alloc, &mut self.shelves, &self.cells, trace, j, cell)?;
        let link = note(alloc, &mut self.cells, &self.links, trace, j, cell)?;
        self.links.push(link)?;
        Ok(())
    }

    /// How many events are in a race of the kind with the `j`-th, by its clock.
    pub(crate) fn count_races(
        &self,
        trace: &[Event],
        clock: &Clock,
        j: usize,
        kind: RaceKind,
    ) -> u64
        requires event_clock { HasClock trace.now j clock.now }
        requires seen { IsSeen trace.now j self.now }
        ensures { Counts (λ i. IsRaceOf kind trace.now i j) j result }
    {
        match trace[j].access {
            Some(access) => self.count_all(trace, clock, j, access, kind),
            None => 0,
        }
    }

    /// How many events are in a race of the kind with the `j`-th, which makes this access.
    fn count_all(
        &self,
        trace: &[Event],
        clock: &Clock,
        j: usize,
        access: Access,
        kind: RaceKind,
    ) -> u64
        requires event_clock { HasClock trace.now j clock.now }
        requires seen { IsSeen trace.now j self.now }
        requires makes { (event_at trace.now j).access ≡ Some access }
        ensures { Counts (λ i. IsRaceOf kind trace.now i j) j result }
    {
        let mut count = 0;
        for class in 0..CLASSES {
            if self.used[class as usize] {
                count += self.count_of_class(trace, clock, j, access, kind, class);
            }
        }
        count
    }

    /// How many events with accesses of a size class are in a race of the kind with the `j`-th, which makes this
    /// access. Those that overlap it begin less than two cells before it.
    fn count_of_class(
        &self,
        trace: &[Event],
        clock: &Clock,
        j: usize,
        access: Access,
        kind: RaceKind,
        class: u32,
    ) -> u64
        requires event_clock { HasClock trace.now j clock.now }
        requires seen { IsSeen trace.now j self.now }
        requires makes { (event_at trace.now j).access ≡ Some access }
        requires class { class < CLASSES }
        ensures { Counts (λ i. IsRaceOf kind trace.now i j × IsOfClass trace.now class i) j result }
    {
        let block = access.place.block;
        let low = (access.start() >> class).saturating_sub(2);
        let last = access.end().saturating_sub(1) >> class;
        let first = Cell {
            block,
            class,
            index: low,
        };
        match self.shelves.get(&(block, class)) {
            Some(shelf) => self.count_on(shelf, trace, clock, j, kind, first, last),
            None => 0,
        }
    }

    /// How many events with accesses that begin in the cells of a shelf, from one up to the last, are in a race of the
    /// kind with the `j`-th.
    fn count_on(
        &self,
        shelf: &[u64],
        trace: &[Event],
        clock: &Clock,
        j: usize,
        kind: RaceKind,
        first: Cell,
        last: u64,
    ) -> u64
        requires event_clock { HasClock trace.now j clock.now }
        requires seen { IsSeen trace.now j self.now }
        requires shelf { IsShelf trace.now j first.block first.class shelf.now }
        requires few { first.class < CLASSES }
        requires forward { first.index ≤ last }
        requires small { last + 1 < 2 ^ 40 }
        ensures { Counts (λ i. IsRaceOf kind trace.now i j
            × BeginsBetween trace.now first.block first.class first.index (last + 1) i) j result }
    {
        let from = count_below(shelf, first.index);
        let to = count_below(shelf, last + 1);
        let mut count = 0;
        for k in from..to {
            let cell = Cell {
                index: shelf[k],
                ..first
            };
            count += self.count_in(trace, clock, j, kind, cell);
        }
        count
    }

    /// How many events with accesses that begin in a cell are in a race of the kind with the `j`-th.
    fn count_in(&self, trace: &[Event], clock: &Clock, j: usize, kind: RaceKind, cell: Cell) -> u64
        requires event_clock { HasClock trace.now j clock.now }
        requires seen { IsSeen trace.now j self.now }
        requires few { cell.class < CLASSES }
        requires small { cell.index < 2 ^ 40 }
        ensures { Counts (λ i. IsRaceOf kind trace.now i j × BeginsIn trace.now cell i) j result }
    {
        match self.cells.get(&cell.key()) {
            Some(list) => count_latest(list, &self.links, trace, clock, j, kind, cell),
            None => 0,
        }
    }
}

/// Takes the `j`-th event, which is the next and whose access begins in the cell, into the cells; returns its link.
fn note(
    alloc: Global,
    cells: &mut Cells,
    links: &[Link],
    trace: &[Event],
    j: usize,
    cell: Cell,
) -> Result<Link, AllocError>
    requires within { j < length trace.now }
    requires short { length trace.now ≤ MAX_EVENTS }
    requires begins { BeginsIn trace.now cell j }
    requires few { cell.class < CLASSES }
    requires small { cell.index < 2 ^ 40 }
    requires links { AreLinks trace.now j links.now }
    requires cells { AreKept trace.now j cells.old }
    ensures cells { IfOk result (λ _. AreKept trace.now (j + 1) cells.new) }
    ensures link { IfOk result (IsLink trace.now j) }
{
    let key = cell.key();
    let mut list = cells.remove(&key).unwrap_or(Vec::new(alloc));
    let link = note_latest(&mut list, links, trace, j, cell)?;
    cells.insert(key, list)?;
    Ok(link)
}
