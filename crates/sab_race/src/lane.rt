//! The receiving end of a ring.

ghost use Rattle.std.specs.Prelude.{◌≡◌, IsTrue, IsFalse};
ghost use Rattle.sab_race.specs.Agenda.{advanced, HasNext};

use crate::gate::Gate;
use crate::race::Race;
use rtrb::Consumer;
use sab_sim::Move;

/// How many moves are taken out of a ring at once, where it holds so many.
const MOST_AT_ONCE: usize = 64;

/// Where the owner of a race receives an agent's moves. It isn't read again once it gave another move than the agent's
/// next.
#[derive(Drop)]
pub struct Lane {
    agent: u32,
    ring: Consumer<Move>,
    is_open: bool,
    /// What was taken out last: the moves from `first` on, up to `end`, aren't made yet.
    taken: [Move; MOST_AT_ONCE],
    first: usize,
    end: usize,
}

impl Lane {
    /// The lane of an agent, of which nothing was taken out yet.
    pub fn new(agent: u32, ring: Consumer<Move>) -> Lane
        ensures { result.agent ≡ agent }
    {
        Lane {
            agent,
            ring,
            is_open: true,
            taken: [Move::Step(agent); MOST_AT_ONCE],
            first: 0,
            end: 0,
        }
    }

    /// The next move that the agent sent, if one came.
    fn next_given(&mut self) -> Option<Move> {
        if self.first >= self.end {
            self.end = self.ring.pop_partial_slice(&mut self.taken);
            self.first = 0;
        }
        if self.first >= self.end {
            return None;
        }
        let given = self.taken.get(self.first).copied();
        self.first += 1;
        given
    }

    /// Makes the next move that came, and returns whether one was made.
    pub fn take_one<G: Gate>(&mut self, race: &mut Race, gate: &G) -> bool
        ensures plan { race.new.plan ≡ race.old.plan }
        ensures spins { race.new.spins ≡ race.old.spins }
        ensures made { IsTrue result → HasNext race.old.agendas self.old.agent
            × (race.new.agendas ≡ advanced race.old.agendas self.old.agent) }
        ensures none { IsFalse result → race.new ≡ race.old }
    {
        let agent = self.agent;
        if !self.is_open || !race.has_next(agent) {
            return false;
        }
        let Some(given) = self.next_given() else {
            return false;
        };
        match race.make_given(agent, given) {
            Some(k) => {
                gate.applied(agent, k);
                true
            }
            None => {
                self.is_open = false;
                false
            }
        }
    }
}
