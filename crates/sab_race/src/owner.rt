//! What the one owner of a race does with the moves that the rings bring.

ghost use Rattle.std.specs.Prelude.{◌≡◌};

use crate::gate::Gate;
use crate::lane::Lane;
use crate::race::Race;
use crate::route::{Route, ring_at};
use std::thread;

/// Looks into the rings until all moves are made, or none came in so many looks in a row.
pub fn poll<G: Gate>(
    race: &mut Race,
    lanes: &mut Vec<Lane>,
    gate: &G,
    route: &mut Route,
    patience: u32,
)
    ensures plan { race.new.plan ≡ race.old.plan }
    ensures spins { race.new.spins ≡ race.old.spins }
{
    for _ in 0..u64::MAX {
        if !race.has_any_next() || !await_move(race, lanes, gate, route, patience) {
            return;
        }
    }
}

/// Makes what the rings still hold.
pub fn drain<G: Gate>(race: &mut Race, lanes: &mut Vec<Lane>, gate: &G, route: &mut Route)
    ensures plan { race.new.plan ≡ race.old.plan }
    ensures spins { race.new.spins ≡ race.old.spins }
{
    for _ in 0..u64::MAX {
        if !look(race, lanes, gate, route) {
            return;
        }
    }
}

/// Looks into the rings so often in a row at most, and returns whether a move came.
fn await_move<G: Gate>(
    race: &mut Race,
    lanes: &mut Vec<Lane>,
    gate: &G,
    route: &mut Route,
    patience: u32,
) -> bool
    ensures plan { race.new.plan ≡ race.old.plan }
    ensures spins { race.new.spins ≡ race.old.spins }
{
    for _ in 0..patience {
        if look(race, lanes, gate, route) {
            return true;
        }
        thread::yield_now();
    }
    false
}

/// Looks into each ring, from the one on that the route says, until one gives a move, and returns whether one did.
fn look<G: Gate>(race: &mut Race, lanes: &mut Vec<Lane>, gate: &G, route: &mut Route) -> bool
    ensures plan { race.new.plan ≡ race.old.plan }
    ensures spins { race.new.spins ≡ race.old.spins }
{
    let rings = lanes.len();
    if rings == 0 {
        return false;
    }
    let first = route.begin(rings);
    for step in 0..rings {
        let ring = ring_at(first, step, rings);
        if lanes[ring].take_one(race, gate) {
            route.came_from(ring);
            return true;
        }
    }
    false
}
