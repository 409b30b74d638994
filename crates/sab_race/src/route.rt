//! Where the owner of the rings begins to look for its next move.

ghost use Rattle.std.specs.Prelude.{◌≡◌, ◌<◌, ◌+◌, ◌%◌, ◌^◌};
ghost use Rattle.sab_race.specs.Mixing.{first_of, ring_of, ComesToEach};

use crate::mixing::draw;

/// At which ring each look begins: by the seed 0 at the one behind the last that gave a move, round and round, and by
/// another seed at one that is drawn from it.
#[derive(Clone, Copy, Debug)]
pub struct Route {
    seed: u64,
    /// How many looks began.
    looks: u64,
    /// The ring behind the last that gave a move.
    next: usize,
}

impl Route {
    /// The route of a seed, on which no look began yet.
    pub fn new(seed: u64) -> Route
        ensures seed { result.seed ≡ seed }
        ensures looks { result.looks ≡ 0 }
        ensures next { result.next ≡ 0 }
    {
        Route {
            seed,
            looks: 0,
            next: 0,
        }
    }

    /// The ring, of so many, at which the next look begins.
    pub fn begin(&mut self, rings: usize) -> usize
        requires { 0 < rings }
        ensures first { result ≡ first_of self.old.seed self.old.looks self.old.next rings }
        ensures within { result < rings }
        ensures seed { self.new.seed ≡ self.old.seed }
        ensures looks { self.new.looks ≡ (self.old.looks + 1) % 2 ^ 64 }
        ensures next { self.new.next ≡ self.old.next }
    {
        let look = self.looks;
        self.looks = look.wrapping_add(1);
        if self.seed == 0 {
            return self.next % rings;
        }
        (draw(self.seed, look) % rings as u64) as usize
    }

    /// A move came from this ring.
    pub fn came_from(&mut self, ring: usize)
        requires { ring + 1 < 2 ^ 64 }
        ensures next { self.new.next ≡ ring + 1 }
        ensures seed { self.new.seed ≡ self.old.seed }
        ensures looks { self.new.looks ≡ self.old.looks }
    {
        self.next = ring + 1;
    }
}

/// The ring at a step of a look: from the first one on up, and round. In as many steps as there are rings each comes.
#[tactic(auto, using(crate::proofs::Looking::comes_to_each))]
pub fn ring_at(first: usize, step: usize, rings: usize) -> usize
    requires first { first < rings }
    requires fits { first + step < 2 ^ 64 }
    ensures ring { result ≡ ring_of first step rings }
    ensures within { result < rings }
    ensures each { ComesToEach first rings }
{
    (first + step) % rings
}
