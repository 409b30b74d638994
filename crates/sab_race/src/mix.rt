//! A gate that mixes the threads of a race.

ghost use Rattle.std.specs.Prelude.{◌≡◌, ◌≤◌};
ghost use Rattle.sab_race.specs.Mixing.{drawn_for, yields_of, rests_of};

use crate::gate::Gate;
use crate::mixing::draw;
use std::thread;

/// How many of an agent's moves are its first ones.
const FIRST_MOVES: u32 = 16;

/// The number that is drawn for an agent's move `k`.
fn draw_for(seed: u64, agent: u32, k: u32) -> u64
    ensures { result ≡ drawn_for seed agent k }
{
    draw(seed, (u64::from(agent) << 32) + u64::from(k))
}

/// How often an agent's thread yields before its move `k`: 0 to 31 times at each of its first 16 moves, by a number
/// drawn from the seed, the agent and the move, and never by the seed 0.
fn yields(seed: u64, agent: u32, k: u32) -> u32
    ensures exact { result ≡ yields_of seed agent k }
    ensures most { result ≤ 31 }
{
    if seed == 0 || k >= FIRST_MOVES {
        return 0;
    }
    (draw_for(seed, agent, k) % 32) as u32
}

/// Whether the thread that made an agent's move `k` yields after it: at `rate` of 16 moves behind its first ones, by a
/// number drawn in the same way, and never by the seed 0.
fn rests(seed: u64, rate: u32, agent: u32, k: u32) -> bool
    ensures { result ≡ rests_of seed rate agent k }
{
    seed != 0 && k >= FIRST_MOVES && draw_for(seed, agent, k) % 16 < u64::from(rate)
}

/// The gate that lets threads yield, as often as is drawn from a seed.
///
/// Before each of its first 16 moves an agent's thread yields 0 to 31 times, since it would else have made all moves of
/// a short script before another thread has begun. After so many of 16 later ones the thread that made the move yields:
/// under the lock the agent's thread, so that another one takes it, and by rings their owner, so that a thread which
/// shares a processor with it goes on. The gate keeps nothing else, and so brings no order of its own on the threads.
#[derive(Clone, Copy, Debug)]
pub struct Mix {
    /// What the numbers are drawn from.
    pub seed: u64,
    /// After how many of 16 later moves the thread that made them yields.
    pub rate: u32,
}

impl Mix {
    /// The gate of a seed and a rate. That of the seed 0 does nothing.
    pub fn new(seed: u64, rate: u32) -> Mix
        ensures seed { result.seed ≡ seed }
        ensures rate { result.rate ≡ rate }
    {
        Mix { seed, rate }
    }
}

impl Gate for Mix {
    fn before(&self, agent: u32, k: u32) {
        for _ in 0..yields(self.seed, agent, k) {
            thread::yield_now();
        }
    }

    fn applied(&self, agent: u32, k: u32) {
        if rests(self.seed, self.rate, agent, k) {
            thread::yield_now();
        }
    }
}
