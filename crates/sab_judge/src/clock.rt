//! Vector clocks.

ghost use Rattle.sab_judge.specs.declared.trace.TheConstants.Trace.{MAX_EVENTS, MAX_AGENTS};

use crate::trace::Trace;

/// How many agents there can be, as the length of an array.
pub(crate) const AGENTS: usize = Trace::MAX_AGENTS as usize;

/// For each agent a bound: the events of the agent at positions below it are known.
#[derive(Clone, Copy, Debug)]
pub(crate) struct Clock {
    pub(crate) bounds: [u32; AGENTS],
}

impl Clock {
    ghost use Rattle.std.specs.Prelude.{◌≡◌, ◌+◌, ◌<◌, ◌≢◌, ℕ, max, slice_index, nat_lt};
    ghost use Rattle.sab_judge.specs.Clock.{KnowsNothing, KnowsBoth};

    /// Nothing is known.
    pub(crate) fn new() -> Clock
        ensures { KnowsNothing result }
    {
        Clock {
            bounds: [0; AGENTS],
        }
    }

    /// The bound of an agent.
    pub(crate) fn bound(&self, agent: u32) -> usize
        requires { agent < MAX_AGENTS }
        ensures { result ≡ slice_index self.now.bounds agent }
    {
        self.bounds[agent as usize] as usize
    }

    /// Whether an event of the agent is known.
    pub(crate) fn knows(&self, agent: u32, i: usize) -> bool
        requires { agent < MAX_AGENTS }
        ensures { result ≡ nat_lt i (slice_index self.now.bounds agent) }
    {
        i < self.bound(agent)
    }

    /// What either knows.
    pub(crate) fn joined(&self, other: &Clock) -> Clock
        ensures { KnowsBoth self.now other.now result }
    {
        let mut both = *self;
        for b in 0..AGENTS {
            both.bounds[b] = self.bounds[b].max(other.bounds[b]);
        }
        both
    }

    /// And the agent's events up to this one.
    pub(crate) fn up_to(mut self, agent: u32, i: usize) -> Clock
        requires agent { agent < MAX_AGENTS }
        requires small { i < MAX_EVENTS }
        ensures own { slice_index result.bounds agent ≡ i + 1 }
        ensures others { (b : ℕ) → b ≢ agent → slice_index result.bounds b ≡ slice_index self.bounds b }
    {
        self.bounds[agent as usize] = i as u32 + 1;
        self
    }
}
