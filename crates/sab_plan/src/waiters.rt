//! The agents that wait at a place.

ghost use Rattle.std.specs.Prelude.{◌≡◌, ◌<◌, ◌≤◌, ◌++◌, ◌∷◌, [], length, take};
ghost use Rattle.sab_plan.specs.declared.plan.TheConstants.Plan.{MAX_AGENTS};

use crate::plan::Plan;
use std::marker::Model;

/// The agents that wait at a place, oldest first. They are at most 16, as many as a plan can have, and take no memory.
#[derive(Drop)]
pub struct Waiters {
    agents: [u32; Plan::MAX_AGENTS],
    len: usize,
}

impl Model for Waiters {
    ghost use Rattle.std.specs.Prelude.{ℕ, List, take, ◌≤◌};
    ghost use Rattle.sab_plan.specs.declared.plan.TheConstants.Plan.{MAX_AGENTS};

    ghost Value = { List ℕ };

    ghost view = { λ w. take w.len w.agents };

    ghost invariant = { λ w. w.len ≤ MAX_AGENTS };
}

impl Waiters {
    /// No agents.
    pub fn new() -> Waiters
        ensures { result ≡ [] }
    {
        Waiters {
            agents: [0; Plan::MAX_AGENTS],
            len: 0,
        }
    }

    /// Appends an agent. There are fewer than 16 before.
    pub fn push(&mut self, agent: u32)
        requires { length self.old < MAX_AGENTS }
        ensures { self.new ≡ self.old ++ agent ∷ [] }
    {
        self.agents[self.len] = agent;
        self.len += 1;
    }

    /// The agents, oldest first.
    pub fn agents(&self) -> &[u32]
        ensures agents { result.now ≡ self.now }
        ensures most { length self.now ≤ MAX_AGENTS }
    {
        &self.agents[..self.len]
    }

    /// Keeps the `n` oldest alone, or all, where there are no more.
    pub fn truncate(&mut self, n: usize)
        ensures { self.new ≡ take n self.old }
    {
        if n < self.len {
            self.len = n;
        }
    }
}
