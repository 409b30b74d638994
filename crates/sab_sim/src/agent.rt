//! Where agents stand.

ghost use Rattle.std.specs.Prelude.{◌≡◌, slice_get};

use sab_plan::{Answer, Place};

/// Where an agent stands.
#[derive(Clone, Copy, Debug, PartialEq, Eq)]
pub struct Agent {
    /// How many of its calls have returned.
    pub returned: u32,
    /// How far it is with its next call.
    pub phase: Phase,
}

/// How far an agent is with a call.
#[derive(Clone, Copy, Debug, PartialEq, Eq)]
pub enum Phase {
    /// Its next call hasn't begun.
    Ready,
    /// Its call has begun and hasn't acted.
    Begun,
    /// It stands in the line of a place. Tickets count from 0 and each agent that joins a line takes the next, so they
    /// rise with the order of arrival.
    Waiting { place: Place, ticket: u32 },
    /// It was woken and hasn't left its wait.
    Woken,
    /// Its call has this answer and hasn't returned.
    Answered(Answer),
}

impl Phase {
    ghost use Rattle.sab_sim.specs.Agent.{waiting_phase, woken_phase};

    /// Whether the agent stands in a line.
    pub fn is_waiting(self) -> bool
        ensures { result ≡ waiting_phase self }
    {
        matches!(self, Phase::Waiting { .. })
    }

    /// Whether the agent was woken and hasn't left its wait.
    pub fn is_woken(self) -> bool
        ensures { result ≡ woken_phase self }
    {
        matches!(self, Phase::Woken)
    }
}

/// An agent, by its number; none, where there is no such agent.
pub fn find_agent(agents: &[Agent], agent: u32) -> Option<Agent>
    ensures { result ≡ slice_get agents.now agent }
{
    agents.get(agent as usize).copied()
}
