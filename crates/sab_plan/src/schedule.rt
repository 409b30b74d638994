//! Schedules, which are lists of moves.

ghost use Rattle.std.specs.Prelude.{◌≡◌};
ghost use Rattle.sab_plan.specs.Schedule.{agent_of};

/// A move of a schedule, by an agent's number.
#[derive(Clone, Copy, Debug, PartialEq, Eq)]
pub enum Move {
    /// The agent goes on by one step.
    Step(u32),
    /// The time of the agent's wait is up.
    TimeUp(u32),
}

impl Move {
    /// The agent that it names.
    pub fn agent(self) -> u32
        ensures { result ≡ agent_of self }
    {
        match self {
            Move::Step(agent) | Move::TimeUp(agent) => agent,
        }
    }
}
