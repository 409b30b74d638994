//! Agents that are slow, beside quick ones.

use crate::adders::race_adders;
use crate::turning::turn;
use crate::watching::Hold;
use crate::way::Way;
use std::test::Fail;

/// Turns so often before each move of one agent.
#[derive(Clone, Copy)]
pub struct Slow {
    /// The one that is slow, or none where each is.
    pub agent: Option<u32>,
    pub turns: u64,
}

impl Slow {
    /// None is.
    pub const NONE: Slow = Slow {
        agent: None,
        turns: 0,
    };
}

impl Hold for Slow {
    fn before(&self, agent: u32, _k: u32) -> bool {
        if self.agent == Some(agent) || self.agent.is_none() {
            turn(self.turns);
        }
        true
    }

    fn applied(&self, _agent: u32, _k: u32) -> bool {
        true
    }
}

#[test]
fn a_slow_agent_loses_nothing(rt: HostRuntime) -> Result<(), Fail> {
    let one = Slow {
        agent: Some(3),
        turns: 1_000,
    };
    for way in &Way::ALL {
        race_adders(&rt, rt.alloc(), *way, &[34; 16], one)?;
    }
    Ok(())
}
