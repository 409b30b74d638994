//! Agents that wait for each other, which fewer threads than agents can't do.

use crate::adders::race_adders;
use crate::turning::turn_until;
use crate::watching::Hold;
use crate::way::Way;
use std::sync::atomic::{AtomicU32, Ordering};
use std::test::Fail;

/// Where agents meet: before a move, or after it.
#[derive(Clone, Copy)]
enum Side {
    Before,
    After,
}

/// Holds agents back at two of their moves until each of them has come there.
#[derive(Drop)]
struct Meeting {
    side: Side,
    agents: u32,
    first: u32,
    second: u32,
    came_first: AtomicU32,
    came_second: AtomicU32,
}

impl Meeting {
    /// So many agents meet, at these of their moves. None has come yet.
    fn new(side: Side, agents: u32, [first, second]: [u32; 2]) -> Meeting {
        Meeting {
            side,
            agents,
            first,
            second,
            came_first: AtomicU32::new(0),
            came_second: AtomicU32::new(0),
        }
    }

    /// Comes to a move, and where agents meet there turns until each has come.
    fn meet(&self, k: u32) -> bool {
        let came = if k == self.first {
            &self.came_first
        } else if k == self.second {
            &self.came_second
        } else {
            return true;
        };
        came.fetch_add(1, Ordering::SeqCst);
        turn_until(came, self.agents)
    }
}

impl Hold for Meeting {
    fn before(&self, _agent: u32, k: u32) -> bool {
        matches!(self.side, Side::After) || self.meet(k)
    }

    fn applied(&self, _agent: u32, k: u32) -> bool {
        matches!(self.side, Side::Before) || self.meet(k)
    }
}

/// Before they ask for the lock, after they gave it back, and before they push.
const PLACES: [(Way, Side); 4] = [
    (Way::Lock, Side::Before),
    (Way::Lock, Side::After),
    (Way::PATIENT, Side::Before),
    (Way::MIXED, Side::Before),
];

/// How many agents meet, how often each adds, and at which of its moves they meet: at all that they have; and at an
/// early one and at a late one.
const MEETINGS: [(u32, &[u32], [u32; 2]); 2] = [(2, &[1; 2], [0, 2]), (16, &[34; 16], [0, 90])];

#[test]
fn agents_meet(rt: HostRuntime) -> Result<(), Fail> {
    for &(agents, counts, moves) in &MEETINGS {
        for &(way, side) in &PLACES {
            let meeting = Meeting::new(side, agents, moves);
            race_adders(&rt, rt.alloc(), way, counts, meeting)?;
        }
    }
    Ok(())
}
