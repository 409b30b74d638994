//! Threads that have ended once a race is over.

use crate::adders::race_watched;
use crate::slow::Slow;
use crate::turning::turn;
use crate::way::Way;
use std::sync::Arc;
use std::test::Fail;
use test_helpers::expect;

#[test]
fn no_thread_goes_on_after_a_race(rt: HostRuntime) -> Result<(), Fail> {
    let slow = Slow {
        agent: None,
        turns: 100,
    };
    for way in [Way::Lock, Way::Rings { patience: 0 }, Way::PATIENT] {
        let (_, gate) = race_watched(&rt, rt.alloc(), way, &[2; 16], slow)?;
        expect(Arc::strong_count(&gate) == 1, "the gate has another owner")?;
        turn(1_000_000);
        expect(gate.saw(&[6; 16]), "a thread goes on")?;
    }
    Ok(())
}
