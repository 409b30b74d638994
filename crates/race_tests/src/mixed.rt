//! Rings whose owner looks where a seed says.

use crate::adders::race_adders;
use crate::order::Order;
use crate::slow::Slow;
use crate::way::Way;
use std::test::Fail;
use test_helpers::expect;

/// How often each of four agents adds 1, with three moves each time.
const COUNTS: [u32; 4] = [1, 2, 0, 1];

/// For each seed whose moves its owner makes, in order, out of rings that are full. By the seed 0 it goes round. By
/// another it looks first into the ring that a number of SplitMix64 leaves over by 4, and then up and round for one
/// with a move; the numbers begin with the one at the seed itself, and were computed elsewhere.
const DRAWN: [(u64, [u32; 12]); 4] = [
    (0, [0, 1, 3, 0, 1, 3, 0, 1, 3, 1, 1, 1]),
    (1, [1, 1, 3, 3, 3, 1, 0, 1, 1, 0, 0, 1]),
    (2, [3, 3, 3, 0, 0, 1, 0, 1, 1, 1, 1, 1]),
    (u64::MAX, [3, 0, 1, 1, 3, 3, 0, 1, 0, 1, 1, 1]),
];

#[test]
fn an_owner_looks_where_its_seed_says(rt: HostRuntime) -> Result<(), Fail> {
    for (seed, agents) in &DRAWN {
        let order = Order::new(agents.to_vec(rt.alloc())?);
        let way = Way::Mixed {
            seed: *seed,
            patience: 0,
        };
        let (report, _) = race_adders(&rt, rt.alloc(), way, &COUNTS, Slow::NONE)?;
        expect(order.is_of(&report.schedule), "another order")?;
    }
    Ok(())
}
