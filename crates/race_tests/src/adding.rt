//! Agents that add to one element at the same time.

use crate::adders::{adders, race_adders};
use crate::slow::Slow;
use crate::way::{Way, add_one, word};
use sab_race::NoGate;
use sab_sim::{Call, Plan, Progress, Report, replay};
use std::alloc::Global;
use std::sync::{Arc, Wait};
use std::test::Fail;
use std::thread::Threads;
use test_helpers::{expect, is_same, plan};

/// Whether the replay of four adders by a report's schedule gives that report.
fn comes_back(alloc: Global, report: &Report) -> Result<bool, Fail> {
    let again = replay(alloc, adders(alloc, &[100; 4])?, &report.schedule)?;
    Ok(is_same(&again, report))
}

#[test]
fn adders_lose_nothing_and_their_race_can_be_replayed(rt: HostRuntime) -> Result<(), Fail> {
    for way in &Way::ALL {
        let (report, _) = race_adders(&rt, rt.alloc(), *way, &[100; 4], Slow::NONE)?;
        expect(comes_back(rt.alloc(), &report)?, "another replay")?;
    }
    Ok(())
}

/// Whether four agents added a hundred times each, two of them to each of two blocks.
fn are_two_hundred_each(report: &Report) -> bool {
    let whole = Progress {
        returned: 100,
        total: 100,
    };
    let sum = [0xc8, 0, 0, 0];
    let [first, second] = report.blocks.as_slice() else {
        return false;
    };
    first.as_slice() == sum.as_slice()
        && second.as_slice() == sum.as_slice()
        && report.journal.len() == 1_200
        && report.agents.as_slice() == [whole; 4].as_slice()
}

/// Four agents that add a hundred times each, two of them to each of two blocks.
fn adders_on_two_blocks(alloc: Global) -> Result<Plan, Fail> {
    let first = [add_one(0); 100];
    let second = [add_one(1); 100];
    let agents: [(bool, &[Call]); 4] = [
        (true, &first),
        (true, &first),
        (true, &second),
        (true, &second),
    ];
    plan(alloc, &[4, 4], &[word(0)?, word(1)?], &agents)
}

/// Whether two of them come to two hundred on each block.
fn count_apart<R: Threads + Wait + Sync>(rt: &R, alloc: Global, way: Way) -> Result<bool, Fail> {
    let plan = adders_on_two_blocks(alloc)?;
    let report = way.race(rt, alloc, plan, 0, Arc::new(alloc, NoGate)?)?;
    Ok(are_two_hundred_each(&report))
}

#[test]
fn adders_on_two_blocks_count_apart(rt: HostRuntime) -> Result<(), Fail> {
    for way in &Way::BOTH {
        expect(count_apart(&rt, rt.alloc(), *way)?, "another sum")?;
    }
    Ok(())
}
