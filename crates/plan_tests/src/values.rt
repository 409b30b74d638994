//! What plain values show, and their copies.

use sab_block::{Access, Block, Kind, Operand, RmwOp, Thrown, View};
use sab_race::RaceFault;
use sab_sim::Answer::Count;
use sab_sim::Move::{Step, TimeUp};
use sab_sim::What::Acted;
use sab_sim::{Entry, Plan, PlanFault, Progress, SimFault, replay};
use std::alloc::{AllocError, Global};
use std::fmt;
use std::test::Fail;
use test_helpers::{expect, notify, plan, whole};

/// Whether a value shows this.
pub fn shows<T: fmt::Debug>(alloc: Global, value: &T, text: &str) -> Result<bool, AllocError> {
    let shown = format!(in alloc; "{value:?}")?;
    Ok(shown.as_str() == text)
}

/// Fails, and shows what is expected, if a value shows something else or has another copy.
fn expect_shown<T: fmt::Debug + Clone + PartialEq + Drop>(
    alloc: Global,
    value: &T,
    text: &'static str,
) -> Result<(), Fail> {
    let is_copied = value.clone()? == *value;
    expect(is_copied && shows(alloc, value, text)?, text)
}

const OF_BLOCKS: &str = concat!(
    "((View { kind: BigInt64, block_len: 24, offset: 8, len: 1 }, Uint8Clamped), ",
    "(RangeError, Exchange, Load { index: -1 }), ",
    "(Operand { big: true, whole: -1 }, Operand { big: false, whole: 9007199254740991 }))"
);

#[test]
fn values_of_blocks_show_their_parts_and_have_copies(rt: HostRuntime) -> Result<(), Fail> {
    let view = View::new(Kind::BigInt64, 24, 8, Some(1))?;
    let least = Operand::big(-1);
    let greatest = Operand::number(9_007_199_254_740_991).ok_or("no safe integer")?;
    let values = (
        (view, Kind::Uint8Clamped),
        (
            Thrown::RangeError,
            RmwOp::Exchange,
            Access::Load { index: -1 },
        ),
        (least, greatest),
    );
    expect_shown(rt.alloc(), &values, OF_BLOCKS)
}

/// One agent that notifies twice, on a block of two bytes.
fn notifier(alloc: Global) -> Result<Plan, Fail> {
    let calls = [notify(0, 1, None), notify(0, -1, Some(3))];
    plan(
        alloc,
        &[2],
        &[whole(Kind::Int8, 0, 2)?],
        &[(true, &calls), (false, &[])],
    )
}

/// What a block of three bytes, the plan, its scripts and the report of two moves show.
const SHOWN: &str = concat!(
    "Block { bytes: [0, 0, 0] }\n",
    "Plan { lens: [2], views: [PlanView { block: 0, view: ",
    "View { kind: Int8, block_len: 2, offset: 0, len: 2 } }], ",
    "scripts: [Script { can_block: true, calls: [Notify { view: 0, index: 1, count: None }, ",
    "Notify { view: 0, index: -1, count: Some(3) }] }, Script { can_block: false, calls: [] }] }\n",
    "[Script { can_block: true, calls: [Notify { view: 0, index: 1, count: None }, ",
    "Notify { view: 0, index: -1, count: Some(3) }] }, Script { can_block: false, calls: [] }]\n",
    "Report { schedule: [Step(0), TimeUp(1)], journal: [Entry { agent: 0, call: 0, what: Began }, ",
    "Entry { agent: 1, call: 0, what: Stuck(NotWaiting) }], blocks: [[0, 0]], ",
    "agents: [Progress { returned: 0, total: 2 }, Progress { returned: 0, total: 0 }] }"
);

#[test]
fn blocks_plans_scripts_and_reports_show_their_parts(rt: HostRuntime) -> Result<(), Fail> {
    let alloc = rt.alloc();
    let (block, plan) = (Block::new(alloc, 3)?, notifier(alloc)?);
    let scripts = plan.scripts();
    let report = replay(alloc, plan.copy(alloc)?, &[Step(0), TimeUp(1)])?;
    let shown = format!(in alloc; "{block:?}\n{plan:?}\n{scripts:?}\n{report:?}")?;
    expect(shown.as_str() == SHOWN, "other parts")
}

const OF_PLANS_AND_RACES: &str = concat!(
    "((PlanView { block: 2, view: View { kind: Int8, block_len: 4, offset: 0, len: 4 } }, ",
    "Notify { view: 1, index: 2, count: Some(3) }, ",
    "Entry { agent: 1, call: 2, what: Acted(Count(3)) }), ",
    "(Progress { returned: 1, total: 2 }, TimeUp(1)), (NoView, Full, NoThread))"
);

#[test]
fn values_of_plans_and_races_show_their_parts_and_have_copies(rt: HostRuntime) -> Result<(), Fail> {
    let view = whole(Kind::Int8, 2, 4)?;
    let entry = Entry {
        agent: 1,
        call: 2,
        what: Acted(Count(3)),
    };
    let progress = Progress {
        returned: 1,
        total: 2,
    };
    let values = (
        (view, notify(1, 2, Some(3)), entry),
        (progress, TimeUp(1)),
        (PlanFault::NoView, SimFault::Full, RaceFault::NoThread),
    );
    expect_shown(rt.alloc(), &values, OF_PLANS_AND_RACES)
}
