//! Plans that are made or refused, and the parts of one.

use sab_block::{Access, Kind};
use sab_sim::{Call, Plan, PlanFault, PlanView, Script};
use std::alloc::{AllocError, Global};
use std::test::Fail;
use test_helpers::{expect, notify, plan, wait, whole};

const LOAD: Call = Call::Access {
    view: 0,
    access: Access::Load { index: 0 },
};

/// The parts of a plan.
#[derive(Clone, Copy)]
struct Parts {
    /// How many blocks there are, how long the last one is, and how long each other one is.
    blocks: usize,
    last: u32,
    others: u32,
    /// How many views there are, and of which kind. Each is of a whole block of this length.
    views: usize,
    kind: Kind,
    block: u32,
    block_len: u32,
    /// How many agents there are, whether they can block, and how many calls each has.
    agents: usize,
    can_block: bool,
    calls: usize,
}

/// One block of four bytes.
const WORD: Parts = Parts {
    blocks: 1,
    last: 4,
    others: 4,
    views: 0,
    kind: Kind::Int32,
    block: 0,
    block_len: 4,
    agents: 0,
    can_block: true,
    calls: 0,
};

/// As many views, agents and calls as there can be.
const FULL: Parts = Parts {
    views: 64,
    agents: 16,
    calls: 1_000,
    ..WORD
};

/// One block of no bytes, and no agent.
const NOTHING: Parts = Parts { last: 0, ..WORD };

/// An agent that has no calls, on one block of no bytes.
const IDLE: Parts = Parts {
    agents: 1,
    ..NOTHING
};

/// An agent that has one call, on a view of one block.
const ONE_CALL: Parts = Parts {
    views: 1,
    agents: 1,
    calls: 1,
    ..WORD
};

const TOO_MANY: Option<PlanFault> = Some(PlanFault::TooMany);

const NO_BLOCK: Option<PlanFault> = Some(PlanFault::NoBlock);

const NO_VIEW: Option<PlanFault> = Some(PlanFault::NoView);

/// What parts show, the parts, and why there is no plan of them.
const PARTS: [(&str, Parts, Option<PlanFault>); 12] = [
    (
        "the longest blocks",
        Parts {
            blocks: 4,
            last: 65_536,
            others: 65_536,
            ..WORD
        },
        None,
    ),
    (
        "too long a block",
        Parts {
            last: 65_537,
            ..WORD
        },
        TOO_MANY,
    ),
    (
        "too long a last block",
        Parts {
            blocks: 4,
            last: 65_537,
            ..WORD
        },
        TOO_MANY,
    ),
    (
        "a block of the greatest number",
        Parts {
            last: u32::MAX,
            ..WORD
        },
        TOO_MANY,
    ),
    (
        "five blocks",
        Parts {
            blocks: 5,
            last: 0,
            others: 0,
            ..WORD
        },
        TOO_MANY,
    ),
    ("no block", Parts { blocks: 0, ..WORD }, NO_BLOCK),
    (
        "a view on no block",
        Parts {
            views: 1,
            block: 1,
            ..WORD
        },
        NO_BLOCK,
    ),
    (
        "a view of another length",
        Parts {
            views: 1,
            block_len: 8,
            ..WORD
        },
        NO_VIEW,
    ),
    (
        "a call on no view",
        Parts {
            views: 0,
            ..ONE_CALL
        },
        NO_VIEW,
    ),
    ("one view too many", Parts { views: 65, ..FULL }, TOO_MANY),
    ("one agent too many", Parts { agents: 17, ..FULL }, TOO_MANY),
    (
        "one call too many",
        Parts {
            calls: 1_001,
            ..FULL
        },
        TOO_MANY,
    ),
];

/// The lengths of the blocks.
fn lens(alloc: Global, parts: &Parts) -> Result<Vec<u32>, AllocError> {
    let mut lens = vec![in alloc; parts.others; parts.blocks]?;
    if let Some(last) = lens.last_mut() {
        *last = parts.last;
    }
    Ok(lens)
}

/// The views.
fn views(alloc: Global, parts: &Parts) -> Result<Vec<PlanView>, Fail> {
    let view = whole(parts.kind, parts.block, parts.block_len)?;
    Ok(vec![in alloc; view; parts.views]?)
}

/// The agents, of which each makes the same call so often.
fn scripts(alloc: Global, parts: &Parts, call: Call) -> Result<Vec<Script>, AllocError> {
    let mut scripts = Vec::new(alloc);
    for _ in 0..parts.agents {
        scripts.push(Script {
            can_block: parts.can_block,
            calls: vec![in alloc; call; parts.calls]?,
        })?;
    }
    Ok(scripts)
}

/// A plan of these parts, or why there is none.
fn made(alloc: Global, parts: &Parts, call: Call) -> Result<Result<Plan, PlanFault>, Fail> {
    let scripts = scripts(alloc, parts, call)?;
    let views = views(alloc, parts)?;
    Ok(Plan::new(lens(alloc, parts)?, views, scripts))
}

/// A plan of these parts that is expected to be one.
fn plan_with(alloc: Global, parts: &Parts, call: Call) -> Result<Plan, Fail> {
    match made(alloc, parts, call)? {
        Ok(plan) => Ok(plan),
        Err(_) => Err(Fail::new("no plan")),
    }
}

#[test]
fn parts_that_do_not_fit_are_refused(rt: HostRuntime) -> Result<(), Fail> {
    for (shows, parts, fault) in &PARTS {
        let found = made(rt.alloc(), parts, LOAD)?.err();
        expect(found == *fault, *shows)?;
    }
    Ok(())
}

/// Whether a plan and its copy are equal, and another plan differs.
fn is_copied(alloc: Global, plan: &Plan, other: &Plan) -> Result<bool, AllocError> {
    Ok(plan.copy(alloc)? == *plan && plan != other && other != plan)
}

/// The same of plans of these parts, whose agents make the same call.
fn differs(alloc: Global, one: &Parts, other: &Parts, call: Call) -> Result<bool, Fail> {
    let one = plan_with(alloc, one, call)?;
    let other = plan_with(alloc, other, call)?;
    Ok(is_copied(alloc, &one, &other)?)
}

/// Whether a plan has 64 views and 16 agents of 1,000 calls.
fn is_full(plan: &Plan) -> bool {
    for script in plan.scripts() {
        if script.calls.len() != 1_000 {
            return false;
        }
    }
    plan.scripts().len() == 16 && plan.views().len() == 64
}

/// The copy of a plan that has as much as there can be.
fn full_copy(alloc: Global) -> Result<Plan, Fail> {
    let full = plan_with(alloc, &FULL, LOAD)?;
    Ok(full.copy(alloc)?)
}

/// The parts of plans that are copied, and each time those of another plan.
const COPIED: [(Parts, Parts); 3] = [(NOTHING, FULL), (FULL, IDLE), (IDLE, NOTHING)];

#[test]
fn a_plan_at_its_limits_and_one_of_nothing_are_copied(rt: HostRuntime) -> Result<(), Fail> {
    let alloc = rt.alloc();
    for (one, other) in &COPIED {
        expect(differs(alloc, one, other, LOAD)?, "another copy")?;
    }
    expect(is_full(&full_copy(alloc)?), "another size")
}

/// The parts of plans that each differ in one thing from a plan of an agent that waits once at a word.
const OTHERS: [Parts; 4] = [
    Parts {
        blocks: 2,
        ..ONE_CALL
    },
    Parts {
        kind: Kind::Uint8,
        ..ONE_CALL
    },
    Parts {
        can_block: false,
        ..ONE_CALL
    },
    Parts {
        calls: 0,
        ..ONE_CALL
    },
];

#[test]
fn plans_of_other_parts_differ(rt: HostRuntime) -> Result<(), Fail> {
    let waits = wait(0, 0, None);
    for other in &OTHERS {
        let is_other = differs(rt.alloc(), &ONE_CALL, other, waits)?;
        expect(is_other, "another plan is the same")?;
    }
    Ok(())
}

/// The calls of both agents of a plan.
fn wait_and_notify() -> [Call; 2] {
    [wait(0, 0, None), notify(0, 0, Some(1))]
}

/// A plan of two agents on a word, of which the first can block.
fn two_agents(alloc: Global) -> Result<Plan, Fail> {
    let calls = wait_and_notify();
    let views = [whole(Kind::Int32, 0, 4)?];
    plan(alloc, &[4], &views, &[(true, &calls), (false, &calls)])
}

/// Whether an agent can block or not as is said, and has those calls.
fn is_script(script: &Script, can_block: bool) -> bool {
    script.can_block == can_block && script.calls.as_slice() == wait_and_notify().as_slice()
}

/// Whether a plan has the parts of the plan of two agents.
fn has_parts(plan: &Plan, view: PlanView) -> bool {
    let [first, second] = plan.scripts() else {
        return false;
    };
    plan.block_lens() == [4].as_slice()
        && plan.views() == [view].as_slice()
        && is_script(first, true)
        && is_script(second, false)
}

/// Whether the first agent's script and its copy are equal.
fn is_script_copied(alloc: Global, plan: &Plan) -> Result<bool, AllocError> {
    match plan.scripts().first() {
        Some(script) => Ok(script.copy(alloc)? == *script),
        None => Ok(false),
    }
}

#[test]
fn a_plan_and_its_copy_have_its_parts(rt: HostRuntime) -> Result<(), Fail> {
    let view = whole(Kind::Int32, 0, 4)?;
    let made = two_agents(rt.alloc())?;
    let copy = made.copy(rt.alloc())?;
    let is_copied = copy == made && is_script_copied(rt.alloc(), &made)?;
    let have_parts = has_parts(&made, view) && has_parts(&copy, view);
    expect(have_parts && is_copied, "other parts")
}
