//! The ways in which agents run in threads, and the plans that they run.

ghost use Rattle.std.specs.Prelude.{◌≤◌};

use sab_block::{Access, Kind, RmwOp};
use sab_race::{Gate, MAX_SPINS, RaceFault, run_locked, run_rings, run_rings_mixed};
use sab_sim::{Call, Plan, PlanView, Report};
use std::alloc::Global;
use std::sync::{Arc, Wait};
use std::test::Fail;
use std::thread::Threads;
use test_helpers::{number, plan, whole};

/// How the agents of a race share the simulator.
#[derive(Clone, Copy)]
pub enum Way {
    Lock,
    Rings { patience: u32 },
    /// By rings, whose owner looks where a seed says.
    Mixed { seed: u64, patience: u32 },
}

impl Way {
    /// By the lock, and by rings with the patience of a program.
    pub const BOTH: [Way; 2] = [
        Way::Lock,
        Way::Rings {
            patience: 1_000_000,
        },
    ];

    /// By rings, with a patience that lasts until all moves came.
    pub const PATIENT: Way = Way::Rings {
        patience: 4_000_000_000,
    };

    /// By rings, whose owner looks where a seed says until all moves came.
    pub const MIXED: Way = Way::Mixed {
        seed: 1,
        patience: 4_000_000_000,
    };

    /// Those in which gates can force an order: by the lock, and by rings until all moves came.
    pub const FORCIBLE: [Way; 4] = [
        Way::Lock,
        Way::PATIENT,
        Way::MIXED,
        Way::Mixed {
            seed: u64::MAX,
            patience: 4_000_000_000,
        },
    ];

    /// By the lock, and by rings with no patience, little, that of a program, and one that lasts until all moves came;
    /// mixed too, with little and much.
    pub const ALL: [Way; 8] = [
        Way::Lock,
        Way::Rings { patience: 0 },
        Way::Rings { patience: 1 },
        Way::Rings { patience: 2 },
        Way::Rings {
            patience: 1_000_000,
        },
        Way::PATIENT,
        Way::Mixed {
            seed: 7,
            patience: 1,
        },
        Way::Mixed {
            seed: 7,
            patience: 1_000_000,
        },
    ];

    /// Runs the agents of a plan. `spins` is at most [`MAX_SPINS`].
    pub fn race<R: Threads + Wait + Sync, G: Gate + 'static>(
        self,
        rt: &R,
        alloc: Global,
        plan: Plan,
        spins: u32,
        gate: Arc<G>,
    ) -> Result<Report, RaceFault>
        requires { spins ≤ MAX_SPINS }
    {
        match self {
            Way::Lock => run_locked(rt, alloc, plan, spins, gate),
            Way::Rings { patience } => run_rings(rt, alloc, plan, spins, patience, gate),
            Way::Mixed { seed, patience } => {
                run_rings_mixed(rt, alloc, plan, spins, patience, gate, seed)
            }
        }
    }
}

/// One Int32 view, of a block of 4 bytes.
pub fn word(block: u32) -> Result<PlanView, Fail> {
    whole(Kind::Int32, block, 4)
}

/// Adds 1 to the first element of a view.
pub fn add_one(view: u32) -> Call {
    let access = Access::Rmw {
        op: RmwOp::Add,
        index: 0,
        value: number(1),
    };
    Call::Access { view, access }
}

/// Agents that can block, each with its calls, on one Int32 view of a block of 4 bytes.
pub fn word_plan(alloc: Global, agents: &[(bool, &[Call])]) -> Result<Plan, Fail> {
    plan(alloc, &[4], &[word(0)?], agents)
}
