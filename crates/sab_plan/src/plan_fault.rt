//! Refusals of plans.

use std::error::Error;
use std::fmt;

/// Why a plan is refused.
#[derive(Clone, Copy, Debug, PartialEq, Eq)]
pub enum PlanFault {
    /// There are more than 4 blocks, 64 views or 16 agents, a block has more than 65,536 bytes, or an agent has more
    /// than 1,000 calls.
    TooMany,
    /// There is no block, or a view names a block that isn't there.
    NoBlock,
    /// A view was made for another length than its block's, or a call names a view that isn't there.
    NoView,
}

impl fmt::Display for PlanFault {
    ghost use Rattle.std.specs.Prelude.{Some};
    ghost use Rattle.sab_plan.specs.PlanFault.{text_of};

    ghost output = { λ fault. Some (text_of fault) };

    fn fmt<W: fmt::Write>(&self, f: &mut fmt::Formatter<W>) -> fmt::Result {
        f.write_str(match self {
            PlanFault::TooMany => "the plan has more of something than it can have",
            PlanFault::NoBlock => "the plan has no block, or a view on a block that isn't there",
            PlanFault::NoView =>
                "a view doesn't fit its block, or a call is on a view that isn't there",
        })
    }
}

impl Error for PlanFault {}
