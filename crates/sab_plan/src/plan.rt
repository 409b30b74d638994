//! Plans.

ghost use Rattle.std.specs.Prelude.{◌≡◌, ◌↔◌, IsTrue, IfOk, IfErr};
ghost use Rattle.std.specs.Cmp.Lexicographic.{pointwise};
ghost use Rattle.std.specs.Cmp.Rules.{comparing};
ghost use Rattle.std.specs.Ordering.{on, eq_of_both};
ghost use Rattle.sab_plan.specs.contracts.plan_view.PlanViewEq.TheImpl.Laws as view_laws;
ghost use Rattle.sab_plan.specs.contracts.script.ScriptEq.TheImpl.Laws as script_laws;
ghost use Rattle.sab_plan.specs.Plan.{IsPlan, Refuses, parts_of};

use crate::limits::{is_within_limits, names_blocks, names_views};
use crate::plan_fault::PlanFault;
use crate::plan_view::PlanView;
use crate::script::Script;
use std::alloc::{AllocError, Global};
use std::marker::Model;

/// Blocks, views on them, and the scripts of the agents.
#[derive(Debug, Drop)]
pub struct Plan {
    lens: Vec<u32>,
    views: Vec<PlanView>,
    scripts: Vec<Script>,
}

impl Model for Plan {
    ghost use Rattle.sab_plan.specs.Plan.{PlanParts, IsPlan, parts_of};

    ghost Value = { PlanParts };

    ghost view = { λ p. parts_of p.lens.items p.views.items p.scripts.items };

    ghost invariant = { λ p. IsPlan (parts_of p.lens.items p.views.items p.scripts.items) };
}

// The clauses cite the constant: so its number is held here.
const _: () = prove!(Plan::MAX_AGENTS == 16);

impl Plan {
    /// How many blocks a plan can have.
    pub const MAX_BLOCKS: usize = 4;

    /// How many bytes a block can have.
    pub const MAX_BLOCK_LEN: u32 = 65_536;

    /// How many views a plan can have.
    pub const MAX_VIEWS: usize = 64;

    /// How many agents a plan can have.
    pub const MAX_AGENTS: usize = 16;

    /// How many calls an agent can have.
    pub const MAX_CALLS: usize = 1_000;

    /// A plan of blocks, by their lengths, of views on them and of agents, by their scripts. It takes no memory.
    ///
    /// Refused are, in this order, parts beyond a limit (TooMany), no block at all or a view on a block that isn't
    /// there (NoBlock), and a view for another length than its block's or a call on a view that isn't there (NoView).
    /// After a refusal the parts are dropped.
    pub fn new(
        lens: Vec<u32>,
        views: Vec<PlanView>,
        scripts: Vec<Script>,
    ) -> Result<Plan, PlanFault>
        ensures plan { IfOk result (λ plan. plan ≡ parts_of lens.items views.items scripts.items) }
        ensures valid { IfOk result IsPlan }
        ensures refused { IfErr result (Refuses (parts_of lens.items views.items scripts.items)) }
    {
        if !is_within_limits(&lens, &views, &scripts) {
            return Err(PlanFault::TooMany);
        }
        if !names_blocks(&lens, &views) {
            return Err(PlanFault::NoBlock);
        }
        if !names_views(&lens, &views, &scripts) {
            return Err(PlanFault::NoView);
        }
        Ok(Plan {
            lens,
            views,
            scripts,
        })
    }

    /// Another plan of the same parts.
    pub fn copy(&self, alloc: Global) -> Result<Plan, AllocError>
        ensures { IfOk result (λ plan. plan ≡ self.now) }
    {
        let mut scripts = Vec::with_capacity(alloc, self.scripts.len())?;
        for script in &self.scripts {
            scripts.push_reserved(script.copy(alloc)?);
        }
        Ok(Plan {
            lens: self.lens.to_vec(alloc)?,
            views: self.views.to_vec(alloc)?,
            scripts,
        })
    }

    /// The length of each block, in bytes: 1 to 4 blocks of at most 65,536 bytes.
    pub fn block_lens(&self) -> &[u32]
        ensures lens { result.now ≡ self.now.lens }
        ensures valid { IsPlan self.now }
    {
        self.lens.as_slice()
    }

    /// The views, at most 64.
    pub fn views(&self) -> &[PlanView]
        ensures views { result.now ≡ self.now.views }
        ensures valid { IsPlan self.now }
    {
        self.views.as_slice()
    }

    /// What the agents are to do: at most 16 scripts of at most 1,000 calls.
    pub fn scripts(&self) -> &[Script]
        ensures scripts { result.now ≡ self.now.scripts }
        ensures valid { IsPlan self.now }
    {
        self.scripts.as_slice()
    }
}

impl PartialEq for Plan {
    ghost eq = { eq_of_both (on (λ p. p.lens) (pointwise ⟦<u32 as PartialEq>⟧.eq)) (eq_of_both
        (on (λ p. p.views) (pointwise ⟦<PlanView as PartialEq>⟧.eq))
        (on (λ p. p.scripts) (pointwise ⟦<Script as PartialEq>⟧.eq))) };

    ghost laws = { Prim.search (comparing, view_laws.laws-law, script_laws.laws-law) depth 9 };

    fn eq(&self, other: &Plan) -> bool
        ensures eq { result ≡ ⟦<Plan as PartialEq>⟧.eq self.now other.now }
        ensures same { IsTrue result ↔ (self.now ≡ other.now) }
    {
        self.lens == other.lens && self.views == other.views && self.scripts == other.scripts
    }
}

impl Eq for Plan {
    ghost laws = { Prim.search (comparing, view_laws.laws-law, script_laws.laws-law) };
}
