//! Scripts of agents.

ghost use Rattle.std.specs.Prelude.{◌≡◌, ◌↔◌, IsTrue, IfOk};
ghost use Rattle.std.specs.Cmp.Lexicographic.{pointwise};
ghost use Rattle.std.specs.Cmp.Rules.{comparing};
ghost use Rattle.std.specs.Ordering.{on, eq_of_both};
ghost use Rattle.sab_plan.specs.contracts.call.CallEq.TheImpl.Laws.{laws-law};

use crate::call::Call;
use std::alloc::{AllocError, Global};
use std::marker::Model;

/// What one agent is to do.
#[derive(Debug, Drop)]
pub struct Script {
    /// Whether the agent can block (\[\[CanBlock\]\]).
    pub can_block: bool,
    /// Its calls, in order.
    pub calls: Vec<Call>,
}

impl Model for Script {
    ghost use Rattle.sab_plan.specs.Script.{ScriptParts};

    ghost Value = { ScriptParts };

    ghost view = { λ s. record { can_block = s.can_block; calls = s.calls.items } };
}

impl Script {
    /// Another script of the same parts.
    pub fn copy(&self, alloc: Global) -> Result<Script, AllocError>
        ensures { IfOk result (λ script. script ≡ self.now) }
    {
        Ok(Script {
            can_block: self.can_block,
            calls: self.calls.to_vec(alloc)?,
        })
    }
}

impl PartialEq for Script {
    ghost eq = { eq_of_both (on (λ s. s.can_block) ⟦<bool as PartialEq>⟧.eq)
        (on (λ s. s.calls) (pointwise ⟦<Call as PartialEq>⟧.eq)) };

    ghost laws = { Prim.search (comparing, laws-law) };

    #[tactic(auto, using(crate::proofs::Equality::decides_calls))]
    fn eq(&self, other: &Script) -> bool
        ensures eq { result ≡ ⟦<Script as PartialEq>⟧.eq self.now other.now }
        ensures same { IsTrue result ↔ (self.now ≡ other.now) }
    {
        self.can_block == other.can_block && self.calls == other.calls
    }
}

impl Eq for Script {
    ghost laws = { Prim.search (comparing, laws-law) };
}
