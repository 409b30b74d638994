//! Which entries are noted at agents.

ghost use Rattle.std.specs.Prelude.{◌≡◌, ◌<◌, All, Some, slice_set, if◌then◌else◌};
ghost use Rattle.sab_plan.specs.declared.plan.TheConstants.Plan.{MAX_AGENTS};
ghost use Rattle.sab_plan.specs.Entry.{is_stuck};
ghost use Rattle.sab_replay.specs.Explain.Explainer.{IsNoted};

use sab_plan::{Plan, What};

/// Notes that an entry woke these agents.
pub fn note_woken(wakers: &mut [u32; Plan::MAX_AGENTS], agents: &[u32], entry: u32)
    requires { All (λ a. a < MAX_AGENTS) agents.now }
    ensures { IsNoted agents.now entry wakers.old wakers.new }
{
    for a in agents {
        wakers[*a as usize] = entry;
    }
}

/// Notes the position of an agent's entry, where it did something that has an effect.
pub fn note_last(last: &mut [Option<u32>; Plan::MAX_AGENTS], agent: u32, what: What, position: u32)
    requires { agent < MAX_AGENTS }
    ensures { last.new ≡ (if is_stuck what then last.old else slice_set last.old agent (Some position)) }
{
    if !matches!(what, What::Stuck(_)) {
        last[agent as usize] = Some(position);
    }
}
