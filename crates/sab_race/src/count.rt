//! How many moves agents make, counted before any is made.

ghost use Rattle.std.specs.Prelude.{◌≡◌, ◌≤◌, length, All};
ghost use Rattle.sab_plan.specs.Script.{ScriptParts};
ghost use Rattle.sab_race.specs.Moves.{call_moves, moves_of, count_of};

use crate::script_moves::MAX_SPINS;
use sab_sim::{Call, Plan, Script};

/// How many moves an agent makes for a call.
fn call_count(call: Call, spins: u32) -> usize
    requires { spins ≤ MAX_SPINS }
    ensures count { result ≡ length (call_moves call 0 spins) }
    ensures most { result ≤ 1005 }
{
    match call {
        Call::Access { .. } | Call::Notify { .. } => 3,
        Call::Wait { .. } => 5 + spins as usize,
    }
}

/// How many moves an agent makes for its script.
pub fn script_count(script: &Script, spins: u32) -> usize
    requires calls { length script.now.calls ≤ Plan.MAX_CALLS }
    requires spins { spins ≤ MAX_SPINS }
    ensures count { result ≡ length (moves_of script.now.calls 0 spins) }
    ensures most { result ≤ 1005000 }
{
    let mut total = 0;
    for call in &script.calls {
        total += call_count(*call, spins);
    }
    total
}

/// How many moves all agents make.
pub fn count_moves(scripts: &[Script], spins: u32) -> usize
    requires agents { length scripts.now ≤ Plan.MAX_AGENTS }
    requires calls { All (λ (s : ScriptParts). length s.calls ≤ Plan.MAX_CALLS) scripts.now }
    requires spins { spins ≤ MAX_SPINS }
    ensures { result ≡ count_of scripts.now spins }
{
    let mut total = 0;
    for script in scripts {
        total += script_count(script, spins);
    }
    total
}
