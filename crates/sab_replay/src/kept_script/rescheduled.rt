//! Scripts with another schedule.

ghost use Rattle.std.specs.Prelude.{◌≡◌, ◌≤◌, false, IfOk, IfErr};
ghost use Rattle.serde_json.specs.Data.{depth};
ghost use Rattle.serde_json.specs.Read.{max_depth};
ghost use Rattle.serde_json.specs.View.{view};
ghost use Rattle.serde_json.specs.Written.{has_float};
ghost use Rattle.sab_replay.specs.KeptScript.Rescheduled.{rescheduled};
ghost use Rattle.sab_replay.specs.KeptScript.Keeping.{IsTextWith, IsTextFault};

use crate::faults::ToolFault;
use crate::kept_script::canonical::canonical_text;
use crate::kept_script::moves::trees_of;
use crate::script_runner::{MAX_INPUT, MAX_MOVES};
use sab_sim::Move;
use serde_json::{Value, put};
use std::alloc::{AllocError, Global};

/// The tree of a script, with these moves for its schedule.
fn with_moves(alloc: Global, tree: Value, moves: &[Move]) -> Result<Value, AllocError>
    ensures { IfOk result (λ new. view new ≡ rescheduled (view tree) moves.now) }
{
    match tree {
        Value::Object(mut members) => {
            let trees = trees_of(alloc, moves)?;
            put(&mut members, alloc, "schedule", Value::Array(trees))?;
            Ok(Value::Object(members))
        }
        other => Ok(other),
    }
}

/// The canonical text of a script's tree, with these moves for its schedule.
///
/// TooMany where they are more moves, or it has more bytes, than a script can have; else no fault but
/// OutOfMemory.
#[tactic(auto, using(crate::proofs::OfKeptScript::RescheduledTree::whole, crate::proofs::OfKeptScript::RescheduledTree::shallow))]
pub(crate) fn rescheduled_text(
    alloc: Global,
    tree: Value,
    moves: &[Move],
) -> Result<Vec<u8>, ToolFault>
    requires nests { depth (view tree) ≤ max_depth }
    requires whole { has_float (view tree) ≡ false }
    ensures text { IfOk result (λ text. IsTextWith (view tree) moves.now text.items) }
    ensures err { IfErr result (IsTextFault (view tree) moves.now) }
{
    if moves.len() > MAX_MOVES {
        return Err(ToolFault::TooMany);
    }
    let new = with_moves(alloc, tree, moves)?;
    let text = canonical_text(alloc, &new)?;
    if text.len() > MAX_INPUT {
        return Err(ToolFault::TooMany);
    }
    Ok(text)
}
