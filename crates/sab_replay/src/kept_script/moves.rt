//! Moves as JSON.

ghost use Rattle.std.specs.Prelude.{◌≡◌, IfOk};
ghost use Rattle.serde_json.specs.View.{view, items_view};
ghost use Rattle.sab_reader.specs.Script.Schedule.{move_tree};
ghost use Rattle.sab_replay.specs.KeptScript.Rescheduled.{move_items};

use sab_sim::Move;
use serde_json::{Value, json};
use std::alloc::{AllocError, Global};

/// A move as JSON.
fn tree_of(alloc: Global, m: Move) -> Result<Value, AllocError>
    ensures { IfOk result (λ tree. view tree ≡ move_tree m) }
{
    match m {
        Move::Step(agent) => Ok(Value::from(agent)),
        Move::TimeUp(agent) => json!(in alloc; {"timeout": agent}),
    }
}

/// Moves as JSON, in order.
pub(crate) fn trees_of(alloc: Global, moves: &[Move]) -> Result<Vec<Value>, AllocError>
    ensures { IfOk result (λ trees. items_view trees.items ≡ move_items moves.now) }
{
    let mut trees = Vec::with_capacity(alloc, moves.len())?;
    for m in moves {
        trees.push_reserved(tree_of(alloc, *m)?);
    }
    Ok(trees)
}
