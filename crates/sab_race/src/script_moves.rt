//! The moves that an agent makes for its script.

ghost use Rattle.std.specs.Prelude.{◌≡◌, ◌≤◌, ◌++◌, length, replicate, IfOk, OnOk};
ghost use Rattle.sab_race.specs.Moves.{call_moves, moves_of};

use crate::count::script_count;
use sab_sim::{Call, Move, Plan, Script};
use std::alloc::{AllocError, Global};

/// How many times an agent can step at a wait before the wait's time is up.
pub const MAX_SPINS: u32 = 1_000;

/// The moves that an agent makes for its script, in order.
///
/// For an access or a notify they are three steps. For a wait they are two steps, then `spins` steps, then the end of
/// its time, then two steps, so that it ends whether it was woken or not. A script has at most [`Plan::MAX_CALLS`]
/// calls, and `spins` is at most [`MAX_SPINS`].
pub fn moves(
    alloc: Global,
    script: &Script,
    agent: u32,
    spins: u32,
) -> Result<Vec<Move>, AllocError>
    requires calls { length script.now.calls ≤ Plan.MAX_CALLS }
    requires spins { spins ≤ MAX_SPINS }
    ensures moves { IfOk result (λ moves. moves.items ≡ moves_of script.now.calls agent spins) }
    ensures most { IfOk result (λ moves. length moves.items ≤ 1005000) }
{
    let count = script_count(script, spins);
    let mut moves = Vec::with_capacity(alloc, count)?;
    for call in &script.calls {
        push_call(&mut moves, *call, agent, spins)?;
    }
    Ok(moves)
}

/// Adds the moves for one call.
fn push_call(moves: &mut Vec<Move>, call: Call, agent: u32, spins: u32) -> Result<(), AllocError>
    ensures { OnOk result (moves.new.items ≡ moves.old.items ++ call_moves call agent spins) }
{
    moves.push(Move::Step(agent))?;
    moves.push(Move::Step(agent))?;
    if let Call::Wait { .. } = call {
        push_steps(moves, agent, spins)?;
        moves.push(Move::TimeUp(agent))?;
        moves.push(Move::Step(agent))?;
    }
    moves.push(Move::Step(agent))?;
    Ok(())
}

/// Adds so many steps.
fn push_steps(moves: &mut Vec<Move>, agent: u32, count: u32) -> Result<(), AllocError>
    ensures { OnOk result (moves.new.items ≡ moves.old.items ++ replicate count (Move.Step agent)) }
{
    for _ in 0..count {
        moves.push(Move::Step(agent))?;
    }
    Ok(())
}
