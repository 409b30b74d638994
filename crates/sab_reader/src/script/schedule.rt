//! Schedules.

ghost use Rattle.std.specs.Prelude.{◌≡◌, ◌≤◌, ◌⊎◌, ℕ, IfErr};
ghost use Rattle.serde_json.specs.Data.{array};
ghost use Rattle.serde_json.specs.View.{view, items_view};
ghost use Rattle.sab_refusal.specs.declared.location.Location.TheVariants as L;
ghost use Rattle.sab_refusal.specs.declared.member.Member.TheVariants as M;
ghost use Rattle.sab_reader.specs.Script.Reading.{Finds};
ghost use Rattle.sab_reader.specs.Script.Schedule.{SpellsMove, SpellsSchedule};
ghost use Rattle.sab_reader.specs.Script.Truth.{IsTrueWhere, HasItems};

use crate::script::elements::{Reader, read_each};
use crate::script::tree::{end, member, members, position};
use sab_plan::Move;
use sab_refusal::{Counted, Located, Location, Member, Unit, Wanted};
use serde_json::Value;
use std::alloc::Global;

/// How many moves the schedule of a script can have.
pub const MAX_MOVES: usize = 100_000;

// The clauses cite the constant: so its number is held here.
const _: () = prove!(MAX_MOVES == 100_000);

/// A move of an agent, of which there are so many.
fn read_move(at: Location, agents: u32, tree: &Value) -> Result<Move, Located>
    ensures found { Finds (λ m. m) (SpellsMove agents (view tree.now)) result }
    ensures reported { IfErr result (IsTrueWhere at (view tree.now)
        (λ root. ((k : ℕ) × (at ≡ Location.Item Member.Schedule k))
        × HasItems root (Location.Member Member.Agents) agents)) }
{
    if let Value::Object(_) = tree {
        let mut rest = members(at, tree)?;
        let timeout = member(at, &mut rest, Member::Timeout)?;
        let at_timeout = at.member(Member::Timeout);
        let agent = position(at_timeout, Wanted::Whole, Counted::Agent, agents, timeout)?;
        end(at, &mut rest)?;
        return Ok(Move::TimeUp(agent));
    }
    let agent = position(at, Wanted::Move, Counted::Agent, agents, tree)?;
    Ok(Move::Step(agent))
}

/// Reads a move of one of the agents.
#[derive(Clone, Copy)]
struct MoveReader {
    agents: u32,
}

impl Reader for MoveReader {
    type Element = Move;

    ghost Spells = { λ reader. SpellsMove reader.agents };

    ghost Knows = { λ reader root at. ((k : ℕ) × (at ≡ L.Item M.Schedule k))
        × HasItems root (L.Member M.Agents) reader.agents };

    fn read(&self, at: Location, tree: &Value) -> Result<Move, Located> {
        read_move(at, self.agents, tree)
    }
}

/// The moves of so many agents, in order.
pub(crate) fn read_schedule(
    alloc: Global,
    at: Location,
    agents: u32,
    trees: &[Value],
) -> Result<Vec<Move>, Located>
    ensures found { Finds (λ moves. moves.items) (SpellsSchedule agents (items_view trees.now)) result }
    ensures reported { IfErr result (IsTrueWhere at (array (items_view trees.now))
        (λ root. (at ≡ Location.Member Member.Schedule) × HasItems root (Location.Member Member.Agents) agents)) }
{
    let reader = MoveReader { agents };
    read_each(alloc, at, &reader, Unit::Moves, MAX_MOVES, trees)
}
