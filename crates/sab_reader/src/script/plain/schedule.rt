//! Schedules, from their tokens.

ghost use Rattle.std.specs.Prelude.{◌≡◌, IfOk, IfSome};
ghost use Rattle.serde_json.specs.Data.{Items as Trees, array};
ghost use Rattle.sab_reader.specs.Script.Plain.{HoldsTree};
ghost use Rattle.sab_reader.specs.Script.Schedule.{SpellsMove, SpellsSchedule};

use crate::script::plain::lists::{Miss, Scanner, scan_items};
use crate::script::plain::members::{are_named, only_member};
use crate::script::plain::numbers::scan_position;
use crate::script::schedule::MAX_MOVES;
use json::Element;
use sab_plan::Move;
use sab_refusal::Member;
use std::alloc::Global;

/// The end of the time of an agent, of which there are so many; `None` where the value spells none.
fn scan_time_up(agents: u32, element: &Element<'_, '_>) -> Option<Move>
    ensures { IfSome result (λ m. HoldsTree 1 (λ d. SpellsMove agents d m) element.now) }
{
    are_named(element, &[Member::Timeout])?;
    let timeout = only_member(element, Member::Timeout)?;
    Some(Move::TimeUp(scan_position(agents, &timeout)?))
}

/// A move of an agent, of which there are so many; `None` where the value spells none.
fn scan_move(agents: u32, element: &Element<'_, '_>) -> Option<Move>
    ensures { IfSome result (λ m. HoldsTree 1 (λ d. SpellsMove agents d m) element.now) }
{
    match scan_position(agents, element) {
        Some(agent) => Some(Move::Step(agent)),
        None => scan_time_up(agents, element),
    }
}

/// Reads a move of one of the agents.
#[derive(Clone, Copy)]
struct MoveScanner {
    agents: u32,
}

impl Scanner for MoveScanner {
    type Item = Move;

    ghost nests = { λ _. 1 };

    ghost Spells = { λ scanner. SpellsMove scanner.agents };

    fn scan(&self, element: &Element<'_, '_>) -> Result<Move, Miss> {
        scan_move(self.agents, element).ok_or(Miss::NotPlain)
    }
}

/// The moves of so many agents, in order.
pub(crate) fn scan_schedule(
    alloc: Global,
    agents: u32,
    element: &Element<'_, '_>,
) -> Result<Vec<Move>, Miss>
    ensures { IfOk result (λ moves. HoldsTree 2 (λ d. (ds : Trees) × (d ≡ array ds)
        × SpellsSchedule agents ds moves.items) element.now) }
{
    let scanner = MoveScanner { agents };
    scan_items(alloc, &scanner, MAX_MOVES, element)
}
