//! The lines of agents.

ghost use Rattle.std.specs.Prelude.{◌≡◌, ◌+◌, ◌≤◌, None, length, slice_index_or, OnOk};
ghost use Rattle.std.specs.Io.KnownBytes.{Appends, append_known};
ghost use Rattle.sab_report_text.specs.Words.Explained.{standing_lines};

use crate::text::Chunk;
use crate::words::column::Column;
use crate::words::name::Name;
use crate::words::standing::push_standing;
use sab_plan::{Progress, Standing};
use std::io;
use std::io::Write;

/// Writes a line for each agent, with words behind it where some of its calls haven't returned; the last lines may stay
/// in the chunk.
#[tactic(auto, using(crate::proofs::OfText::Appending::all_left, crate::proofs::OfText::Appending::none_left, crate::proofs::OfWords::ChunkTexts::standings_after))]
pub(crate) fn write_standings<W: Write>(
    names: &[Name],
    standings: &[Option<Standing>],
    agents: &[Progress],
    column: Column,
    chunk: &mut Chunk,
    w: &mut W,
) -> io::Result<()>
    requires { length chunk.old + Chunk.LINE_ROOM ≤ Chunk.ROOM }
    ensures appended { OnOk result (Appends (append_known (W.contents w.old) chunk.old)
        (append_known (W.contents w.new) chunk.new) (standing_lines column.at names.now standings.now 0 agents.now)) }
    ensures room { OnOk result (length chunk.new + Chunk.LINE_ROOM ≤ Chunk.ROOM) }
{
    for (a, progress) in agents.iter().enumerate() {
        push_standing(names, a, progress, standing_at(standings, a), column, chunk);
        chunk.make_room(w)?;
    }
    Ok(())
}

/// Where an agent stands, if it is known.
pub fn standing_at(standings: &[Option<Standing>], a: usize) -> Option<Standing>
    ensures { result ≡ slice_index_or standings.now a None }
{
    if a < standings.len() {
        standings[a]
    } else {
        None
    }
}
