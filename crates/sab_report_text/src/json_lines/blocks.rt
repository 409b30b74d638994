//! The lines of blocks.

ghost use Rattle.std.specs.Prelude.{◌≡◌, ◌+◌, ◌≤◌, ◌++◌, length, codes, decimal, OnOk};
ghost use Rattle.std.specs.Io.KnownBytes.{Appends, append_known};
ghost use Rattle.sab_plan.specs.Report.{items_of_each};
ghost use Rattle.sab_report_text.specs.JsonLines.Lines.{line, block_data, block_lines};

use crate::text::{Chunk, Line, write_hex};
use std::io;
use std::io::Write;

/// Writes a line for each block; the last lines may stay in the chunk.
#[tactic(auto, using(crate::proofs::OfText::Appending::all_left, crate::proofs::OfText::Appending::none_left, crate::proofs::OfJsonLines::ReportLines::blocks_after))]
pub(crate) fn write_blocks<W: Write>(
    blocks: &[Vec<u8>],
    chunk: &mut Chunk,
    w: &mut W,
) -> io::Result<()>
    requires { length chunk.old + Chunk.LINE_ROOM ≤ Chunk.ROOM }
    ensures appended { OnOk result (Appends (append_known (W.contents w.old) chunk.old)
        (append_known (W.contents w.new) chunk.new) (block_lines 0 (items_of_each blocks.now))) }
    ensures room { OnOk result (length chunk.new + Chunk.LINE_ROOM ≤ Chunk.ROOM) }
{
    for (b, bytes) in blocks.iter().enumerate() {
        write_block(b, bytes.as_slice(), chunk, w)?;
    }
    Ok(())
}

/// Writes the line of block `b`; its end may stay in the chunk.
fn write_block<W: Write>(b: usize, bytes: &[u8], chunk: &mut Chunk, w: &mut W) -> io::Result<()>
    requires { length chunk.old + Chunk.LINE_ROOM ≤ Chunk.ROOM }
    ensures appended { OnOk result (Appends (append_known (W.contents w.old) chunk.old)
        (append_known (W.contents w.new) chunk.new) (line (block_data b bytes.now))) }
    ensures room { OnOk result (length chunk.new + Chunk.LINE_ROOM ≤ Chunk.ROOM) }
{
    let mut head = Line::new();
    prepend_head(b, &mut head);
    chunk.append(head.bytes(), w)?;
    write_hex(bytes, chunk, w)?;
    chunk.append(b"\"}\n", w)
}

/// Prepends what stands before the digits of block `b`.
fn prepend_head(b: usize, line: &mut Line)
    requires { length line.old + 40 ≤ Line.ROOM }
    ensures { line.new ≡ (codes "{\"block\":" ++ (decimal b ++ codes ",\"bytes\":\"")) ++ line.old }
{
    line.prepend(b",\"bytes\":\"");
    line.prepend_number(b as u64);
    line.prepend(b"{\"block\":");
}
