//! The blocks when a run ends.

ghost use Rattle.std.specs.Prelude.{◌≡◌, ◌+◌, ◌<◌, ◌≤◌, ◌^◌, ◌*◌, ◌++◌, length, take, flat_map, OnOk};
ghost use Rattle.std.specs.Io.KnownBytes.{Appends, append_known};
ghost use Rattle.sab_plan.specs.Report.{items_of_each};
ghost use Rattle.sab_report_text.specs.Text.Text.{hex_byte};
ghost use Rattle.sab_svg.specs.Xml.Xml.{nodes, nodes_text};
ghost use Rattle.sab_svg.specs.Ends.{block_line, block_text, more_text, drawn_blocks};

use crate::class::Class;
use crate::pieces::{LABEL_LEN, push_label};
use crate::shape::{Shape, row_text};
use sab_report_text::text::Chunk;
use std::io;
use std::io::Write;

/// How many bytes of a block are shown.
const SHOWN: usize = 32;

/// Where the lines of blocks begin.
const BLOCKS_X: u64 = 48;

/// The most bytes of what is said of bytes that aren't shown.
const MORE_LEN: usize = 36;

/// The most bytes of what is said of a block: its number and its first bytes.
const TEXT_LEN: usize = 27 + 2 * SHOWN + MORE_LEN;

/// The most bytes of a block's line.
const BLOCK_LEN: usize = LABEL_LEN + 8 * TEXT_LEN + 1;

/// Writes a line for each block of the picture; the last may stay in the chunk. What the scratch held is lost.
#[tactic(auto, using(sab_report_text::proofs::OfText::Appending::all_left, sab_report_text::proofs::OfText::Appending::none_left, crate::proofs::Writing::blocks_after))]
pub(crate) fn write_blocks<W: Write>(
    shape: Shape,
    blocks: &[Vec<u8>],
    scratch: &mut Chunk,
    chunk: &mut Chunk,
    w: &mut W,
) -> io::Result<()>
    requires { length blocks.now < 2 ^ 32 }
    ensures { OnOk result (Appends (append_known (W.contents w.old) chunk.old)
        (append_known (W.contents w.new) chunk.new)
        (nodes_text (nodes (drawn_blocks shape 0 (items_of_each blocks.now))))) }
{
    for (b, bytes) in blocks.iter().enumerate() {
        chunk.make_room_for(BLOCK_LEN, w)?;
        push_block(shape, b, bytes.as_slice(), scratch, chunk);
    }
    Ok(())
}

/// Appends the line of block `b`.
fn push_block(shape: Shape, b: usize, bytes: &[u8], scratch: &mut Chunk, chunk: &mut Chunk)
    requires few { b < 2 ^ 32 }
    requires room { length chunk.old + BLOCK_LEN ≤ Chunk.ROOM }
    ensures { chunk.new ≡ chunk.old ++ nodes_text (nodes (block_line shape b bytes.now)) }
{
    scratch.clear();
    push_text(b, bytes, scratch);
    let y = row_text(u64::from(shape.rows) + b as u64 + 2);
    push_label(Class::Dim, BLOCKS_X, y, scratch.bytes(), chunk);
    chunk.push(b"\n");
}

/// Appends what is said of block `b`: its first bytes, and how many more there are.
fn push_text(b: usize, bytes: &[u8], chunk: &mut Chunk)
    requires { length chunk.old + TEXT_LEN ≤ Chunk.ROOM }
    ensures bytes { chunk.new ≡ chunk.old ++ block_text b bytes.now }
    ensures len { length chunk.new ≤ length chunk.old + TEXT_LEN }
{
    chunk.push(b"block ");
    chunk.push_number(b as u64);
    chunk.push(b" ");
    push_shown(bytes, chunk);
    push_more(bytes.len(), chunk);
}

/// Appends the first bytes, each in two hexadecimal digits.
fn push_shown(bytes: &[u8], chunk: &mut Chunk)
    requires { length chunk.old + 2 * SHOWN ≤ Chunk.ROOM }
    ensures bytes { chunk.new ≡ chunk.old ++ flat_map hex_byte (take SHOWN bytes.now) }
    ensures len { length chunk.new ≤ length chunk.old + 2 * SHOWN }
{
    chunk.push_hex(first_of(bytes));
}

/// The first bytes, as many as are shown.
fn first_of(bytes: &[u8]) -> &[u8]
    ensures bytes { result.now ≡ take SHOWN bytes.now }
    ensures len { length result.now ≤ SHOWN }
{
    &bytes[..SHOWN.min(bytes.len())]
}

/// Appends how many of so many bytes aren't shown, if some aren't.
fn push_more(len: usize, chunk: &mut Chunk)
    requires { length chunk.old + MORE_LEN ≤ Chunk.ROOM }
    ensures bytes { chunk.new ≡ chunk.old ++ more_text len }
    ensures len { length chunk.new ≤ length chunk.old + MORE_LEN }
{
    if len > SHOWN {
        chunk.push(b" and ");
        chunk.push_number((len - SHOWN) as u64);
        chunk.push(b" bytes more");
    }
}
