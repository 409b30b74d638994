//! What stands around the entries of a picture.

ghost use Rattle.std.specs.Prelude.{◌++◌, codes, OnOk};
ghost use Rattle.std.specs.Io.KnownBytes.{Appends, append_known};
ghost use Rattle.sab_svg.specs.Xml.Xml.{nodes, nodes_text};
ghost use Rattle.sab_svg.specs.Frame.{root_start, background, lanes, legend};

use crate::frame::{
    BACKGROUND_LEN, LANE_LEN, LEGEND_LEN, ROOT_LEN, push_background, push_lane, push_legend,
    push_root,
};
use crate::shape::Shape;
use sab_report_text::text::Chunk;
use std::io;
use std::io::Write;

/// What ends a picture.
const END: &[u8; 7] = b"</svg>\n";

/// Writes what stands before the entries; the last of it may stay in the chunk. What the scratch held is lost.
pub(crate) fn write_start<W: Write>(
    shape: Shape,
    scratch: &mut Chunk,
    chunk: &mut Chunk,
    w: &mut W,
) -> io::Result<()>
    ensures { OnOk result (Appends (append_known (W.contents w.old) chunk.old)
        (append_known (W.contents w.new) chunk.new)
        (root_start shape ++ nodes_text (nodes (background shape))
        ++ nodes_text (nodes (lanes shape 0 shape.agents)))) }
{
    chunk.make_room_for(ROOT_LEN + BACKGROUND_LEN, w)?;
    push_root(shape, chunk);
    push_background(shape, chunk);
    write_lanes(shape, scratch, chunk, w)
}

/// Writes the lane of each agent; the last may stay in the chunk. What the scratch held is lost.
#[tactic(auto, using(sab_report_text::proofs::OfText::Appending::all_left, sab_report_text::proofs::OfText::Appending::none_left, crate::proofs::Writing::lanes_after))]
fn write_lanes<W: Write>(
    shape: Shape,
    scratch: &mut Chunk,
    chunk: &mut Chunk,
    w: &mut W,
) -> io::Result<()>
    ensures { OnOk result (Appends (append_known (W.contents w.old) chunk.old)
        (append_known (W.contents w.new) chunk.new) (nodes_text (nodes (lanes shape 0 shape.agents)))) }
{
    for a in 0..shape.agents {
        chunk.make_room_for(LANE_LEN, w)?;
        push_lane(shape, a, scratch, chunk);
    }
    Ok(())
}

/// Writes what stands behind everything else, and what the chunk holds.
pub(crate) fn write_last<W: Write>(shape: Shape, chunk: &mut Chunk, w: &mut W) -> io::Result<()>
    ensures { OnOk result (Appends (append_known (W.contents w.old) chunk.old) (W.contents w.new)
        (nodes_text (nodes (legend shape)) ++ codes "</svg>\n")) }
{
    chunk.make_room_for(LEGEND_LEN + END.len(), w)?;
    push_legend(shape, chunk);
    chunk.push(END);
    chunk.write(w)
}
