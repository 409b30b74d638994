//! A picture as a format.

ghost use Rattle.std.specs.Prelude.{◌≡◌};
ghost use Rattle.sab_svg.specs.Shape.{shape_of};

use crate::blocks::write_blocks;
use crate::drawing::{write_last, write_start};
use crate::ends::write_ends;
use crate::entry::{ENTRY_ROOM, push_entry};
use crate::shape::Shape;
use sab_plan::{Explained, Plan, Report, Standing};
use sab_report_text::text::Chunk;
use sab_report_text::words::{FactFormat, Name};
use std::io;
use std::io::Write;

/// A document of Scalable Vector Graphics: a row for each move, a lane for each agent, and below them who isn't done
/// and the blocks.
#[derive(Drop)]
pub struct Picture<'a> {
    names: &'a [Name],
    shape: Shape,
    // For texts that are made before they are escaped.
    scratch: Chunk,
}

impl<'a> Picture<'a> {
    /// The picture of so many moves of a plan, by the names of its views.
    pub fn new(names: &'a [Name], plan: &Plan, moves: u32) -> Picture<'a>
        ensures names { result.names.now ≡ names.now }
        ensures shape { result.shape ≡ shape_of names.now plan.now moves }
    {
        Picture {
            names,
            shape: Shape::of(names, plan, moves),
            scratch: Chunk::new(),
        }
    }
}

impl FactFormat for Picture<'_> {
    ghost use Rattle.sab_svg.specs.Picture.{svg_texts};

    ghost texts = { λ f. svg_texts f.names.now f.shape };

    fn write_start<W: Write>(&mut self, chunk: &mut Chunk, w: &mut W) -> io::Result<()> {
        write_start(self.shape, &mut self.scratch, chunk, w)
    }

    #[tactic(auto, using(sab_report_text::proofs::OfWords::ChunkTexts::room_then))]
    fn write_entry<W: Write>(
        &mut self,
        plan: &Plan,
        sinces: &[Option<u32>],
        k: u32,
        explained: &Explained,
        chunk: &mut Chunk,
        w: &mut W,
    ) -> io::Result<()> {
        chunk.make_room_for(ENTRY_ROOM, w)?;
        let scratch = &mut self.scratch;
        push_entry(
            self.names, plan, self.shape, sinces, k, explained, scratch, chunk,
        );
        Ok(())
    }

    #[tactic(auto, using(sab_report_text::proofs::OfText::Appending::appends_both, sab_report_text::proofs::OfText::Appending::appends_last))]
    fn write_end<W: Write>(
        &mut self,
        report: &Report,
        standings: &[Option<Standing>],
        chunk: &mut Chunk,
        w: &mut W,
    ) -> io::Result<()> {
        let scratch = &mut self.scratch;
        write_ends(self.names, self.shape, standings, scratch, chunk, w)?;
        write_blocks(self.shape, &report.blocks, scratch, chunk, w)?;
        write_last(self.shape, chunk, w)
    }
}
