//! The explained text as a format.

ghost use Rattle.std.specs.Prelude.{◌≡◌};

use crate::text::{Chunk, write_blocks};
use crate::words::explained::push_explained;
use crate::words::fact_format::FactFormat;
use crate::words::layout::Layout;
use crate::words::name::Name;
use crate::words::standings::write_standings;
use sab_plan::{Explained, Plan, Report, Standing};
use std::io;
use std::io::Write;

/// The explained text: the plain lines, and words behind those of entries and agents.
#[derive(Drop)]
pub struct Words<'a> {
    /// The names of the plan's views.
    pub names: &'a [Name],
    /// How the lines are laid out.
    pub layout: Layout,
}

impl FactFormat for Words<'_> {
    ghost use Rattle.sab_report_text.specs.Words.Explained.{words_texts};

    ghost texts = { λ f. words_texts f.layout.column.at f.names.now f.layout.lines };

    #[tactic(auto, using(crate::proofs::OfWords::ChunkTexts::appends_none))]
    fn write_start<W: Write>(&mut self, _chunk: &mut Chunk, _w: &mut W) -> io::Result<()> {
        Ok(())
    }

    #[tactic(auto, using(crate::proofs::OfWords::ChunkTexts::room_then))]
    fn write_entry<W: Write>(
        &mut self,
        plan: &Plan,
        sinces: &[Option<u32>],
        k: u32,
        explained: &Explained,
        chunk: &mut Chunk,
        w: &mut W,
    ) -> io::Result<()> {
        chunk.make_room(w)?;
        let k = k as usize;
        push_explained(self.names, plan, self.layout, sinces, k, explained, chunk);
        Ok(())
    }

    #[tactic(auto, using(crate::proofs::OfText::Appending::appends_both, crate::proofs::OfWords::ChunkTexts::kept_then, crate::proofs::OfWords::ChunkTexts::chunk_written_out))]
    fn write_end<W: Write>(
        &mut self,
        report: &Report,
        standings: &[Option<Standing>],
        chunk: &mut Chunk,
        w: &mut W,
    ) -> io::Result<()> {
        chunk.make_room(w)?;
        write_blocks(&report.blocks, chunk, w)?;
        write_standings(
            self.names,
            standings,
            &report.agents,
            self.layout.column,
            chunk,
            w,
        )?;
        chunk.write(w)
    }
}
