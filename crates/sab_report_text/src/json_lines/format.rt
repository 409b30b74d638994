//! JSON as a format.

ghost use Rattle.sab_report_text.specs.JsonLines.CallData.{AreNames};

use crate::json_lines::blocks::write_blocks;
use crate::json_lines::entry::push_entry_if;
use crate::json_lines::standing::write_agents;
use crate::text::{Chunk, Lines};
use crate::words::{FactFormat, Name};
use sab_plan::{Explained, Plan, Report, Standing};
use std::io;
use std::io::Write;

/// A report as JSON: a line for each entry that has one, with its fact, then one for each block, and one for each
/// agent.
///
/// Each line is read as its tree, if the plan's Numbers are safe integers.
#[derive(Drop)]
pub struct Json<'a> {
    /// The names of the plan's views, of letters, digits and `_`.
    pub names: &'a [Name],
    /// Which entries have a line.
    pub lines: Lines,
    pub ghost plain: { AreNames names.now },
}

impl FactFormat for Json<'_> {
    ghost use Rattle.sab_report_text.specs.JsonLines.Lines.{json_texts};

    ghost texts = { λ f. json_texts f.names.now f.lines };

    #[tactic(auto, using(crate::proofs::OfWords::ChunkTexts::appends_none))]
    fn write_start<W: Write>(&mut self, _chunk: &mut Chunk, _w: &mut W) -> io::Result<()> {
        Ok(())
    }

    #[tactic(auto, using(crate::proofs::OfWords::ChunkTexts::room_then))]
    fn write_entry<W: Write>(
        &mut self,
        _plan: &Plan,
        _sinces: &[Option<u32>],
        k: u32,
        explained: &Explained,
        chunk: &mut Chunk,
        w: &mut W,
    ) -> io::Result<()> {
        chunk.make_room(w)?;
        let k = k as usize;
        push_entry_if(
            self.names,
            self.lines,
            k,
            &explained.entry,
            &explained.fact,
            chunk,
        );
        Ok(())
    }

    #[tactic(auto, using(crate::proofs::OfText::Appending::appends_both, crate::proofs::OfWords::ChunkTexts::kept_then, crate::proofs::OfWords::ChunkTexts::chunk_written_out))]
    fn write_end<W: Write>(
        &mut self,
        report: &Report,
        standings: &[Option<Standing>],
        chunk: &mut Chunk,
        w: &mut W,
    ) -> io::Result<()> {
        chunk.make_room(w)?;
        write_blocks(&report.blocks, chunk, w)?;
        write_agents(self.names, standings, &report.agents, chunk, w)?;
        chunk.write(w)
    }
}
