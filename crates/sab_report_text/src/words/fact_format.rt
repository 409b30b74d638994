//! Formats of reports that report facts.

ghost use Rattle.std.specs.Prelude.{◌≡◌, ◌<◌, ◌^◌, length, OnOk};
ghost use Rattle.std.specs.Io.KnownBytes.{Appends, append_known};

use crate::text::Chunk;
use sab_plan::{Explained, Plan, Report, Standing};
use std::io;
use std::io::Write;

/// A format of reports that report facts: what stands first, a text for each entry, and what stands last.
///
/// A text goes behind what the chunk holds, which is written where it has too little room. No method takes memory or
/// flushes. Where a write failed nothing is said of how much was written.
pub trait FactFormat {
    ghost use Rattle.sab_report_text.specs.Words.FactFormat.{Texts};

    /// What it writes.
    ghost texts: { Self → Texts };

    /// Writes what stands before the entries; the last of it may stay in the chunk.
    fn write_start<W: Write>(&mut self, chunk: &mut Chunk, w: &mut W) -> io::Result<()>
        ensures same { texts self.new ≡ texts self.old }
        ensures written { OnOk result (Appends (append_known (W.contents w.old) chunk.old)
            (append_known (W.contents w.new) chunk.new) (texts self.old).start) };

    /// Writes the text about entry `k` of a plan's journal; the last of it may stay in the chunk.
    ///
    /// `sinces` has for each agent the position of its last entry before this one that had an effect.
    fn write_entry<W: Write>(
        &mut self,
        plan: &Plan,
        sinces: &[Option<u32>],
        k: u32,
        explained: &Explained,
        chunk: &mut Chunk,
        w: &mut W,
    ) -> io::Result<()>
        ensures same { texts self.new ≡ texts self.old }
        ensures written { OnOk result (Appends (append_known (W.contents w.old) chunk.old)
            (append_known (W.contents w.new) chunk.new)
            ((texts self.old).entry plan.now sinces.now k explained.now.entry explained.now.fact)) };

    /// Writes what stands behind the entries of a report, and what the chunk holds.
    fn write_end<W: Write>(
        &mut self,
        report: &Report,
        standings: &[Option<Standing>],
        chunk: &mut Chunk,
        w: &mut W,
    ) -> io::Result<()>
        requires few { length report.now.blocks < 2 ^ 32 }
        ensures { OnOk result (Appends (append_known (W.contents w.old) chunk.old) (W.contents w.new)
            ((texts self.old).finish report.now standings.now)) };
}
