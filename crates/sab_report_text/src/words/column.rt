//! The column of a report's words.

ghost use Rattle.std.specs.Prelude.{◌≡◌, ◌-◌, ◌≤◌};
ghost use Rattle.sab_report_text.specs.Words.Column.{longest_entry, longest_agent, column_of, HasRoom};

use crate::text::{Line, prepend_agent, prepend_entry};
use sab_plan::{Entry, Progress, Report};

/// How many columns are free between the longest line and the words.
const GAP: usize = 2;

/// The column at which the words of a report begin.
#[derive(Clone, Copy, Debug)]
pub struct Column {
    /// How many columns there are before it.
    pub at: u8,
}

impl Column {
    /// The greatest column.
    pub const MAX: usize = 255;

    /// The column of a report's words: two behind its longest line of an entry or an agent.
    pub fn of(report: &Report) -> Column
        ensures column { result.at ≡ column_of report.now }
        ensures room { HasRoom report.now result.at }
    {
        let longest = longest_entry(&report.journal).max(longest_agent(&report.agents));
        Column {
            at: (longest + GAP) as u8,
        }
    }

    /// How many columns there are from the end of a line of this length up to the words.
    pub(crate) fn behind(self, len: usize) -> usize
        ensures columns { result ≡ self.at - len }
        ensures few { result ≤ Column.MAX }
    {
        usize::from(self.at).saturating_sub(len)
    }
}

/// The length of the longest line of an entry.
#[tactic(auto, using(crate::proofs::OfWords::Measuring::entries_left))]
fn longest_entry(journal: &[Entry]) -> usize
    ensures longest { result ≡ longest_entry 0 journal.now }
    ensures few { result ≤ Line.ROOM }
{
    let mut longest = 0;
    for (k, entry) in journal.iter().enumerate() {
        let mut line = Line::new();
        prepend_entry(k, entry, &mut line);
        longest = longest.max(line.bytes().len());
    }
    longest
}

/// The length of the longest line of an agent.
#[tactic(auto, using(crate::proofs::OfWords::Measuring::agents_left))]
fn longest_agent(agents: &[Progress]) -> usize
    ensures longest { result ≡ longest_agent 0 agents.now }
    ensures few { result ≤ Line.ROOM }
{
    let mut longest = 0;
    for (a, progress) in agents.iter().enumerate() {
        let mut line = Line::new();
        prepend_agent(a, progress, &mut line);
        longest = longest.max(line.bytes().len());
    }
    longest
}
