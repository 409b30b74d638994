//! The moves that entries of a journal record.

ghost use Rattle.std.specs.Prelude.{◌≡◌};
ghost use Rattle.sab_replay.specs.KeptScript.RecordedMoves.{move_of, JournalRecordsSchedule};

use sab_sim::{Answer, Entry, Move, What, Why};

/// The move that an entry records: the end of a wait's time, if the entry says that it ended the
/// wait or found none that it could end; else a step.
///
/// So a journal determines its schedule: in every report that fits a plan, move k is the one that
/// entry k records.
#[tactic(auto, using(crate::proofs::OfKeptScript::RecordedMoves::journal_records_schedule))]
pub fn recorded_move(entry: Entry) -> Move
    ensures recorded { result ≡ move_of entry }
    ensures law { JournalRecordsSchedule }
{
    match entry.what {
        What::Left(Answer::TimedOut) | What::Stuck(Why::NotWaiting) | What::Stuck(Why::Endless) =>
            Move::TimeUp(entry.agent),
        _ => Move::Step(entry.agent),
    }
}
