//! Laws of the definitions.

ghost use Rattle.std.specs.Prelude.{ℕ, List};
ghost use Rattle.serde_json.specs.Data.{Data};
ghost use Rattle.sab_plan.specs.declared.call.Call.{Call};
ghost use Rattle.sab_reader.specs.Script.Calls.{SpellsCall};
ghost use Rattle.sab_replay.specs.Report.Facts.{NotesLast};
ghost use Rattle.sab_replay.specs.Report.Spelling.{IsReportedAsSpelled};

/// What a line of JSON has as a call's `does` is what a script spells for that call. A value that spells it is there
/// where its view has one of the names, and its numbers are in range.
pub fn calls_are_reported_as_spelled()
    ensures { (names : List (List ℕ)) (d : Data) (call : Call) → SpellsCall names d call
        → IsReportedAsSpelled names call }
{}

/// What a format is given for an agent, after any journal, is the position of the agent's own last entry that had an
/// effect. Each format says by it since when the agent has been as it is.
pub fn the_last_entry_of_an_agent_is_noted()
    ensures { NotesLast }
{}
