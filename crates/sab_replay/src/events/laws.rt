//! Laws of the definitions.

ghost use Rattle.std.specs.Prelude.{List};
ghost use Rattle.sab_plan.specs.Plan.{PlanParts, IsPlan};
ghost use Rattle.sab_plan.specs.declared.entry.Entry.{Entry};
ghost use Rattle.sab_replay.specs.Events.Acting.{IsOfItsAgent, ReportsItsCall};
ghost use Rattle.sab_replay.specs.Events.Dependence.{DependsOnWhatItReads};
ghost use Rattle.sab_replay.specs.Events.Reading.{ChangesWhatItWrites, ReadsWhatWasLeft, ReadsZeros};

/// An entry changes no byte but those that its event writes.
pub fn an_entry_changes_what_its_event_writes()
    ensures { (plan : PlanParts) (e : Entry) → IsPlan plan → ChangesWhatItWrites plan e }
{}

/// A byte that an event reads is as the event that it reads it from left it: the last before it that writes the byte.
pub fn an_event_reads_what_was_left()
    ensures { (plan : PlanParts) (journal : List Entry) → IsPlan plan → ReadsWhatWasLeft plan journal }
{}

/// A byte that no event before an event writes is then zero.
pub fn an_unwritten_byte_is_zero()
    ensures { (plan : PlanParts) (journal : List Entry) → IsPlan plan → ReadsZeros plan journal }
{}

/// What an entry does and returns depends on no byte except those that its event reads.
pub fn an_entry_depends_on_what_its_event_reads()
    ensures { (plan : PlanParts) (e : Entry) → IsPlan plan → DependsOnWhatItReads plan e }
{}

/// The event of an act reports what the entry's call does. It reads the element, writes it, and is in the critical
/// section of its place's waiters, exactly if the call does so.
pub fn an_event_reports_its_call()
    ensures { (plan : PlanParts) (e : Entry) → IsPlan plan → ReportsItsCall plan e }
{}

/// An event is of its entry's agent. One whose entry is no act accesses nothing.
pub fn an_event_is_of_its_agent()
    ensures { (plan : PlanParts) (e : Entry) → IsOfItsAgent plan e }
{}
