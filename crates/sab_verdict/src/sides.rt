//! How the events of a race are written.

ghost use Rattle.std.specs.Prelude.{◌≡◌};
ghost use Rattle.sab_verdict.specs.Events.{call_at};

use sab_plan::{Call, Entry, Plan};
use sab_report_text::words::Name;

/// How the two events of a race are written.
#[derive(Clone, Copy)]
pub(crate) enum Sides<'a> {
    /// As calls of a script's run.
    Calls(Run<'a>),
    /// As the accesses of a trace.
    Accesses,
}

/// A script's run, of whose entries the events were made.
#[derive(Clone, Copy)]
pub(crate) struct Run<'a> {
    /// The names of the plan's views.
    pub names: &'a [Name],
    /// What the agents were to do.
    pub plan: &'a Plan,
    /// What they did, an entry for each event.
    pub journal: &'a [Entry],
}

impl Run<'_> {
    /// The call of entry `k`, if there is one.
    pub fn call_at(&self, k: usize) -> Option<Call>
        ensures { result ≡ call_at self.now.plan.now self.now.journal.now k }
    {
        let plan = self.plan;
        let entry = self.journal.get(k)?;
        let script = plan.scripts().get(entry.agent as usize)?;
        script.calls.get(entry.call as usize).copied()
    }
}
