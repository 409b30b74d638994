//! The warning of a call that throws whenever it acts.

use crate::check::cause::Cause;
use crate::script::{Location, Member};
use std::fmt;

/// A warning of a call.
#[derive(Clone, Copy)]
pub(crate) struct Warning<'a> {
    /// The number of its agent.
    pub agent: usize,
    /// Its position among the agent's calls.
    pub call: usize,
    /// Its name.
    pub word: &'a str,
    /// The name of its view.
    pub view: &'a str,
    /// What it throws, and why.
    pub cause: Cause,
}

impl fmt::Display for Warning<'_> {
    ghost use Rattle.std.specs.Prelude.{Some};
    ghost use Rattle.sab_reader.specs.Check.Text.{warning_text};

    ghost output = { λ w. Some (warning_text w.agent w.call w.word.now w.view.now w.cause) };

    fn fmt<W: fmt::Write>(&self, f: &mut fmt::Formatter<W>) -> fmt::Result {
        let at = Location::Call(Member::Agents, self.agent, Member::Calls, self.call);
        let (word, view) = (self.word, self.view);
        let (thrown, reason) = (self.cause.thrown, self.cause.reason);
        write!(
            f,
            "warning: {at}: {word} on {view} always throws {thrown}: {reason}"
        )
    }
}
