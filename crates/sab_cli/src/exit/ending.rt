//! How the program ends.

ghost use Rattle.std.specs.Prelude.{◌≡◌};
ghost use Rattle.sab_cli.specs.Exit.Ending.{status_at, after_job};

use crate::exit::outcome::Outcome;
use crate::exit::status::status_of;
use sab_replay::faults::ToolFault;

/// How the program ends.
#[derive(Clone, Copy, Debug, PartialEq, Eq)]
pub enum Ending {
    /// What was asked for is done, which can be help.
    Done,
    /// The command line was refused.
    Refused,
    /// The script was refused, as standard output says.
    ScriptRefused,
    /// The script was run, and some call hasn't returned, though all were to.
    Unfinished,
    /// Two accesses of the run are unordered, as standard output says.
    Racy,
    /// A search found a deadlock, a failure, states without a way out, or a conflict, as standard output says.
    Flawed,
    /// A search found none of these, but isn't closed, or a result has no edge, as standard output says.
    Open,
    /// A fault, which the program reports with a [`FaultLine`](crate::exit::FaultLine).
    Failed(ToolFault),
}

impl Ending {
    /// How the program ends after a job with this answer.
    pub fn of_job(answer: Result<Outcome, ToolFault>) -> Ending
        ensures { result ≡ after_job answer }
    {
        match answer {
            Ok(Outcome::Done) => Ending::Done,
            Ok(Outcome::Refused) => Ending::ScriptRefused,
            Ok(Outcome::Unfinished) => Ending::Unfinished,
            Ok(Outcome::Racy) => Ending::Racy,
            Ok(Outcome::Flawed) => Ending::Flawed,
            Ok(Outcome::Open) => Ending::Open,
            Err(fault) => Ending::Failed(fault),
        }
    }

    /// The exit status: 0 if all is done, 1 if the script was refused, 2 if the command line was, 5 if some call hasn't
    /// returned that was to, two accesses of the run are unordered, or a search is flawed, 6 if a search is open, and
    /// else that of the fault.
    pub fn status(self) -> u8
        ensures { result ≡ status_at self }
    {
        match self {
            Ending::Done => 0,
            Ending::ScriptRefused => 1,
            Ending::Refused => 2,
            Ending::Unfinished | Ending::Racy | Ending::Flawed => 5,
            Ending::Open => 6,
            Ending::Failed(fault) => status_of(fault),
        }
    }
}
