//! What a job came to.

ghost use Rattle.std.specs.Prelude.{◌≡◌};
ghost use Rattle.sab_cli.specs.Exit.Outcome.{judged_outcome, outcome_of};

use sab_replay::script_runner::Ended;

/// What a job came to that wrote all that it had to.
#[derive(Clone, Copy, Debug, PartialEq, Eq)]
pub enum Outcome {
    /// What was asked for is done.
    Done,
    /// The script was refused, and what was written says where and why.
    Refused,
    /// All calls were to return, and some haven't.
    Unfinished,
    /// The run was to be judged, and two of its accesses are unordered, as what was written says.
    Racy,
    /// All schedules were to be searched, and there is a deadlock, a failure, no way out or a conflict.
    Flawed,
    /// They were, and there is none of these, but the search isn't closed, or a result has no edge.
    Open,
}

impl Outcome {
    /// What a run came to that ended so, and in which all calls were to return or not.
    pub fn of_run(ended: Ended, finish: bool) -> Outcome
        ensures { result ≡ outcome_of ended finish }
    {
        match ended {
            Ended::Unfinished if finish => Outcome::Unfinished,
            _ => Outcome::Done,
        }
    }

    /// What a run came to that was judged besides.
    pub fn of_judged(is_racy: bool, ended: Ended, finish: bool) -> Outcome
        ensures { result ≡ judged_outcome is_racy ended finish }
    {
        if is_racy {
            return Outcome::Racy;
        }
        Outcome::of_run(ended, finish)
    }
}
