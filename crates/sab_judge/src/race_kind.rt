//! Kinds of races.

use crate::event::Event;

/// Which of the events that race with a later one are counted.
#[derive(Clone, Copy)]
pub(crate) enum RaceKind {
    /// All.
    Any,
    /// Those that write, where the later one writes too.
    BothWrite,
}

impl RaceKind {
    ghost use Rattle.std.specs.Prelude.{◌≡◌};
    ghost use Rattle.sab_judge.specs.RaceKind.{is_of_kind};

    /// Whether the accesses of two events conflict, and are of the kind.
    pub fn takes(self, first: Event, second: Event) -> bool
        ensures { result ≡ is_of_kind self first second }
    {
        match self {
            RaceKind::Any => first.conflicts(second),
            RaceKind::BothWrite => first.conflicts(second) && first.writes_as(second),
        }
    }
}
