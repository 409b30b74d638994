//! Laws of the definitions.

ghost use Rattle.std.specs.Prelude.{ℕ, ◌<◌, List};
ghost use Rattle.sab_judge.specs.declared.event.Event.{Event};
ghost use Rattle.sab_judge.specs.HappensBefore.{HappensBefore};
ghost use Rattle.sab_judge.specs.Race.{IsDataRace, IsRace};

/// Each data race of the standard is a race here: so where there is no race, there is no data race.
pub fn data_races_are_races()
    ensures { (trace : List Event) (i j : ℕ) → IsDataRace trace i j → IsRace trace i j }
{}

/// What happens before an event is earlier in the trace, so no two events happen before each other.
pub fn happens_before_is_earlier()
    ensures { (trace : List Event) (i j : ℕ) → HappensBefore trace i j → i < j }
{}
