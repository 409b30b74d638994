//! Laws of the definitions.

ghost use Rattle.std.specs.Prelude.{◌≡◌, ℕ, List};
ghost use Rattle.sab_judge.specs.declared.event.Event.{Event};
ghost use Rattle.sab_trace.specs.declared.refusal.Refusal.{Refusal};
ghost use Rattle.sab_trace.specs.Reading.{SpellsTrace, IsRefusedBy, IsOfLine};

/// Bytes are a trace of one list of events at most.
pub fn bytes_spell_one_trace()
    ensures { (bytes : List ℕ) (events others : List Event) → SpellsTrace bytes events → SpellsTrace bytes others
        → events ≡ others }
{}

/// Bytes that are refused for one of their lines are no trace of any events.
pub fn refused_bytes_spell_none()
    ensures { (bytes : List ℕ) (refusal : Refusal) → IsRefusedBy bytes refusal → IsOfLine refusal.fault
        → (events : List Event) → SpellsTrace bytes events → ⊥ }
{}
