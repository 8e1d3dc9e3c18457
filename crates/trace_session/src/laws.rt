//! Laws over the definitions. The functions do nothing: what they ensure is proved of the definitions.

ghost use Rattle.std.specs.Prelude.{ℕ, ◌+◌, ◌<◌, List, All};
ghost use Rattle.log_dictionary.specs.declared.severity.Severity.{Severity};
ghost use Rattle.trace_text.specs.Recordings.{Recording};
ghost use Rattle.trace_session.specs.declared.drops.Dropped.{Dropped};
ghost use Rattle.trace_session.specs.Drops.{LawfulDrops, position_at};

/// A call is dropped only where the calls of its writer that were taken before, and it, take more places than the ring
/// has. So the first call of a writer never is.
pub fn a_dropped_call_would_overfill_its_ring()
    ensures { (run : Recording) (level : Severity) (words : ℕ) (drops : List Dropped)
        → LawfulDrops run level words drops
        → All (λ drop. words < position_at run level words drops drop + drop.need) drops }
{}
