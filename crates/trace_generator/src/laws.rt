//! Laws and worked examples of generated traces. The functions do nothing: what they ensure is proved of the definitions.

ghost use Rattle.std.specs.Prelude.{◌≡◌, ◌%◌, ◌≤◌, ℕ, map};
ghost use Rattle.std.specs.List.{range_with_len};
ghost use Rattle.trace_text.specs.Canonical.{Canonical, HasText};
ghost use Rattle.trace_generator.specs.Generated.{state_after, Generated};
ghost use Rattle.trace_generator.specs.Rows.{first_states, two_calls_text, turns_text, no_calls_text};

/// The states of the generator behind the seed 1, and the traces of two calls of one writer, of the same calls of two
/// writers, which take turns, and of no calls.
pub fn traces_are_generated()
    ensures states { map (λ draws. state_after draws 1) (range_with_len 1 7) ≡ first_states }
    ensures two_calls { Canonical (Generated 1 2 1) ≡ two_calls_text }
    ensures turns { Canonical (Generated 1 2 2) ≡ turns_text }
    ensures no_calls { Canonical (Generated 1 0 3) ≡ no_calls_text }
    ensures large_seeds { (seed other calls writers : ℕ) → seed % 2147483648 ≡ other % 2147483648
        → Generated seed calls writers ≡ Generated other calls writers }
{}

/// Each generated trace is one that a text can spell.
pub fn generated_traces_have_texts()
    ensures { (seed calls writers : ℕ) → calls ≤ 1000000 → 1 ≤ writers → writers ≤ 64
        → HasText (Generated seed calls writers) }
{}
