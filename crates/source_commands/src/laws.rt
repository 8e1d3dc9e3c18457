//! Laws over the definitions. The functions do nothing: what they ensure is proved of the definitions.

ghost use Rattle.std.specs.Prelude.{ℕ, List};
ghost use Rattle.command_base.specs.Soundness.{IsSound};
ghost use Rattle.source_commands.specs.Preprocessing.{preprocess_task};

/// The commands over sources are sound.
pub fn commands_over_sources_are_sound()
    ensures { (dictionary : List ℕ) (sources : List (List ℕ)) → IsSound (preprocess_task dictionary sources) }
{}
