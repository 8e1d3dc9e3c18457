//! Laws over the definitions. The functions do nothing: what they ensure is proved of the definitions.

ghost use Rattle.std.specs.Prelude.{ℕ, List};
ghost use Rattle.command_base.specs.Soundness.{IsSound};
ghost use Rattle.dictionary_commands.specs.Heading.{header_task};
ghost use Rattle.dictionary_commands.specs.Injecting.{inject_task};

/// The commands over dictionaries are sound.
pub fn commands_over_dictionaries_are_sound()
    ensures header { (dictionary output : List ℕ) → IsSound (header_task dictionary output) }
    ensures inject { (dictionary source output : List ℕ) → IsSound (inject_task dictionary source output) }
{}
