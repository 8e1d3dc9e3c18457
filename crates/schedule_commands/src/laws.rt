//! Laws over the definitions. The functions do nothing: what they ensure is proved of the definitions.

ghost use Rattle.std.specs.Prelude.{ℕ, List};
ghost use Rattle.command_base.specs.Soundness.{IsSound};
ghost use Rattle.schedule_commands.specs.Tasks.{schedule_task};

/// The command over schedules is sound.
pub fn commands_over_schedules_are_sound()
    ensures schedule { (file : List ℕ) → IsSound (schedule_task file) }
{}
