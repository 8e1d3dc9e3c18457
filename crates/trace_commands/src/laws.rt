//! Laws over the definitions, and a worked example. The functions do nothing: what they ensure is proved of the
//! definitions.

ghost use Rattle.std.specs.Prelude.{◌≡◌, ◌++◌, ℕ, List, codes};
ghost use Rattle.trace_text.specs.Rows.{three_writers_run};
ghost use Rattle.command_base.specs.Soundness.{IsSound};
ghost use Rattle.trace_commands.specs.Tasks.{direct_task, generate_task};
ghost use Rattle.trace_commands.specs.Texts.{direct_text};

/// Calls of one stamp are printed by writer, and those of one writer in their order.
pub fn equal_stamps_go_by_writer()
    ensures { direct_text three_writers_run ≡
        codes "1514764800.000000001 srv.cc:12 NOTICE[0]: x=1\n"
        ++ codes "1514764800.000000001 srv.cc:12 NOTICE[1]: x=2\n"
        ++ codes "1514764800.000000001 srv.cc:12 NOTICE[1]: x=3\n" }
{}

/// The commands over traces are sound.
pub fn commands_over_traces_are_sound()
    ensures direct { (trace : List ℕ) → IsSound (direct_task trace) }
    ensures generate { (seed calls writers : ℕ) → IsSound (generate_task seed calls writers) }
{}
