//! Laws over the definitions. The functions do nothing: what they ensure is proved of the definitions.

ghost use Rattle.std.specs.Prelude.{◌≡◌, ◌≢◌, ◌≤◌, ◌⊎◌, ◌∷◌, [], ℕ, List, length, Option, Some, None, Contains};
ghost use Rattle.std.specs.FinMap as map;
ghost use Rattle.nl_io.specs.Count.{Rose};
ghost use Rattle.nl_io.specs.Desk.{Desk, Held, IsAbsent, found_in};
ghost use Rattle.nl_io.specs.Content.{with_end};
ghost use Rattle.trace_text.specs.Recordings.{Recording};
ghost use Rattle.log_dictionary.specs.declared.severity.Severity.TheVariants.{Debug};
ghost use Rattle.checkpoint_io.specs.declared.heads.TheConstants.{MAX_LOG};
ghost use Rattle.session_options.specs.declared.options.Options.{Options};
ghost use Rattle.session_options.specs.declared.options.Policy.TheVariants.{Wait};
ghost use Rattle.trace_session.specs.declared.drops.Dropped.{Dropped};
ghost use Rattle.cli_words.specs.Commands.{Command, Direct, Replay, Decompress};
ghost use Rattle.cli_words.specs.Usage.{usage_text};
ghost use Rattle.command_base.specs.Endings.{Ending, Done, Usage, Absent, ReadFault, WriteFault, NoMemory, status_of};
ghost use Rattle.command_base.specs.declared.status.Status.TheVariants.{Done as IsDone};
ghost use Rattle.command_base.specs.HeldFiles.{IsHeld};
ghost use Rattle.command_base.specs.Scenes.{Scene};
ghost use Rattle.command_base.specs.Words.{standard_output};
ghost use Rattle.session_commands.specs.Headline.{taken_text, LogLawful, TextSame, HeadlineCut};
ghost use Rattle.nanolog_cli.specs.Outcomes.{input_names, output_name, IsRight, HidesReadFault, Ends, Answers};
ghost use Rattle.nanolog_laws.specs.Unfinished.{IsRefusedEnding, IsCutShort, ComesWithText, PrintsFront, HoldsCutLog};

/// A command whose files are held and right is done, where no call fails and memory suffices, and none is done whose
/// files are told and aren't right. Where it is told that the first of them isn't there, that is the answer, unless a
/// call failed.
pub fn commands_are_done_where_they_can_be()
    ensures taken { (command : Command) (old new : Scene) (ending : Ending) → Ends command old new ending →
        IsRight command old.desk →
        ¬ (Rose old.desk.read_faults new.desk.read_faults) → ¬ (Rose old.desk.write_faults new.desk.write_faults) →
        ¬ (Rose old.faults new.faults) → (status_of ending ≡ IsDone) ⊎ (ending ≡ NoMemory) }
    ensures right { (command : Command) (old new : Scene) (ending : Ending) → Ends command old new ending →
        status_of ending ≡ IsDone → (held : Held) → old.desk.held ≡ Some held → IsRight command old.desk }
    ensures absent { (command : Command) (old new : Scene) (ending : Ending) → Ends command old new ending →
        (name : List ℕ) (others : List (List ℕ)) (held : Held) → input_names command ≡ name ∷ others →
        old.desk.held ≡ Some held → map.get held name ≡ None →
        ¬ (Rose old.desk.read_faults new.desk.read_faults) → ending ≡ Absent name }
{}

/// A log as the headline has it decompresses to the text that the headline has.
pub fn lawful_logs_give_the_text()
    ensures { (new : Desk) (log : List ℕ) (run : Recording) (options : Options) (drops : List Dropped) (bytes : List ℕ)
        → LogLawful new log run options drops bytes → TextSame run options drops bytes }
{}

/// `decompress` gives back what `replay` wrote: it prints the lines of the calls that were kept and not dropped, and
/// tells of no writer that is still open, where the log isn't too long, no call fails and memory suffices.
pub fn replayed_logs_decompress()
    ensures { (log : List ℕ) (options : Options) (run : Recording) (drops : List Dropped) (bytes : List ℕ)
        (old new : Scene) (ending : Ending) (held : Held)
        → LogLawful old.desk log run options drops bytes → length bytes ≤ MAX_LOG → old.desk.held ≡ Some held
        → Ends (Decompress log) old new ending
        → ¬ (Rose old.desk.read_faults new.desk.read_faults) → ¬ (Rose old.faults new.faults)
        → ((ending ≡ Done) × (new.put ≡ with_end (taken_text run options.level drops) old.put))
        ⊎ (ending ≡ NoMemory) }
{}

/// Where writers wait and each level is kept, `decompress` of the log that `replay` wrote prints what `direct` prints
/// of the same trace, where the log isn't too long, no call fails and memory suffices. Of the files it is asked only
/// that the trace's name holds for `direct` what it held for `replay`, and the log's name for `decompress` what
/// `replay` left there. All others may have changed.
pub fn replayed_traces_print_as_direct()
    ensures { (trace log : List ℕ) (options : Options) (before after : Scene)
        → Ends (Replay trace log options) before after Done → options.policy ≡ Wait → options.level ≡ Debug
        → (bytes : List ℕ) → found_in after.desk log ≡ Some (Some bytes) → length bytes ≤ MAX_LOG
        → (direct_old direct_new : Scene) → found_in direct_old.desk trace ≡ found_in before.desk trace
        → Ends (Direct trace) direct_old direct_new Done
        → (old new : Scene) (ending : Ending) → found_in old.desk log ≡ found_in after.desk log
        → Ends (Decompress log) old new ending
        → ¬ (Rose old.desk.read_faults new.desk.read_faults) → ¬ (Rose old.faults new.faults)
        → (text : List ℕ) × (direct_new.put ≡ with_end text direct_old.put)
        × (((ending ≡ Done) × (new.put ≡ with_end text old.put)) ⊎ (ending ≡ NoMemory)) }
{}

/// A count of failed calls rises only where the answer says so, but that some answers stand in place of a failed read.
/// An answer that tells of a failed call tells of one of this command: of an input that it reads, of the output that it
/// makes, or of the standard output.
pub fn failures_are_told()
    ensures reading { (command : Command) (old new : Scene) (ending : Ending) → Ends command old new ending →
        ((name : List ℕ) × Contains (input_names command) name × (ending ≡ ReadFault name))
        ⊎ (new.desk.read_faults ≡ old.desk.read_faults) ⊎ HidesReadFault command old.desk new.desk ending }
    ensures writing { (command : Command) (old new : Scene) (ending : Ending) → Ends command old new ending →
        ((name : List ℕ) × (ending ≡ WriteFault name))
        ⊎ ((new.desk.write_faults ≡ old.desk.write_faults) × (new.faults ≡ old.faults)) }
    ensures unread { (command : Command) (old new : Scene) (name : List ℕ) → Ends command old new (ReadFault name) →
        Contains (input_names command) name × Rose old.desk.read_faults new.desk.read_faults }
    ensures unwritten { (command : Command) (old new : Scene) (name : List ℕ) → Ends command old new (WriteFault name)
        → ((name ≡ standard_output) × Rose old.faults new.faults)
        ⊎ ((output_name command ≡ Some name) × Rose old.desk.write_faults new.desk.write_faults) }
{}

/// Words that are no command are answered by how one is written, and no other words are. A file that is told to be
/// absent is one of those that the command reads, and isn't there.
pub fn refusals_have_their_reasons()
    ensures usage { (asked : Option Command) (old new : Scene) (lines : List ℕ) → Answers asked old new (Usage lines)
        → asked ≡ None }
    ensures words { (old new : Scene) (ending : Ending) → Answers None old new ending
        → ((ending ≡ Usage usage_text) ⊎ (ending ≡ NoMemory)) × (new ≡ old) }
    ensures absent { (command : Command) (old new : Scene) (name : List ℕ) → Ends command old new (Absent name)
        → Contains (input_names command) name × IsAbsent old.desk name }
{}

/// Where the words or the inputs are why not all was done, all names hold what they held, and nothing is printed, but
/// for the ends that come with a text, which is then printed whole.
pub fn refusals_leave_all_as_it_was()
    ensures held { (asked : Option Command) (old new : Scene) (ending : Ending) → Answers asked old new ending
        → IsRefusedEnding ending → new.desk.held ≡ old.desk.held }
    ensures put { (asked : Option Command) (old new : Scene) (ending : Ending) → Answers asked old new ending
        → IsRefusedEnding ending → ¬ (ComesWithText asked ending) → new.put ≡ old.put }
{}

/// Where a write failed, or memory was wanting, nothing was printed or a front of a text that the inputs give without
/// that. A want of memory lets `replay` print nothing. Where only its text couldn't be printed whole, the headline
/// holds of the rest.
pub fn texts_are_cut_short()
    ensures front { (command : Command) (old new : Scene) (ending : Ending) → Ends command old new ending
        → IsCutShort ending → (new.put ≡ old.put) ⊎ PrintsFront command old new }
    ensures unprinted { (trace log : List ℕ) (options : Options) (old new : Scene)
        → Ends (Replay trace log options) old new NoMemory → new.put ≡ old.put }
    ensures headline { (trace log name : List ℕ) (options : Options) (old new : Scene)
        → Ends (Replay trace log options) old new (WriteFault name)
        → ¬ (Rose old.desk.write_faults new.desk.write_faults)
        → (run : Recording) × (drops : List Dropped) × (bytes : List ℕ)
        × HeadlineCut trace log options old new run drops bytes }
{}

/// Where memory was wanting the log of `replay` holds what it held, or no bytes. Where a call that creates, writes or
/// finishes it failed, nothing was printed, and it holds what it held, or no bytes, or the front of a log.
pub fn logs_are_cut_short()
    ensures memory { (trace log : List ℕ) (options : Options) (old new : Scene)
        → Ends (Replay trace log options) old new NoMemory
        → (found_in new.desk log ≡ found_in old.desk log) ⊎ IsHeld new.desk log [] }
    ensures fault { (trace log name : List ℕ) (options : Options) (old new : Scene)
        → Ends (Replay trace log options) old new (WriteFault name)
        → ((name ≡ standard_output) × Rose old.faults new.faults)
        ⊎ ((name ≡ log) × (new.put ≡ old.put) × HoldsCutLog trace log options old.desk new.desk) }
{}

/// Whatever the answer, all names but that of the output hold what they held, and no file is left open.
pub fn other_files_stay()
    ensures held { (command : Command) (old new : Scene) (ending : Ending) → Ends command old new ending →
        (other : List ℕ) → output_name command ≢ Some other → found_in new.desk other ≡ found_in old.desk other }
    ensures left { (command : Command) (old new : Scene) (ending : Ending) → Ends command old new ending →
        new.desk.left ≡ old.desk.left }
    ensures made { (command : Command) (old new : Scene) (ending : Ending) → Ends command old new ending →
        new.desk.made ≡ old.desk.made }
{}
