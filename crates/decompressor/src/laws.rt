//! Laws over what logs stand for. The functions do nothing: what they ensure is proved of the definitions.

ghost use Rattle.std.specs.Prelude.{◌≡◌, ℕ, ◌<◌, true, List, [], ◌∷◌, ◌++◌, length, map, take, All};
ghost use Rattle.log_dictionary.specs.declared.clock.Clock.{Clock};
ghost use Rattle.log_dictionary.specs.declared.message.Message.{Message};
ghost use Rattle.log_dictionary.specs.Calls.{LogCall};
ghost use Rattle.arg_records.specs.declared.call.Call.{Call};
ghost use Rattle.checkpoint_io.specs.declared.header.Header.{Header};
ghost use Rattle.checkpoint_io.specs.Blocks.{Block, FileOf};
ghost use Rattle.checkpoint_io.specs.Validity.{Valid};
ghost use Rattle.checkpoint_io.specs.Logs.{LogOf};
ghost use Rattle.checkpoint_io.specs.Rows.{row_bytes, clock_header, clock_blocks};
ghost use Rattle.direct_printf.specs.Lines.{call_before, Direct};
ghost use Rattle.decompressor.specs.Decompression.{CallsOf, all_calls, whole_text, Decompressed};
ghost use Rattle.decompressor.specs.Settling.{open_writers, is_settled, settled_calls, settled_text};
ghost use Rattle.arg_records.specs.Calls.{calls_by_writer};
ghost use Rattle.decompressor.specs.Rows.{row_line, clock_line, stepped_blocks, stepped_lines, three_writers, mixed_blocks, second_calls, mixed_lines, two_writers, paired_blocks};

/// The log of one call is its line. Blocks of three writers give the calls of each in their order,
/// and together the lines of all. A clock counts from its own tick on, also where it steps back.
pub fn worked_logs()
    ensures one_call { Decompressed row_bytes row_line }
    ensures two_clocks { whole_text clock_header clock_blocks ≡ clock_line }
    ensures step_back { whole_text clock_header stepped_blocks ≡ stepped_lines }
    ensures calls { CallsOf mixed_blocks 1 ≡ second_calls }
    ensures mixed_writers { whole_text three_writers mixed_blocks ≡ mixed_lines }
{}

/// Bytes stand for one text.
pub fn texts_are_one()
    ensures { (bytes text other : List ℕ) → Decompressed bytes text
        → Decompressed bytes other
        → text ≡ other }
{}

/// A file of bytes stands for a text, whatever bytes they are.
pub fn decompressed_is_some()
    ensures { (bytes : List ℕ) → All (λ byte. byte < 256) bytes
        → (text : List ℕ) × Decompressed bytes text }
{}

/// A file that is a log from its first byte to its last stands for the lines of all its calls.
pub fn whole_logs_give_all_lines()
    ensures { (header : Header) (blocks : List Block) (bytes : List ℕ)
        → FileOf header blocks bytes
        → Valid header blocks
        → Decompressed bytes (whole_text header blocks) }
{}

/// A log of calls that were taken stands for the lines of these calls.
pub fn logs_give_the_calls_taken()
    ensures { (bytes : List ℕ) (taken : List (List Call)) (dictionary : List Message)
        (version : ℕ) (clocks : List Clock) (batch : ℕ) → LogOf bytes taken dictionary version clocks batch
        → Decompressed bytes (Direct clocks (calls_by_writer dictionary taken)) }
{}

/// With a call that is settled each call before it is.
pub fn settled_calls_stand_first()
    ensures { (header : Header) (blocks : List Block) (call first : LogCall) → is_settled header blocks call ≡ true
        → call_before first call ≡ true
        → is_settled header blocks first ≡ true }
{}

/// Calls that are settled stay so, whatever blocks come, and the lines of the log begin with theirs.
pub fn settled_calls_stay()
    ensures settled { (header : Header) (blocks more : List Block) (call : LogCall) → Valid header (blocks ++ more)
        → is_settled header blocks call ≡ true
        → is_settled header (blocks ++ more) call ≡ true }
    ensures front { (header : Header) (blocks more : List Block) → Valid header (blocks ++ more)
        → (rest : List ℕ) × (whole_text header (blocks ++ more) ≡ settled_text header blocks ++ rest) }
{}

/// Where all writers are closed all calls are settled.
pub fn closed_logs_are_settled()
    ensures { (header : Header) (blocks : List Block) → open_writers header blocks ≡ []
        → settled_calls header blocks ≡ all_calls header blocks }
{}

/// Two writers make one call each, at one time. The second writer's call settles the first writer's, whose close mark
/// settles the second writer's.
pub fn worked_settling()
    ensures { map (λ n. length (settled_calls two_writers (take n paired_blocks))) (1 ∷ 2 ∷ 3 ∷ 4 ∷ 5 ∷ [])
        ≡ 0 ∷ 0 ∷ 1 ∷ 2 ∷ 2 ∷ [] }
{}
