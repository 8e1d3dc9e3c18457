//! Laws and worked examples of the definitions. The functions do nothing: what they ensure is
//! proved of the definitions.

ghost use Rattle.std.specs.Prelude.{◌≡◌, ◌≢◌, ◌⊎◌, Result, ℕ, ◌+◌, ◌/◌, ◌<◌, ◌≤◌, List, [], ◌∷◌, ◌++◌, length, replicate, map, sum_by, All, Contains, Some, Ok, codes, negsuc};
ghost use Rattle.std.specs.List.{AllByRecursion};
ghost use Rattle.log_dictionary.specs.Messages.{AreDistinct};
ghost use Rattle.arg_records.specs.Rows.{row_call};
ghost use Rattle.direct_printf.specs.Lines.{in_order};
ghost use Rattle.trace_text.specs.Recordings.{Recording, IsRecording, calls_of};
ghost use Rattle.trace_text.specs.Order.{call_in, places_in_order};
ghost use Rattle.arg_records.specs.Calls.{IsCall, NeverFalls};
ghost use Rattle.log_dictionary.specs.Additions.{SpellsNew};
ghost use Rattle.log_dictionary.specs.Clocks.{AreClocks, FitsClock, first_tick, last_tick};
ghost use Rattle.log_dictionary.specs.declared.clock.Clock.{Clock as ClockValue};
ghost use Rattle.log_dictionary.specs.declared.message.Message.{Message as MessageValue};
ghost use Rattle.trace_text.specs.Reading as parts;
ghost use Rattle.trace_text.specs.Reading.{TracePart, Broken, IsOneLine, Follows, Breaks, Gives, opening, TraceBreak};
ghost use Rattle.trace_text.specs.Traces.{TraceText};
ghost use Rattle.log_dictionary.specs.Canonical.{dictionary_text};
ghost use Rattle.log_dictionary.specs.Rows.{row_message};
ghost use Rattle.trace_text.specs.Canonical.{call_line, Canonical, HasText, HaveMessageLines};
ghost use Rattle.trace_text.specs.Dictionaries.{SpellsDictionary, DictionaryText, DictionaryBreak};
ghost use Rattle.trace_text.specs.Lines.{SpellsCall, clock_line, text_of_lines};
ghost use Rattle.trace_text.specs.Rows.{three_writers_run, three_writers_text, two_messages, text_call, text_call_line, begun_run, refused, texts_line, texts_made, many_calls, three_writers_canonical, one_text_run, one_text_call, dictionary_row, row_clock, two_clocks_run, two_clocks_text};
ghost use Rattle.trace_text.specs.CallReading.{call_at};
ghost use Rattle.trace_text.specs.declared.cause.TraceCause.{TraceCause};
ghost use Rattle.trace_text.specs.declared.cause.TraceCause.TheVariants.{TooLarge, NoEnd, Header, Message, Clock, TooManyClocks, ClockOrder, Writers, CallForm, Writer, BeforeClock, StampFalls, Id, ArgCount, ArgKind, ArgRange, NulInText, TooLong, AfterEnd, TooMany};
ghost use Rattle.trace_text.specs.Causes.{cause_number, cause_name};
ghost use Rattle.printf_grammar.specs.declared.argument.Value.TheVariants.{Signed, Text};
ghost use Rattle.trace_text.specs.declared.trace.TheConstants.{MAX_CALLS, MAX_TRACE};

use crate::order::CallPlace;
use crate::reading::TraceFault;
use crate::trace::Trace;
use crate::writer_calls::WriterCalls;
use crate::writing::WriteTraceFault;

/// The limits of traces, as numbers.
pub fn limits_have_these_numbers()
    ensures bytes { MAX_TRACE ≡ 67108864 }
    ensures calls { MAX_CALLS ≡ 4194304 }
{}

/// A run of three writers, whose calls are mixed.
pub fn writers_are_mixed()
    ensures { TraceText three_writers_text three_writers_run }
{}

/// A run of version 2 with two clocks, as it is read and written.
pub fn runs_have_later_clocks()
    ensures read { TraceText two_clocks_text two_clocks_run }
    ensures written { Canonical two_clocks_run ≡ two_clocks_text }
{}

/// A call with each escape in a text, and the greatest number.
pub fn texts_have_escapes()
    ensures { SpellsCall text_call_line text_call }
{}

/// A run of version 1 has 1 to 64 writers and one clock, one of version 2 has 1 to 1,024 writers and 1 to 256 clocks, and
/// there are no others. It has at most 4,194,304 calls. Each call is one of its messages, and no writer's stamps fall,
/// nor is one before the first clock's tick.
pub fn recordings_are_within_limits()
    ensures worked { IsRecording two_messages }
    ensures two_clocks { IsRecording two_clocks_run }
    ensures slowest_clock { IsRecording (record two_messages { clocks = record row_clock { rate = 1 } ∷ [] }) }
    ensures writers { (n : ℕ) → 1 ≤ n → n ≤ 64 → IsRecording (record two_messages { writers = replicate n [] }) }
    ensures writers_of_2 { (n : ℕ) → 1 ≤ n → n ≤ 1024
        → IsRecording (record two_messages { version = 2; writers = replicate n [] }) }
    ensures calls { (n : ℕ) → n ≤ 4194304
        → IsRecording (record two_messages { writers = replicate n (row_call 1) ∷ [] }) }
    ensures limits { (run : Recording) → IsRecording run → (1 ≤ length run.writers) × (length run.writers ≤ 1024)
        × (1 ≤ length run.clocks) × (length run.clocks ≤ 256) × (sum_by length run.writers ≤ 4194304) }
    ensures limits_of_1 { (run : Recording) → IsRecording run → run.version ≡ 1
        → (length run.writers ≤ 64) × (length run.clocks ≡ 1) }
    ensures versions { (run : Recording) → IsRecording run → (run.version ≡ 1) ⊎ (run.version ≡ 2) }
    ensures clocks_are_right { (run : Recording) → IsRecording run → AreClocks run.clocks × All FitsClock run.clocks }
    ensures calls_are_right { (run : Recording) → IsRecording run
        → AllByRecursion (AllByRecursion (IsCall run.dictionary)) run.writers }
    ensures stamps_rise { (run : Recording) → IsRecording run
        → AllByRecursion (NeverFalls (first_tick run.clocks)) run.writers }
{}

/// A text of a run has at most 67,108,864 bytes and 65,536 messages, of which no two are equal, and
/// its run is one that can be recorded.
pub fn texts_are_of_recordings()
    ensures recorded { (bytes : List ℕ) (run : Recording) → TraceText bytes run → IsRecording run }
    ensures short { (bytes : List ℕ) (run : Recording) → TraceText bytes run → length bytes ≤ 67108864 }
    ensures few_messages { (bytes : List ℕ) (run : Recording) → TraceText bytes run
        → length run.dictionary ≤ 65536 }
    ensures distinct { (bytes : List ℕ) (run : Recording) → TraceText bytes run → AreDistinct run.dictionary }
    ensures written { (bytes : List ℕ) (run : Recording) → TraceText bytes run → HasText run }
{}

/// Lines that go on with a run, and what they say.
pub fn call_lines_are_read()
    ensures number { call_at begun_run (codes "call 1 1000 0 -2") ≡ Ok
        (record { writer = 1; call = record { stamp = 1000; id = 0; args = Signed (negsuc 1) ∷ [] } }) }
    ensures texts { call_at begun_run (codes "call 0 1003 1 \"a\\n\" \"\"") ≡ Ok
        (record { writer = 0; call = record { stamp = 1003; id = 1; args = Text (97 ∷ 10 ∷ []) ∷ Text [] ∷ [] } }) }
{}

/// Lines that are refused in a run. Where several causes hold, the first of them is answered.
pub fn call_lines_are_refused()
    ensures no_word { refused (codes "calls 0 1003 0 1") CallForm }
    ensures no_id { refused (codes "call 0 1003") CallForm }
    ensures leading_zero { refused (codes "call 00 1003 0 1") CallForm }
    ensures large_stamp { refused (codes "call 0 18446744073709551616 0 1") CallForm }
    ensures no_such_writer { refused (codes "call 2 999 2") Writer }
    ensures before_clock { refused (codes "call 0 999 2") BeforeClock }
    ensures falls { refused (codes "call 0 1002 2") StampFalls }
    ensures no_such_message { refused (codes "call 0 1003 2 1 1") Id }
    ensures missing { refused (codes "call 0 1003 0") ArgCount }
    ensures one_more { refused (codes "call 0 1003 0 1 ") ArgCount }
    ensures no_number { refused (codes "call 0 1003 0 \"1\" 2") ArgKind }
    ensures two_spaces { refused (codes "call 0 1003 0  1") ArgKind }
    ensures no_text { refused (codes "call 0 1003 1 1 \"a\"") ArgKind }
    ensures mark_within { refused (codes "call 0 1003 1 \"a\"b \"c\"") ArgKind }
    ensures out_of_range { refused (codes "call 0 1003 0 2147483648") ArgRange }
    ensures any_size { refused (codes "call 0 1003 0 -100000000000000000000000000") ArgRange }
    ensures nul { refused (codes "call 0 1003 1 \"a\\x00\" 1") NulInText }
{}

/// Texts that are refused, at which line and from which cause.
pub fn texts_are_refused()
    ensures too_large { (bytes : List ℕ) → 67108864 < length bytes → TraceBreak bytes 0 TooLarge }
    ensures empty { TraceBreak [] 1 NoEnd }
    ensures no_line_feed { TraceBreak (codes "nanolog-trace 1") 1 NoEnd }
    ensures no_last_line { TraceBreak (codes "nanolog-trace 1\nclock 1 2 3\nwriters 2\nend") 4 NoEnd }
    ensures other_version { TraceBreak (codes "nanolog-trace 3\nclock") 1 Header }
    ensures leading_zero { TraceBreak (codes "nanolog-trace 02\nclock") 1 Header }
    ensures other_id { TraceBreak (codes "nanolog-trace 1\nmessage 1 DEBUG 1 \"a\" \"b\"\n") 2 Message }
    ensures no_rate { TraceBreak (codes "nanolog-trace 1\nclock 1 2 0\nend\n") 2 Clock }
    ensures no_clock { TraceBreak (codes "nanolog-trace 1\nwriters 2\nend\n") 2 Clock }
    ensures no_writer { TraceBreak (codes "nanolog-trace 1\nclock 1 2 3\nwriters 0\nend\n") 3 Writers }
    ensures many_writers { TraceBreak (codes "nanolog-trace 1\nclock 1 2 3\nwriters 65\nend\n") 3 Writers }
    ensures many_writers_of_2 { TraceBreak (codes "nanolog-trace 2\nclock 1 2 3\nwriters 1025\nend\n") 3 Writers }
    ensures second_clock_of_1 { TraceBreak (codes "nanolog-trace 1\nclock 1 2 3\nclock 2 2 3\n") 3 Writers }
    ensures second_without_rate { TraceBreak (codes "nanolog-trace 2\nclock 1 2 3\nclock 1 2 0\n") 3 Clock }
    ensures same_tick { TraceBreak (codes "nanolog-trace 2\nclock 1 2 3\nclock 1 2 3\n") 3 ClockOrder }
    ensures call_of_none { TraceBreak (codes "nanolog-trace 1\nclock 1 2 3\nwriters 2\ncall 2 1 0\nend\n") 4 Writer }
    ensures line_behind { TraceBreak (codes "nanolog-trace 1\nclock 1 2 3\nwriters 2\nend\nend\n") 5 AfterEnd }
    ensures byte_behind { TraceBreak (codes "nanolog-trace 1\nclock 1 2 3\nwriters 2\nend\n ") 5 AfterEnd }
{}

/// A run takes 4,194,304 calls, 65,536 messages, and in version 2 256 clocks. A line that would bring one more is refused
/// as that, whatever stands behind its first word.
pub fn full_runs_take_no_more()
    ensures last_call { (n : ℕ) → n < 4194304
        → call_at (many_calls n) (codes "call 0 1003 0 2") ≡ Ok (record { writer = 0; call = row_call 2 }) }
    ensures one_call_more { (run : Recording) (fields : List ℕ) → 4194304 ≤ sum_by length run.writers
        → Breaks (parts.calls run) (codes "call " ++ fields) TooMany }
    ensures last_message { (before : List MessageValue) (line : List ℕ) (message : MessageValue) → length before < 65536
        → SpellsNew before line (length before) message
        → (version : ℕ) → Follows (parts.messages version before) line (parts.messages version (before ++ message ∷ [])) }
    ensures one_message_more { (version : ℕ) (before : List MessageValue) (fields : List ℕ) → 65536 ≤ length before
        → Breaks (parts.messages version before) (codes "message " ++ fields) TooMany }
    ensures last_clock { (messages : List MessageValue) (times : List ClockValue) (clock : ClockValue)
        → length times < 256 → last_tick times < clock.tick → 1 ≤ clock.rate → FitsClock clock
        → Follows (parts.clocks 2 messages times) (clock_line clock) (parts.clocks 2 messages (times ++ clock ∷ [])) }
    ensures one_clock_more { (messages : List MessageValue) (times : List ClockValue) (fields : List ℕ)
        → 256 ≤ length times → Breaks (parts.clocks 2 messages times) (codes "clock " ++ fields) TooManyClocks }
{}

/// A text has at most 4,000 bytes. The frame of a call has 2 words, one more for each of its texts, and one for eight
/// bytes of a text, or for fewer that are left: at most 512.
pub fn long_calls_are_refused()
    ensures long_text { (n m : ℕ) → 4000 < n → refused (texts_line n m) TooLong }
    ensures long_frame { (n m : ℕ) → n ≤ 4000 → m ≤ 4000 → 512 < 4 + (n + 7) / 8 + (m + 7) / 8
        → refused (texts_line n m) TooLong }
    ensures short_frame { (n m : ℕ) → n ≤ 4000 → m ≤ 4000 → 4 + (n + 7) / 8 + (m + 7) / 8 ≤ 512
        → call_at begun_run (texts_line n m) ≡ Ok (texts_made n m) }
{}

/// A line that is refused is one of the text's whole lines, but where the last line is wanting or isn't the last. Then
/// the text is refused so whatever follows that line, unless it is too large.
pub fn refused_lines_stay_refused()
    ensures whole_line { (bytes : List ℕ) (n : ℕ) (cause : TraceCause) → TraceBreak bytes n cause
        → cause ≢ TooLarge → cause ≢ NoEnd → cause ≢ AfterEnd
        → (lines : List (List ℕ)) × (rest : List ℕ) × (length lines ≡ n) × AllByRecursion IsOneLine lines
        × (bytes ≡ text_of_lines lines ++ rest) }
    ensures stays { (lines : List (List ℕ)) (rest other : List ℕ) (cause : TraceCause)
        → AllByRecursion IsOneLine lines → 1 ≤ length lines
        → TraceBreak (text_of_lines lines ++ rest) (length lines) cause
        → length (text_of_lines lines ++ other) ≤ 67108864
        → TraceBreak (text_of_lines lines ++ other) (length lines) cause }
{}

/// A text that is cut off lacks its end, and behind the end nothing may follow.
pub fn texts_end_with_their_last_line()
    ensures cut_off { (front rest : List ℕ) (run : Recording) → TraceText (front ++ rest) run → 1 ≤ length rest
        → (line : ℕ) × TraceBreak front line NoEnd }
    ensures more { (bytes rest : List ℕ) (run : Recording) → TraceText bytes run → 1 ≤ length rest
        → length (bytes ++ rest) ≤ 67108864 → (line : ℕ) × TraceBreak (bytes ++ rest) line AfterEnd }
{}

/// All causes, each with its number and its name.
pub fn causes_have_numbers_and_names()
    ensures { (cause : TraceCause) → Contains {X = TraceCause × ℕ × List ℕ}
        ((Header, 1, codes "Header") ∷ (Message, 2, codes "Message") ∷ (Clock, 3, codes "Clock")
        ∷ (TooManyClocks, 20, codes "TooManyClocks") ∷ (ClockOrder, 21, codes "ClockOrder")
        ∷ (Writers, 4, codes "Writers") ∷ (Writer, 5, codes "Writer") ∷ (StampFalls, 6, codes "StampFalls")
        ∷ (BeforeClock, 7, codes "BeforeClock") ∷ (Id, 8, codes "Id") ∷ (ArgCount, 9, codes "ArgCount")
        ∷ (ArgKind, 10, codes "ArgKind") ∷ (ArgRange, 11, codes "ArgRange") ∷ (NulInText, 12, codes "NulInText")
        ∷ (TooLong, 13, codes "TooLong") ∷ (NoEnd, 14, codes "NoEnd") ∷ (TooMany, 15, codes "TooMany")
        ∷ (AfterEnd, 16, codes "AfterEnd") ∷ (CallForm, 17, codes "CallForm") ∷ (TooLarge, 18, codes "TooLarge") ∷ [])
        (cause, cause_number cause, cause_name cause) }
{}

/// The calls at the places in order are all calls in order.
pub fn calls_stand_at_their_places()
    ensures { (run : Recording) → map (call_in run) (places_in_order run) ≡ map Some (in_order (calls_of run)) }
{}

/// The canonical text of a run spells the run, where it is within the limit: reading what was written
/// gives the run again.
pub fn canonical_texts_spell()
    ensures { (run : Recording) → HasText run → length (Canonical run) ≤ 67108864 → TraceText (Canonical run) run }
{}

/// A line whose text is spelled with escapes is accepted, and what is written of its call has each byte
/// in its one canonical spelling. Calls are written by stamp, and then by writer.
pub fn calls_are_written()
    ensures read { call_at one_text_run (codes "call 0 1003 0 \"a\\x41\\n\"") ≡ Ok one_text_call }
    ensures written { call_line one_text_call ≡ codes "call 0 1003 0 \"aA\\n\"" }
    ensures in_order { Canonical three_writers_run ≡ three_writers_canonical }
{}

/// The runs that texts spell are the runs that reading the texts line by line gives.
pub fn texts_are_read()
    ensures read { (bytes : List ℕ) (run : Recording) → TraceText bytes run → Gives opening 1 bytes (Ok run) }
    ensures spelled { (bytes : List ℕ) (run : Recording) → length bytes ≤ 67108864
        → Gives opening 1 bytes (Ok run) → TraceText bytes run }
{}

/// A text is that of one run, or it is refused at one line from one cause: one of the two holds, and
/// only one. So it is from each line on: what the bytes give is one outcome, and there is one.
pub fn texts_are_told_apart()
    ensures one_holds { (bytes : List ℕ) → ((run : Recording) × TraceText bytes run)
        ⊎ ((line : ℕ) × (cause : TraceCause) × TraceBreak bytes line cause) }
    ensures not_both { (bytes : List ℕ) (run : Recording) (line : ℕ) (cause : TraceCause)
        → TraceText bytes run → ¬ (TraceBreak bytes line cause) }
    ensures one_run { (bytes : List ℕ) (a b : Recording) → TraceText bytes a → TraceText bytes b → a ≡ b }
    ensures one_break { (bytes : List ℕ) (i j : ℕ) (a b : TraceCause)
        → TraceBreak bytes i a → TraceBreak bytes j b → (i ≡ j) × (a ≡ b) }
    ensures some_outcome { (part : TracePart) (n : ℕ) (bytes : List ℕ)
        → (outcome : Result Recording Broken) × Gives part n bytes outcome }
    ensures one_outcome { (part : TracePart) (n : ℕ) (bytes : List ℕ) (a b : Result Recording Broken)
        → Gives part n bytes a → Gives part n bytes b → a ≡ b }
{}

/// Texts of dictionaries, and texts that are refused, at which line and from which cause. A line that isn't ended is
/// refused as the line that it is.
pub fn worked_dictionaries()
    ensures no_message { DictionaryText (codes "nanolog-trace 1\n") [] }
    ensures one_message { DictionaryText dictionary_row (row_message ∷ []) }
    ensures too_large { (bytes : List ℕ) → 67108864 < length bytes → DictionaryBreak bytes 0 TooLarge }
    ensures empty { DictionaryBreak [] 1 Header }
    ensures no_line_feed { DictionaryBreak (codes "nanolog-trace 1") 1 Header }
    ensures other_version { DictionaryBreak (codes "nanolog-trace 2\n") 1 Header }
    ensures other_id { DictionaryBreak (codes "nanolog-trace 1\nmessage 1 DEBUG 1 \"a\" \"b\"\n") 2 Message }
    ensures other_line { DictionaryBreak (dictionary_row ++ codes "clock 1 2 3\n") 3 Message }
    ensures last_line_cut { DictionaryBreak (codes "nanolog-trace 1\nmessage 0 NOTICE 12 \"srv.cc\" \"x=%d\"") 2 Message }
{}

/// Behind 65,536 messages the line of one more is refused as one too many, whatever stands behind its first word.
pub fn full_dictionaries_take_no_more()
    ensures { (front fields behind : List ℕ) (messages : List MessageValue) → SpellsDictionary front messages
        → length messages ≡ 65536 → IsOneLine fields
        → length (front ++ (codes "message " ++ fields ++ 10 ∷ behind)) ≤ 67108864
        → DictionaryBreak (front ++ (codes "message " ++ fields ++ 10 ∷ behind)) 65538 TooMany }
{}

/// A text is that of one dictionary, or it is refused at one line from one cause: one of the two holds, and only one.
pub fn dictionaries_are_told_apart()
    ensures one_holds { (bytes : List ℕ) → ((messages : List MessageValue) × DictionaryText bytes messages)
        ⊎ ((line : ℕ) × (cause : TraceCause) × DictionaryBreak bytes line cause) }
    ensures not_both { (bytes : List ℕ) (messages : List MessageValue) (line : ℕ) (cause : TraceCause)
        → DictionaryText bytes messages → ¬ (DictionaryBreak bytes line cause) }
    ensures one_dictionary { (bytes : List ℕ) (a b : List MessageValue)
        → DictionaryText bytes a → DictionaryText bytes b → a ≡ b }
    ensures one_break { (bytes : List ℕ) (i j : ℕ) (a b : TraceCause)
        → DictionaryBreak bytes i a → DictionaryBreak bytes j b → (i ≡ j) × (a ≡ b) }
{}

/// What is written of messages that have lines is the text of their dictionary, where it is within the limit: reading
/// it gives the messages again. Messages that are read have lines.
pub fn dictionaries_are_written()
    ensures again { (messages : List MessageValue) → HaveMessageLines messages
        → length (dictionary_text messages) ≤ 67108864 → DictionaryText (dictionary_text messages) messages }
    ensures lines { (bytes : List ℕ) (messages : List MessageValue) → DictionaryText bytes messages
        → HaveMessageLines messages }
{}

/// A trace of version 1 begins with the text of its dictionary.
pub fn traces_begin_with_dictionaries()
    ensures { (bytes : List ℕ) (run : Recording) → TraceText bytes run → run.version ≡ 1
        → (front : List ℕ) × (rest : List ℕ) × (bytes ≡ front ++ rest) × DictionaryText front run.dictionary }
{}

/// Runs, their parts and faults go from thread to thread, and threads share them.
pub fn threads() {
    crosses_threads::<Trace>();
    crosses_threads::<WriterCalls>();
    crosses_threads::<TraceFault>();
    crosses_threads::<WriteTraceFault>();
    crosses_threads::<CallPlace>();
}

fn crosses_threads<T: Send + Sync>() {}
