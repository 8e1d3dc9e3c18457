//! What holds of the definitions. The functions do nothing: what they ensure is proved of the definitions.

ghost use Rattle.std.specs.Prelude.{◌≡◌, ◌⊎◌, ◌↔◌, ℕ, ◌+◌, ◌-◌, ◌*◌, ◌/◌, ◌<◌, ◌≤◌, ◌^◌, List, [], ◌∷◌, ◌++◌, length, map, codes, Ok, Err, IsTrue, ℤ, pos, negsuc, FitsSigned};
ghost use Rattle.std.specs.Int.{w64};
ghost use Rattle.std.specs.Option.{option_map};
ghost use Rattle.std.specs.Fmt.{decimal, signed_decimal};
ghost use Rattle.nibble_pack.specs.Bytes.{AreBytes};
ghost use Rattle.log_dictionary.specs.declared.binary_entry.EntryCause.{EntryCause as NoEntry};
ghost use Rattle.log_dictionary.specs.declared.clock.Clock.{Clock};
ghost use Rattle.log_dictionary.specs.declared.clocks.ClockFault.{ClockFault as NoClock};
ghost use Rattle.log_dictionary.specs.Clocks.{StopsClock};
ghost use Rattle.log_dictionary.specs.declared.message.Message.{Message};
ghost use Rattle.log_dictionary.specs.Additions.{ReadsLine};
ghost use Rattle.log_dictionary.specs.Severities.{severity_name, severity_number};
ghost use Rattle.log_dictionary.specs.BinaryEntries.{SpellsEntry, BeginsWithEntry};
ghost use Rattle.log_dictionary.specs.EntryReading.{fields_at, entry_at};
ghost use Rattle.log_dictionary.specs.Texts.{OpensText, SpellsText, text_at};
ghost use Rattle.log_dictionary.specs.Messages.{SameMessage, is_same, SpellsMessage};
ghost use Rattle.log_dictionary.specs.Canonical.{canonical_text, message_line, dictionary_text, HasLine};
ghost use Rattle.log_dictionary.specs.Rows.{row_message, row_head, row_entry, row_message_line, great_line};
ghost use Rattle.log_dictionary.specs.Rows.{all_severities, row_clock, later_clock};
ghost use Rattle.log_dictionary.specs.Numbers.{natural_of, integer_of, integer_read};
ghost use Rattle.log_dictionary.specs.Times.{Time};

use crate::binary_entry::EntryCause;
use crate::clock::Clock;
use crate::clocks::{ClockFault, Clocks};
use crate::dictionary::{Dictionary, LineFault};
use crate::message::Message;
use crate::numbers::Integer;
use crate::severity::Severity;

/// A worked entry, and bytes that begin with none: a field is out of range, or they end inside an
/// entry. Half of a length isn't judged, even where no other half makes it right.
pub fn worked_entries()
    ensures whole { SpellsEntry row_entry row_message }
    ensures bad_severity { fields_at (5 ∷ []) ≡ Err EntryCause.BadEntry }
    ensures half_length { fields_at (row_head ++ 0 ∷ []) ≡ Err EntryCause.Cut }
    ensures empty_file { fields_at (row_head ++ 0 ∷ 0 ∷ []) ≡ Err EntryCause.BadEntry }
    ensures long_file { fields_at (row_head ++ 0 ∷ 1 ∷ []) ≡ Err EntryCause.BadEntry }
    ensures unfinished_file { fields_at (row_head ++ 255 ∷ 0 ∷ []) ≡ Err EntryCause.Cut }
    ensures long_format { fields_at (row_head ++ 1 ∷ 0 ∷ 97 ∷ 0 ∷ 16 ∷ []) ≡ Err EntryCause.BadEntry }
    ensures unfinished_format { fields_at (row_head ++ 1 ∷ 0 ∷ 97 ∷ 255 ∷ 15 ∷ []) ≡ Err EntryCause.Cut }
{}

/// An entry is read as the message that it spells, whatever stands behind it, and what is read is spelled so. Where no
/// fields are read there is no entry, from the same cause.
pub fn entries_are_read()
    ensures read { (message : Message) (front rest : List ℕ) → SpellsEntry front message
        → entry_at (front ++ rest) ≡ Ok (message, rest) }
    ensures spelled { (message : Message) (bytes rest : List ℕ) → AreBytes bytes
        → entry_at bytes ≡ Ok (message, rest)
        → (front : List ℕ) × (bytes ≡ front ++ rest) × SpellsEntry front message }
    ensures no_fields { (bytes : List ℕ) (cause : NoEntry) → fields_at bytes ≡ Err cause
        → entry_at bytes ≡ Err cause }
{}

/// Bytes end inside an entry, are wrong, or begin with an entry: one of the three holds, and only
/// one.
pub fn entries_are_told_apart()
    ensures one_holds { (bytes : List ℕ) → AreBytes bytes
        → (entry_at bytes ≡ Err EntryCause.Cut) ⊎ (entry_at bytes ≡ Err EntryCause.BadEntry)
        ⊎ BeginsWithEntry bytes }
    ensures no_cause { (bytes : List ℕ) (cause : NoEntry) → BeginsWithEntry bytes
        → ¬ (entry_at bytes ≡ Err cause) }
{}

/// Bytes begin with one entry, of one message. Each proper front of an entry is cut off, and bytes that are wrong stay
/// so, whatever follows.
pub fn entries_are_one()
    ensures one_spelling { (front other rest other_rest : List ℕ) (a b : Message)
        → SpellsEntry front a → SpellsEntry other b → front ++ rest ≡ other ++ other_rest
        → (front ≡ other) × SameMessage a b }
    ensures one_message { (front other rest other_rest : List ℕ) (a b : Message)
        → SpellsEntry front a → SpellsEntry other b → front ++ rest ≡ other ++ other_rest
        → (a ≡ b) × (front ≡ other) }
    ensures cut { (front rest : List ℕ) (message : Message) → SpellsEntry (front ++ rest) message
        → 1 ≤ length rest → entry_at front ≡ Err EntryCause.Cut }
    ensures stays_bad { (bytes rest : List ℕ) → entry_at bytes ≡ Err EntryCause.BadEntry
        → entry_at (bytes ++ rest) ≡ Err EntryCause.BadEntry }
{}

/// Worked texts: each escape, digits of either case, and what opens no text.
pub fn worked_texts()
    ensures escapes { text_at (codes "\"\\\"\\\\\\n\\t\\x41\" rest")
        ≡ Some (34 ∷ 92 ∷ 10 ∷ 9 ∷ 65 ∷ [], codes " rest") }
    ensures mixed_case { text_at (codes "\"\\xFe\"") ≡ Some (254 ∷ [], []) }
    ensures one_digit { text_at (codes "\"\\x4\"") ≡ None }
    ensures other_escape { text_at (codes "\"\\a\"") ≡ None }
    ensures unclosed { text_at (codes "\"a\\\"") ≡ None }
    ensures unopened { text_at (codes "a\"") ≡ None }
    ensures tab { text_at (34 ∷ 9 ∷ 34 ∷ []) ≡ None }
    ensures delete { text_at (34 ∷ 127 ∷ 34 ∷ []) ≡ None }
    ensures high { text_at (34 ∷ 128 ∷ 255 ∷ 34 ∷ []) ≡ Some (128 ∷ 255 ∷ [], []) }
{}

/// Worked numbers: what spells none, and one that is too large for 64 bits.
pub fn worked_numbers()
    ensures zero { integer_of (codes "0") ≡ Some (pos 0) }
    ensures below { integer_of (codes "-17") ≡ Some (negsuc 16) }
    ensures zeros { integer_of (codes "00") ≡ None }
    ensures minus_zero { integer_of (codes "-0") ≡ None }
    ensures plus { integer_of (codes "+1") ≡ None }
    ensures minus { integer_of (codes "-") ≡ None }
    ensures nothing { integer_of [] ≡ None }
    ensures letter { integer_of (codes "1a") ≡ None }
    ensures nines { option_map integer_read (integer_of (codes "99999999999999999999")) ≡ Some Integer.Beyond }
{}

/// A number that fits 64 bits is read from its decimal digits, and from nothing else.
pub fn numbers_are_read()
    ensures natural { (field : List ℕ) (n : ℕ) → n < 2 ^ 64
        → (natural_of field ≡ Some n) ↔ (field ≡ decimal n) }
    ensures unsigned { (field : List ℕ) (n : ℕ) → n < 2 ^ 64
        → (integer_of field ≡ Some (pos n)) ↔ (field ≡ decimal n) }
    ensures signed { (field : List ℕ) (z : ℤ) → FitsSigned w64 z
        → (integer_of field ≡ Some z) ↔ (field ≡ signed_decimal z) }
{}

/// Bytes open with one text in quotation marks or with none, and that text is what reading byte by
/// byte gives.
pub fn texts_are_read()
    ensures read { (bytes value rest : List ℕ) → OpensText bytes value rest
        → text_at bytes ≡ Some (value, rest) }
    ensures spelled { (bytes value rest : List ℕ) → text_at bytes ≡ Some (value, rest)
        → OpensText bytes value rest }
    ensures one_text { (bytes value other rest other_rest : List ℕ)
        → OpensText bytes value rest → OpensText bytes other other_rest
        → (value ≡ other) × (rest ≡ other_rest) }
    ensures one_holds { (bytes : List ℕ)
        → ((value : List ℕ) × (rest : List ℕ) × OpensText bytes value rest)
        ⊎ ((value rest : List ℕ) → ¬ (OpensText bytes value rest)) }
{}

/// Worked message lines: one that is read, and one whose id is 2^64, which is out of order and no bad entry.
pub fn worked_lines()
    ensures read { ReadsLine [] row_message_line (row_message ∷ []) (Ok tt) }
    ensures great_id { ReadsLine [] great_line [] (Err LineFault.Order) }
    ensures no_bad_entry { ¬ (ReadsLine [] great_line [] (Err LineFault.BadEntry)) }
{}

/// A dictionary is full with 65,536 messages, and no sooner.
pub fn worked_limits()
    ensures full { (messages : List Message) (line : List ℕ) → length messages ≡ 65536
        → ReadsLine messages line messages (Err LineFault.TooMany) }
    ensures room { (messages : List Message) (line : List ℕ) → length messages ≡ 65535
        → ¬ (ReadsLine messages line messages (Err LineFault.TooMany)) }
{}

/// The severities, from the gravest on: their numbers and their names.
pub fn worked_severities()
    ensures numbers { map severity_number all_severities ≡ 1 ∷ 2 ∷ 3 ∷ 4 ∷ [] }
    ensures names { map severity_name all_severities
        ≡ codes "ERROR" ∷ codes "WARNING" ∷ codes "NOTICE" ∷ codes "DEBUG" ∷ [] }
{}

/// A message line spells one id and one message, and every line spells one of each or none. Messages
/// pass `==` where they are equal.
pub fn message_lines_have_one_reading()
    ensures one_reading { (line : List ℕ) (id other_id : ℕ) (message other : Message)
        → SpellsMessage line id message → SpellsMessage line other_id other
        → (id ≡ other_id) × (message ≡ other) }
    ensures spells_or_not { (line : List ℕ)
        → ((id : ℕ) × (message : Message) × SpellsMessage line id message)
        ⊎ ((id : ℕ) (message : Message) → ¬ (SpellsMessage line id message)) }
    ensures equal { (a b : Message) → IsTrue (is_same a b) ↔ SameMessage a b }
{}

/// What is written of a text spells that text, and a message's line spells that message, with its id.
pub fn what_is_written_spells()
    ensures text { (bytes : List ℕ) → AreBytes bytes → SpellsText (canonical_text bytes) bytes }
    ensures message { (id : ℕ) (message : Message) → id < 2 ^ 64 → HasLine message
        → SpellsMessage (message_line id message) id message }
    ensures letters { canonical_text (97 ∷ 65 ∷ 10 ∷ []) ≡ codes "aA\\n" }
    ensures delete { canonical_text (127 ∷ []) ≡ codes "\\x7f" }
    ensures marks { canonical_text (34 ∷ 92 ∷ 9 ∷ 254 ∷ []) ≡ codes "\\\"\\\\\\t\\xfe" }
    ensures line { message_line 0 row_message ≡ row_message_line }
    ensures dictionary { dictionary_text (row_message ∷ []) ≡ codes "nanolog-trace 1\n" ++ row_message_line ++ 10 ∷ [] }
{}

/// Worked times: by one clock, and by two.
pub fn worked_times()
    ensures one_clock { Time (row_clock ∷ []) 1003 ≡ 1514764800000000001 }
    ensures second_clock { Time (row_clock ∷ later_clock ∷ []) 2003 ≡ 1514764801000000003 }
    ensures at_its_tick { Time (row_clock ∷ later_clock ∷ []) 2000 ≡ 1514764801000000000 }
    ensures below_its_tick { Time (row_clock ∷ later_clock ∷ []) 1999 ≡ Time (row_clock ∷ []) 1999 }
{}

/// One more clock at the end of the list changes no time of a stamp below its tick, and from its tick on it alone
/// counts.
pub fn later_clocks_count_from_their_ticks()
    ensures before { (clocks : List Clock) (clock : Clock) (stamp : ℕ) → stamp < clock.tick
        → Time (clocks ++ clock ∷ []) stamp ≡ Time clocks stamp }
    ensures since { (clocks : List Clock) (clock : Clock) (stamp : ℕ) → clock.tick ≤ stamp
        → Time (clocks ++ clock ∷ []) stamp ≡ clock.nanos + (stamp - clock.tick) * 1000000000 / clock.rate }
{}

/// Worked clocks that aren't added: at the tick of the last one, and with no rate. Of the two causes the first counts.
pub fn worked_clocks()
    ensures same_tick { StopsClock (row_clock ∷ []) row_clock ClockFault.Order }
    ensures no_rate { StopsClock (row_clock ∷ []) (record { tick = 1001; nanos = 0; rate = 0 }) ClockFault.Rate }
    ensures both { StopsClock (row_clock ∷ []) (record { tick = 1000; nanos = 0; rate = 0 }) ClockFault.Order }
    ensures none { (fault : NoClock) → ¬ (StopsClock (row_clock ∷ []) later_clock fault) }
{}

/// There are too many clocks with 256, whatever clock is to follow, and no sooner. One cause counts.
pub fn worked_clock_limits()
    ensures full { (clocks : List Clock) (clock : Clock) → length clocks ≡ 256
        → StopsClock clocks clock ClockFault.TooMany }
    ensures room { (clocks : List Clock) (clock : Clock) → length clocks ≡ 255
        → ¬ (StopsClock clocks clock ClockFault.TooMany) }
    ensures one_cause { (clocks : List Clock) (clock : Clock) (fault other : NoClock)
        → StopsClock clocks clock fault → StopsClock clocks clock other → fault ≡ other }
{}

/// What a program logs with goes from thread to thread, and threads share it.
pub fn threads() {
    crosses_threads::<Message>();
    crosses_threads::<Dictionary>();
    crosses_threads::<Clock>();
    crosses_threads::<Clocks>();
    crosses_threads::<Severity>();
}

fn crosses_threads<T: Send + Sync>() {}
