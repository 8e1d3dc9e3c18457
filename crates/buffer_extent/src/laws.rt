//! Laws over the definitions of records and bodies. The functions do nothing: what they ensure is proved of the
//! definitions.

ghost use Rattle.std.specs.Prelude.{◌≡◌, ◌⊎◌, ℕ, ◌<◌, List, [], ◌∷◌, ◌++◌, replicate, All, Contains, codes, pos, negsuc, Ok, Err};
ghost use Rattle.printf_grammar.specs.declared.arg_type.ArgType.TheVariants.{Int, Text as TextType};
ghost use Rattle.printf_grammar.specs.declared.argument.Value.TheVariants.{Signed, Text};
ghost use Rattle.log_dictionary.specs.declared.message.Message.{Message};
ghost use Rattle.arg_records.specs.declared.call.Call.{Call};
ghost use Rattle.buffer_extent.specs.Records.{code_bytes, RecordBytes};
ghost use Rattle.buffer_extent.specs.declared.fault.BodyCause.{BodyCause};
ghost use Rattle.buffer_extent.specs.declared.put.TheConstants.{RECORD_ROOM};
ghost use Rattle.buffer_extent.specs.Rows.{BreaksSo};
ghost use Rattle.buffer_extent.specs.Causes.{cause_number, cause_name};
ghost use Rattle.buffer_extent.specs.Bodies.{body_at, SpellsRecord, IsBody, BodyBreak, BeginsWithRecord, GoesOn, BeginsWithHead};
ghost use Rattle.arg_records.specs.Calls.{IsCall};

/// A call of id 0 at the stamp 1003, where the step counts from 1000, with the number 7.
pub fn a_record_with_a_number()
    ensures { RecordBytes (Int ∷ []) 0 1003 1000 (Signed (pos 7) ∷ []) (16 ∷ 3 ∷ 1 ∷ 7 ∷ []) }
{}

/// A call of id 1 at the stamp 9, where the step counts from 5, with the number -1 and the text `ab`:
/// -1 has code 9 and no bytes, the text has its length among the numbers, and its bytes come last.
pub fn a_record_with_a_text()
    ensures { RecordBytes (Int ∷ TextType ∷ []) 1 9 5 (Signed (negsuc 0) ∷ Text (97 ∷ 98 ∷ []) ∷ [])
        (17 ∷ 1 ∷ 4 ∷ 25 ∷ 2 ∷ 97 ∷ 98 ∷ []) }
{}

/// Where the number of codes is odd, the last one stands alone in its byte.
pub fn three_codes_in_two_bytes()
    ensures { code_bytes (1 ∷ 2 ∷ 3 ∷ []) ≡ 33 ∷ 3 ∷ [] }
{}

/// A record is written where 8,192 bytes are free.
pub fn records_have_room()
    ensures { RECORD_ROOM ≡ 8192 }
{}

/// All causes, each with its number and its name.
pub fn causes_have_numbers_and_names()
    ensures { (cause : BodyCause) → Contains {X = BodyCause × ℕ × List ℕ}
        ((BodyCause.RecordCut, 11, codes "RecordCut") ∷ (BodyCause.UnknownId, 12, codes "UnknownId")
        ∷ (BodyCause.BadNibble, 13, codes "BadNibble") ∷ (BodyCause.NotShortest, 14, codes "NotShortest")
        ∷ (BodyCause.StampRange, 15, codes "StampRange") ∷ (BodyCause.StampFalls, 16, codes "StampFalls")
        ∷ (BodyCause.ArgRange, 17, codes "ArgRange") ∷ (BodyCause.NulInText, 18, codes "NulInText")
        ∷ (BodyCause.TooLong, 19, codes "TooLong") ∷ [])
        (cause, cause_number cause, cause_name cause) }
{}

/// Records that break by each cause, of messages that take an `int`, a text or two texts. The step counts from 1000.
pub fn records_break_by_these_causes()
    ensures cut { BreaksSo (Int ∷ []) 1000 (16 ∷ 3 ∷ 1 ∷ []) BodyCause.RecordCut }
    ensures unknown { BreaksSo (Int ∷ []) 1000 (17 ∷ 3 ∷ 1 ∷ 7 ∷ []) BodyCause.UnknownId }
    ensures no_code { BreaksSo (Int ∷ []) 1000 (144 ∷ 3 ∷ 1 ∷ 7 ∷ []) BodyCause.BadNibble }
    ensures unused { BreaksSo (Int ∷ []) 1000 (16 ∷ 3 ∷ 17 ∷ 7 ∷ []) BodyCause.BadNibble }
    ensures long { BreaksSo (Int ∷ []) 1000 (16 ∷ 0 ∷ 1 ∷ 7 ∷ []) BodyCause.NotShortest }
    ensures past { BreaksSo (Int ∷ []) 1000 (128 ∷ replicate 8 255 ++ 1 ∷ 7 ∷ []) BodyCause.StampRange }
    ensures falls { BreaksSo (Int ∷ []) 1003 (16 ∷ 2 ∷ 1 ∷ 7 ∷ []) BodyCause.StampFalls }
    ensures range { BreaksSo (Int ∷ []) 1000 (16 ∷ 3 ∷ 8 ∷ replicate 7 0 ++ 128 ∷ []) BodyCause.ArgRange }
    ensures nul { BreaksSo (TextType ∷ []) 1000 (16 ∷ 3 ∷ 1 ∷ 1 ∷ 0 ∷ []) BodyCause.NulInText }
    ensures too_long { BreaksSo (TextType ∷ TextType ∷ []) 1000 (16 ∷ 3 ∷ 34 ∷ 160 ∷ 15 ∷ 160 ∷ 15 ∷ []) BodyCause.TooLong }
{}

/// No record's spelling is a proper prefix of another's, where both count from one stamp.
pub fn no_record_begins_another()
    ensures { (messages : List Message) (before : ℕ) (a b : Call) (front front_too back back_too : List ℕ)
        → IsCall messages a
        → IsCall messages b
        → SpellsRecord messages before a front
        → SpellsRecord messages before b front_too
        → front ++ back ≡ front_too ++ back_too
        → (a ≡ b) × (front ≡ front_too) × (back ≡ back_too) }
{}

/// A body is one list of records, or it breaks by one cause, and never both.
pub fn bodies_are_told_apart()
    ensures one_list { (messages : List Message) (tick last : ℕ) (a b : List Call) (body : List ℕ)
        → IsBody messages tick last a body
        → IsBody messages tick last b body
        → a ≡ b }
    ensures one_cause { (messages : List Message) (tick last : ℕ) (a b : BodyCause) (body : List ℕ)
        → BodyBreak messages tick last body a
        → BodyBreak messages tick last body b
        → a ≡ b }
    ensures not_both { (messages : List Message) (tick last : ℕ) (records : List Call) (cause : BodyCause)
        (body : List ℕ) → IsBody messages tick last records body
        → ¬ (BodyBreak messages tick last body cause) }
{}

/// A body that is whole records is read as these, and one that breaks by the cause from which it does. What is read of
/// bytes is whole records.
pub fn bodies_are_read()
    ensures read { (messages : List Message) (tick last : ℕ) (records : List Call) (body : List ℕ)
        → IsBody messages tick last records body
        → body_at messages tick last body ≡ Ok records }
    ensures broken { (messages : List Message) (tick last : ℕ) (cause : BodyCause) (body : List ℕ)
        → BodyBreak messages tick last body cause
        → body_at messages tick last body ≡ Err cause }
    ensures spelled { (messages : List Message) (tick last : ℕ) (records : List Call) (body : List ℕ)
        → All (λ byte. byte < 256) body
        → body_at messages tick last body ≡ Ok records
        → IsBody messages tick last records body }
{}

/// What a body begins with is read again, also where more messages came, and the others behind it are a body that
/// counts from its stamp. A body is the same one where more messages came.
pub fn records_are_read_again()
    ensures first { (messages : List Message) (tick last : ℕ) (call : Call) (others : List Call) (body : List ℕ)
        → IsBody messages tick last (call ∷ others) body
        → BeginsWithRecord messages tick call others body }
    ensures more { (messages more : List Message) (tick last : ℕ) (records : List Call) (body : List ℕ)
        → IsBody messages tick last records body
        → IsBody (messages ++ more) tick last records body }
{}

/// What the first record of a body begins with is read before its arguments, which are read later, also where more
/// messages came.
pub fn heads_are_read_first()
    ensures first { (messages : List Message) (tick last : ℕ) (call : Call) (others : List Call) (body : List ℕ)
        → All (λ byte. byte < 256) body
        → IsBody messages tick last (call ∷ others) body
        → BeginsWithHead messages tick call others body }
    ensures more { (messages more : List Message) (call : Call) (others : List Call) (bytes : List ℕ)
        → GoesOn messages call others bytes
        → GoesOn (messages ++ more) call others bytes }
{}

/// A body of bytes is records that keep the rules, from its first byte to its last, or it breaks,
/// whatever messages, tick and last stamp are in front of it. That it is never both,
/// [`bodies_are_told_apart`] says.
pub fn body_or_break()
    ensures { (messages : List Message) (tick last : ℕ) (body : List ℕ)
        → All (λ byte. byte < 256) body
        → ((records : List Call) × IsBody messages tick last records body)
        ⊎ ((cause : BodyCause) × BodyBreak messages tick last body cause) }
{}
