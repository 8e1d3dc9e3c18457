//! Laws over the definitions. The functions do nothing: what they ensure is proved of the definitions.

ghost use Rattle.std.specs.Prelude.{◌≡◌, ◌≢◌, ◌⊎◌, ◌+◌, ◌<◌, ◌≤◌, ◌↔◌, ℕ, List, ◌++◌, length, drop, slice_get, Some, IsSome, IfSome};
ghost use Rattle.std.specs.List.{AllZip};
ghost use Rattle.log_dictionary.specs.declared.message.Message.{Message};
ghost use Rattle.printf_grammar.specs.declared.argument.Value.{Value};
ghost use Rattle.printf_grammar.specs.declared.arg_type.ArgType.{ArgType};
ghost use Rattle.printf_grammar.specs.declared.arg_type.ArgType.TheVariants.{Text as TextType};
ghost use Rattle.printf_grammar.specs.declared.limits.TheConstants.{MAX_TEXT};
ghost use Rattle.printf_grammar.specs.declared.piece.Piece.{Piece};
ghost use Rattle.printf_grammar.specs.Pieces.{Parsed};
ghost use Rattle.printf_grammar.specs.Types.{Types, Fits, FitsType};
ghost use Rattle.direct_printf.specs.Fields.{Text};
ghost use Rattle.ring_core.specs.Plans.{BeginsWith};
ghost use Rattle.roaming_consumer.specs.Roamers.{roamer_progress, IsLogOfEnds};
ghost use Rattle.log_ends.specs.declared.argument.CArgument.{CArgument};
ghost use Rattle.log_ends.specs.declared.argument.TheConstants.{SIGNED, UNSIGNED, TEXT};
ghost use Rattle.log_ends.specs.declared.consumer.ConsumerEnd.{ConsumerEnd};
ghost use Rattle.log_ends.specs.declared.part_end.PartEnd.{PartEnd};
ghost use Rattle.log_ends.specs.declared.session.SessionEnd.{SessionEnd};
ghost use Rattle.log_ends.specs.declared.setup.Setup.{Setup};
ghost use Rattle.log_ends.specs.declared.writer.WriterEnd.{WriterEnd};
ghost use Rattle.log_ends.specs.Arguments.{argument_given};
ghost use Rattle.log_ends.specs.Consumers.{HasGiven, IsAllGiven, waiting};
ghost use Rattle.log_ends.specs.Consumers.{consumer_ends, next_writer, turns_before, SameRings, EndBeginsPart, FoundNone, ServesNext};
ghost use Rattle.log_ends.specs.PartEnds.{part_frames, is_part_over};
ghost use Rattle.log_ends.specs.Logged.{IsWriterOf};
ghost use Rattle.log_ends.specs.Openings.{IsOpened};
ghost use Rattle.log_ends.specs.Sessions.{writers_left};
ghost use Rattle.log_ends.specs.Writers.{IsSameWriter};
ghost use Rattle.log_ends.specs.Texts.{text_limits, cut_texts};

/// The bytes that were given of a part are the front of a log of exactly the calls whose frames were taken from the rings
/// since it began, and once all is given they are all of it.
pub fn given_bytes_are_of_a_log()
    ensures front { (consumer : ConsumerEnd) (given : List ℕ) → HasGiven consumer given
        → IsLogOfEnds part_frames is_part_over consumer.roamer
        (roamer_progress consumer.roamer) (given ++ waiting consumer) }
    ensures all { (consumer : ConsumerEnd) (given : List ℕ) → HasGiven consumer given → IsAllGiven consumer
        → IsLogOfEnds part_frames is_part_over consumer.roamer
        (roamer_progress consumer.roamer) given }
{}

/// The kinds of arguments have these numbers, and an argument of no kind fits no conversion.
pub fn kinds_of_arguments()
    ensures numbers { (SIGNED ≡ 0) × (UNSIGNED ≡ 1) × (TEXT ≡ 2) }
    ensures none { (argument : CArgument) (kind : ArgType) → argument.tag ≢ SIGNED → argument.tag ≢ UNSIGNED
        → argument.tag ≢ TEXT → FitsType (argument_given argument) kind → ⊥ }
{}

/// A writer of a session has its number with the session's consumer from the opening on: no call of either changes it.
pub fn writers_keep_their_numbers()
    ensures opened { (messages : List Message) (setup : Setup) (session : SessionEnd) (consumer : ConsumerEnd)
        → IsOpened messages setup session consumer
        → (number : ℕ) (writer : WriterEnd) → slice_get (writers_left session) number ≡ Some writer
        → IsWriterOf writer consumer number }
    ensures of_writer { (old new : WriterEnd) (consumer : ConsumerEnd) (number : ℕ) → IsSameWriter old new
        → IsWriterOf old consumer number → IsWriterOf new consumer number }
    ensures of_consumer { (old new : ConsumerEnd) (writer : WriterEnd) (number : ℕ)
        → SameRings (consumer_ends old) (consumer_ends new)
        → IsWriterOf writer old number → IsWriterOf writer new number }
{}

/// What a writer's calls of two parts that follow one another come to: joined, they are the first of those that it has
/// logged behind the parts before, however many it has logged since. The second part begins behind the calls of the first.
pub fn parts_follow_one_another()
    ensures joined { (logged later first second : List (List ℕ)) (earlier : ℕ) → earlier ≤ length logged
        → BeginsWith (drop earlier logged) first
        → BeginsWith later logged
        → BeginsWith (drop (earlier + length first) later) second
        → BeginsWith (drop earlier later) (first ++ second) }
    ensures behind { (before after : PartEnd) → EndBeginsPart before after
        → after.earlier ≡ before.earlier + length (part_frames before) }
{}

/// No writer is passed over while others are served. Of a writer that wasn't found without a frame, the bytes are its
/// own, or its turn has come nearer: so at most as many others are served before it as there are.
pub fn turns_come_nearer()
    ensures nearer { (old new : ConsumerEnd) (serves : ServesNext old new) (writer : ℕ) (before after : PartEnd)
        → slice_get (consumer_ends old) writer ≡ Some before
        → slice_get (consumer_ends new) writer ≡ Some after
        → next_writer old ≤ length (consumer_ends new)
        → ¬ (FoundNone before after)
        → (writer ≡ serves.writer)
        ⊎ (turns_before (length (consumer_ends new)) (next_writer new) writer
        < turns_before (length (consumer_ends new)) (next_writer old) writer) }
    ensures begins { (old new : ConsumerEnd) → ServesNext old new → next_writer new ≤ length (consumer_ends new) }
{}

/// The arguments of a format that are texts have limits, of 4,000 bytes at most, and no others have. What is printed of
/// arguments is printed of them too with each text cut to its limit.
pub fn texts_have_limits()
    ensures texts { (pieces : List Piece) → AllZip (λ limit type. (IsSome limit ↔ (type ≡ TextType))
        × IfSome limit (λ n. n ≤ MAX_TEXT)) (text_limits pieces) (Types pieces) }
    ensures most { MAX_TEXT ≡ 4000 }
    ensures printed { (format : Parsed) (args : List Value) → Fits args (Types format.pieces)
        → Text format (cut_texts (text_limits format.pieces) args) ≡ Text format args }
{}
