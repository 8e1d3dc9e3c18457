//! Laws of the definitions. The functions answer nothing: what they ensure is proved of the definitions.

ghost use Rattle.std.specs.Prelude.{◌≡◌, ℕ, List, [], ◌∷◌, ◌++◌, map, codes};
ghost use Rattle.std.specs.List.{Contains};
ghost use Rattle.printf_grammar.specs.declared.fault.FormatCause.{FormatCause};
ghost use Rattle.printf_grammar.specs.declared.fault.FormatCause.TheVariants.{Float};
ghost use Rattle.source_scan.specs.declared.found.StatementCause.TheVariants as causes;
ghost use Rattle.log_dictionary.specs.declared.message.Message.{Message};
ghost use Rattle.log_dictionary.specs.Messages.{HasMessage, AreDistinct};
ghost use Rattle.preprocessor.specs.declared.numbering.Numbering.{Numbering};
ghost use Rattle.preprocessor.specs.declared.refusal.RefusalCause.TheVariants.{Statement, TooLarge, TooMany, NotInDictionary};
ghost use Rattle.preprocessor.specs.declared.refusal.SourceRefusal.{SourceRefusal};
ghost use Rattle.preprocessor.specs.Causes.{cause_words, refusal_line};
ghost use Rattle.preprocessor.specs.Rows.{refused_in};
ghost use Rattle.preprocessor.specs.Findings.{SourceFile, Finding, AllHave, sources_of, large_refusal};
ghost use Rattle.preprocessor.specs.Numbering.{stated_messages, StandFirst, Numbered, Refusals, NumbersSources};

/// What a numbering refuses is what is refused of the sources that it stands for. Where that is
/// nothing, its messages and its number of statements are those of the sources.
pub fn numberings_tell_of_sources()
    ensures refusals { (files : List SourceFile) (numbering : Numbering) → NumbersSources files numbering
        → Refusals files numbering.refusals.items }
    ensures messages { (files : List SourceFile) (numbering : Numbering) → NumbersSources files numbering
        → numbering.refusals.items ≡ [] → Numbered files numbering.dictionary numbering.statements }
{}

/// Sources have at most one list of messages, one number of statements and one list of refusals.
pub fn sources_have_one_numbering()
    ensures messages { (files : List SourceFile) (messages others : List Message) (n m : ℕ)
        → Numbered files messages n → Numbered files others m → (messages ≡ others) × (n ≡ m) }
    ensures refusals { (files : List SourceFile) (refusals others : List SourceRefusal)
        → Refusals files refusals → Refusals files others → refusals ≡ others }
{}

/// Sources have such lists and such a number, whatever their files are called and whatever stands
/// in them: this goes over each source, and keeps nothing.
pub fn sources_have_some_numbering(sources: &[&[u8]])
    ensures messages { (files : List SourceFile) → sources_of files ≡ map (λ source. source.now) sources.now
        → (messages : List Message) × (n : ℕ) × Numbered files messages n }
    ensures refusals { (files : List SourceFile) → sources_of files ≡ map (λ source. source.now) sources.now
        → (refusals : List SourceRefusal) × Refusals files refusals }
{
    for source in sources {
        source_scan::laws::some_list(source);
    }
}

/// The message of each statement of the sources is among their messages, no two of which are equal:
/// it has one number.
pub fn each_message_has_one_number()
    ensures has { (files : List SourceFile) (messages : List Message) (n : ℕ) (findings : List Finding)
        (message : Message) → Numbered files messages n → AllHave files findings
        → Contains (stated_messages findings) message → HasMessage messages message }
    ensures distinct { (files : List SourceFile) (messages : List Message) (n : ℕ)
        → Numbered files messages n → AreDistinct messages }
{}

/// The messages of sources are messages of their statements, in the order of the places where they stand
/// first. So with the law before they are all of those messages, each once.
pub fn messages_stand_first()
    ensures { (files : List SourceFile) (messages : List Message) (n : ℕ) (findings : List Finding)
        → Numbered files messages n → AllHave files findings → StandFirst (stated_messages findings) 0 messages }
{}

/// All causes, each with its number and its name. Of a bad format they are the same, whatever is wrong with it.
pub fn causes_have_numbers_and_names()
    ensures severity { cause_words (Statement causes.Severity) ≡ codes "1 Severity" }
    ensures literal { cause_words (Statement causes.FormatNotLiteral) ≡ codes "2 FormatNotLiteral" }
    ensures format { (why : FormatCause) (place : ℕ) → cause_words (Statement (causes.Format why place))
        ≡ codes "3 Format" }
    ensures few { cause_words (Statement causes.TooFew) ≡ codes "4 TooFew" }
    ensures unclosed { cause_words (Statement causes.Unclosed) ≡ codes "5 Unclosed" }
    ensures file { cause_words (Statement causes.FileName) ≡ codes "6 FileName" }
    ensures large { cause_words TooLarge ≡ codes "7 TooLarge" }
    ensures many { cause_words TooMany ≡ codes "8 TooMany" }
    ensures unknown { cause_words NotInDictionary ≡ codes "9 NotInDictionary" }
{}

/// The words on what is refused.
pub fn worked_refusals()
    ensures format { refusal_line (refused_in 7 (causes.Format Float 2))
        ≡ codes "nanolog: h.h:7: refused: 3 Format Float at 2" ++ 10 ∷ [] }
    ensures unclosed { refusal_line (refused_in 10 causes.Unclosed)
        ≡ codes "nanolog: h.h:10: refused: 5 Unclosed" ++ 10 ∷ [] }
    ensures too_large { refusal_line (large_refusal (codes "big.cc"))
        ≡ codes "nanolog: big.cc:0: refused: 7 TooLarge" ++ 10 ∷ [] }
{}
