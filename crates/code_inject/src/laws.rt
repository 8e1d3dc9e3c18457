//! Laws and worked examples of the definitions. The functions answer nothing: what they ensure is
//! proved of the definitions.

ghost use Rattle.std.specs.Prelude.{◌≡◌, ◌≤◌, ℕ, List, length};
ghost use Rattle.log_dictionary.specs.declared.dictionary.TheConstants.{MAX_MESSAGES};
ghost use Rattle.log_dictionary.specs.declared.message.Message.{Message};
ghost use Rattle.log_dictionary.specs.Messages.{AreDistinct};
ghost use Rattle.source_scan.specs.declared.found.Found.{Found};
ghost use Rattle.source_scan.specs.Statements.{Statements};
ghost use Rattle.preprocessor.specs.declared.refusal.SourceRefusal.{SourceRefusal};
ghost use Rattle.code_inject.specs.Rewrites.{line_feeds};
ghost use Rattle.code_inject.specs.Injected.{Injected, InjectsSource, RefusesSource, HasAnswer};
ghost use Rattle.code_inject.specs.Headers.{header_text};
ghost use Rattle.code_inject.specs.Pieces.{DiffersInHeads};
ghost use Rattle.code_inject.specs.Rows.{injected_source, injected_found, worked_dictionary, worked_text};
ghost use Rattle.code_inject.specs.Rows.{header_dictionary, worked_header};

/// A rewritten source is the source but for the heads of its statements, piece by piece: the arguments behind a format
/// stay, and what stands between statements, as a comment.
pub fn heads_differ()
    ensures { (file source text : List ℕ) (found : List Found) (dictionary : List Message)
        → Statements file source found → Injected source found dictionary text
        → DiffersInHeads source found dictionary text }
{}

/// A rewritten source has as many lines as the source.
pub fn lines_stay()
    ensures { (file source text : List ℕ) (found : List Found) (dictionary : List Message)
        → length dictionary ≤ MAX_MESSAGES → Statements file source found → Injected source found dictionary text
        → length (line_feeds text) ≡ length (line_feeds source) }
{}

/// With a dictionary a source becomes one text or has one list of refusals, and never both.
pub fn one_answer()
    ensures text { (file source : List ℕ) (dictionary : List Message) (text other : List ℕ) (n m : ℕ)
        → AreDistinct dictionary → InjectsSource file source dictionary text n
        → InjectsSource file source dictionary other m → (text ≡ other) × (n ≡ m) }
    ensures refusals { (file source : List ℕ) (dictionary : List Message) (refusals others : List SourceRefusal)
        → AreDistinct dictionary → RefusesSource file source dictionary refusals
        → RefusesSource file source dictionary others → refusals ≡ others }
    ensures apart { (file source : List ℕ) (dictionary : List Message) (text : List ℕ) (n : ℕ)
        (refusals : List SourceRefusal) → AreDistinct dictionary → InjectsSource file source dictionary text n
        → RefusesSource file source dictionary refusals → ⊥ }
{}

/// Each source has such an answer, with any messages: this goes over its parts, and keeps nothing.
pub fn some_answer(source: &[u8])
    ensures { (file : List ℕ) (dictionary : List Message) → HasAnswer file source.now dictionary }
{
    source_scan::laws::some_list(source);
}

/// A source with two statements in one line, and one in two lines with a comment inside.
pub fn worked_source()
    ensures { Injected injected_source injected_found worked_dictionary worked_text }
{}

/// A header with each letter.
pub fn worked_header()
    ensures { header_text header_dictionary ≡ worked_header }
{}
