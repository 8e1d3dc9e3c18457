//! The severity of a statement.

ghost use Rattle.std.specs.Prelude.{◌≡◌, ◌≢◌, IfSome, IfNone};
ghost use Rattle.log_dictionary.specs.Severities.{severity_name};
ghost use Rattle.source_scan.specs.Texts.{unspliced};
ghost use Rattle.source_scan.specs.Severities.{is_scope, without_scope, last_name, NamesSeverity};

use crate::arguments::is_mark;
use crate::text::{bytes_of, is_identifier, is_text, touches};
use log_dictionary::Severity;
use source_tokens::Token;

/// The severity whose name the bytes spell without splices.
fn severity_of(bytes: &[u8]) -> Option<Severity>
    ensures some { IfSome result (λ severity. unspliced bytes.now ≡ severity_name severity) }
    ensures none { IfNone result ((severity : Severity) → unspliced bytes.now ≢ severity_name severity) }
{
    if is_text(bytes, b"ERROR") {
        return Some(Severity::Error);
    }
    if is_text(bytes, b"WARNING") {
        return Some(Severity::Warning);
    }
    if is_text(bytes, b"NOTICE") {
        return Some(Severity::Notice);
    }
    if is_text(bytes, b"DEBUG") {
        return Some(Severity::Debug);
    }
    None
}

/// Whether the tokens are `::`.
fn is_scope(first: &Token, second: &Token) -> bool
    ensures { result ≡ is_scope first.now second.now }
{
    is_mark(b':', first) && is_mark(b':', second) && touches(first, second)
}

/// The tokens without `::` at the front.
fn without_scope(tokens: &[Token]) -> &[Token]
    ensures { result.now ≡ without_scope tokens.now }
{
    match tokens {
        [first, second, behind @ ..] if is_scope(first, second) => behind,
        _ => tokens,
    }
}

/// The last of identifiers that are joined by `::`.
#[tactic(auto, unfolding(crate::specs::Severities::last_name))]
fn last_name(tokens: &[Token]) -> Option<Token>
    ensures { result ≡ last_name tokens.now }
{
    let mut rest = tokens;
    while let [name, first, second, behind @ ..] = rest {
        if !is_identifier(name.kind) || !is_scope(first, second) {
            return None;
        }
        rest = behind;
    }
    match rest {
        [name] if is_identifier(name.kind) => Some(*name),
        _ => None,
    }
}

/// The severity that an argument of a statement names.
pub fn named_severity(source: &[u8], tokens: &[Token]) -> Option<Severity>
    ensures some { IfSome result (NamesSeverity source.now tokens.now) }
    ensures none { IfNone result ((severity : Severity) → ¬ (NamesSeverity source.now tokens.now severity)) }
{
    let name = last_name(without_scope(tokens))?;
    severity_of(bytes_of(source, &name))
}
