//! Directives, found line by line.

ghost use Rattle.std.specs.Prelude.{◌≡◌, List, ◌∷◌, ◌++◌, [], false, OnOk, IfOk};
ghost use Rattle.source_tokens.specs.declared.token.Token.{Token as SourceToken};
ghost use Rattle.source_tokens.specs.Tokens.{front_tokens};
ghost use Rattle.source_tokens.specs.Directives.{is_blank, is_hash, ends_line, InLines, InLinesTo};

use crate::kind::TokenKind;
use crate::token::{Token, TokenList, front_tokens};
use std::alloc::{AllocError, Global};

/// Where in a line the next token stands.
#[derive(Clone, Copy, Debug)]
pub(crate) enum LinePlace {
    /// Behind nothing but space and comments.
    Front,
    /// Behind another token.
    Behind,
    /// In this directive, which goes on.
    Inside(Token),
}

fn is_blank(kind: TokenKind) -> bool
    ensures { result ≡ is_blank kind }
{
    matches!(
        kind,
        TokenKind::Space | TokenKind::LineComment | TokenKind::BlockComment
    )
}

fn is_hash(kind: TokenKind) -> bool
    ensures { result ≡ is_hash kind }
{
    kind == TokenKind::Punctuator(b'#')
}

fn ends_line(kind: TokenKind) -> bool
    ensures { result ≡ ends_line kind }
{
    matches!(kind, TokenKind::NewLine)
}

/// The parts of the tokens so far.
#[derive(Debug, Drop)]
pub(crate) struct LineParts {
    pub(crate) parts: TokenList,
    pub(crate) place: LinePlace,
}

impl LineParts {
    /// Space of so many bytes at the front of a source, or nothing.
    pub(crate) fn make(alloc: Global, front: usize) -> Result<LineParts, AllocError>
        ensures { IfOk result (λ lines. InLinesTo (front_tokens front) lines.parts lines.place) }
    {
        let parts = front_tokens(alloc, front)?;
        let place = LinePlace::Front;
        Ok(LineParts { parts, place })
    }

    /// Takes a token that doesn't end its line.
    fn push_within(&mut self, token: Token) -> Result<(), AllocError>
        requires { ends_line token.kind ≡ false }
        ensures { OnOk result ((tokens : List SourceToken) → InLinesTo tokens self.old.parts self.old.place
            → InLinesTo (tokens ++ token ∷ []) self.new.parts self.new.place) }
    {
        match self.place {
            LinePlace::Front if is_blank(token.kind) => self.parts.push(token),
            LinePlace::Front if is_hash(token.kind) => {
                let kind = TokenKind::Directive;
                self.place = LinePlace::Inside(Token { kind, ..token });
                Ok(())
            }
            LinePlace::Front => {
                self.place = LinePlace::Behind;
                self.parts.push(token)
            }
            LinePlace::Behind => self.parts.push(token),
            LinePlace::Inside(directive) => {
                let end = token.end;
                self.place = LinePlace::Inside(Token { end, ..directive });
                Ok(())
            }
        }
    }

    /// Takes the end of a line, or of the source.
    fn end_line(&mut self) -> Result<(), AllocError>
        ensures parts { OnOk result ((tokens : List SourceToken)
            → InLinesTo tokens self.old.parts self.old.place → InLines tokens self.new.parts) }
        ensures place { OnOk result (self.new.place ≡ LinePlace.Front) }
    {
        if let LinePlace::Inside(directive) = self.place {
            self.parts.push(directive)?;
        }
        self.place = LinePlace::Front;
        Ok(())
    }

    /// Takes the next token.
    pub(crate) fn push(&mut self, token: Token) -> Result<(), AllocError>
        ensures { OnOk result ((tokens : List SourceToken) → InLinesTo tokens self.old.parts self.old.place
            → InLinesTo (tokens ++ token ∷ []) self.new.parts self.new.place) }
    {
        if !ends_line(token.kind) {
            return self.push_within(token);
        }
        self.end_line()?;
        self.parts.push(token)?;
        Ok(())
    }

    /// The parts of all tokens.
    pub(crate) fn finish(mut self) -> Result<TokenList, AllocError>
        ensures { IfOk result (λ parts. (tokens : List SourceToken) → InLinesTo tokens self.parts self.place
            → InLines tokens parts) }
    {
        self.end_line()?;
        let LineParts { parts, place: _ } = self;
        Ok(parts)
    }
}
