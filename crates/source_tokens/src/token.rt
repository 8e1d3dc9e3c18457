//! Tokens with their places.

ghost use Rattle.std.specs.Prelude.{◌≡◌, [], ◌∷◌, ◌++◌, OnOk, OnErr, IfOk};
ghost use Rattle.source_tokens.specs.Tokens.{front_tokens};

use crate::kind::TokenKind;
use std::alloc::{AllocError, Global};
use std::marker::Model;

/// A token, a comment or space of a source, from `start` up to `end`. Splices behind it are part of it.
#[derive(Clone, Copy, Debug, PartialEq, Eq)]
pub struct Token {
    pub kind: TokenKind,
    pub start: usize,
    pub end: usize,
}

/// A list of tokens.
#[derive(Debug, Drop)]
pub struct TokenList {
    items: Vec<Token>,
}

impl Model for TokenList {
    ghost use Rattle.std.specs.Prelude.{List};
    ghost use Rattle.source_tokens.specs.declared.token.Token.{Token as SourceToken};

    ghost Value = { List SourceToken };

    ghost view = { λ tokens. tokens.items.items };
}

impl TokenList {
    /// No tokens. This takes no memory.
    pub fn make(alloc: Global) -> TokenList
        ensures { result ≡ [] }
    {
        TokenList {
            items: Vec::new(alloc),
        }
    }

    /// Appends the token.
    pub fn push(&mut self, token: Token) -> Result<(), AllocError>
        ensures ok { OnOk result (self.new ≡ self.old ++ token ∷ []) }
        ensures err { OnErr result (self.new ≡ self.old) }
    {
        self.items.push(token)?;
        Ok(())
    }

    /// The tokens, in order.
    pub fn as_slice(&self) -> &[Token]
        ensures { result.now ≡ self.now }
    {
        self.items.as_slice()
    }
}

/// Space of so many bytes at the front of a source, or nothing.
pub(crate) fn front_tokens(alloc: Global, front: usize) -> Result<TokenList, AllocError>
    ensures { IfOk result (λ tokens. tokens ≡ front_tokens front) }
{
    let mut tokens = TokenList::make(alloc);
    if front > 0 {
        tokens.push(Token {
            kind: TokenKind::Space,
            start: 0,
            end: front,
        })?;
    }
    Ok(tokens)
}
