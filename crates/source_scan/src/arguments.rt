//! The parentheses of a statement, and its arguments.

ghost use Rattle.std.specs.Prelude.{◌≡◌, ◌+◌, ◌<◌, ◌^◌, [], ◌∷◌, length, drop};
ghost use Rattle.std.specs.Prelude.{IfSome, MatchOption};
ghost use Rattle.source_scan.specs.Arguments.{is_mark, is_bare, depth_behind};
ghost use Rattle.source_scan.specs.Arguments.{closing_from, parted_from, head_length, first_argument};

use source_tokens::{Token, TokenKind};

/// Whether the token is this byte alone.
pub fn is_mark(byte: u8, token: &Token) -> bool
    ensures { result ≡ is_mark byte token.now }
{
    match token.kind {
        TokenKind::Punctuator(other) => other == byte,
        _ => false,
    }
}

/// Whether the token is this byte alone, and no parentheses are open.
fn is_bare(byte: u8, depth: usize, token: &Token) -> bool
    ensures { result ≡ is_bare byte depth token.now }
{
    is_mark(byte, token) && depth == 0
}

/// How many parentheses are open behind the token, where so many are before it.
fn depth_behind(depth: usize, token: &Token) -> usize
    requires { depth + 1 < 2 ^ 64 }
    ensures { result ≡ depth_behind depth token.now }
{
    if is_mark(b'(', token) {
        depth + 1
    } else if is_mark(b')', token) {
        depth.saturating_sub(1)
    } else {
        depth
    }
}

/// The place of the parenthesis that closes what was opened before the tokens.
pub fn closing_place(tokens: &[Token]) -> Option<usize>
    ensures place { result ≡ closing_from 0 tokens.now }
    ensures within { IfSome result (λ place. place < length tokens.now) }
{
    let mut depth = 0;
    for (place, token) in tokens.iter().enumerate() {
        if is_bare(b')', depth, token) {
            return Some(place);
        }
        depth = depth_behind(depth, token);
    }
    None
}

/// The first argument, and the tokens of the others behind its comma, if there are others.
pub fn split_argument(tokens: &[Token]) -> (&[Token], Option<&[Token]>)
    ensures { MatchOption result.1
        (parted_from 0 tokens.now ≡ result.0.now ∷ [])
        (λ rest. parted_from 0 tokens.now ≡ result.0.now ∷ parted_from 0 rest.now) }
{
    let mut depth = 0;
    for (place, token) in tokens.iter().enumerate() {
        if is_bare(b',', depth, token) {
            return (tokens.split_at(place).0, Some(tokens.split_at(place + 1).1));
        }
        depth = depth_behind(depth, token);
    }
    (tokens, None)
}

/// How many arguments the tokens are.
pub fn count_arguments(tokens: &[Token]) -> usize
    ensures { result ≡ length (parted_from 0 tokens.now) }
{
    let mut depth = 0;
    let mut count = 1;
    for token in tokens {
        if is_bare(b',', depth, token) {
            count += 1;
            continue;
        }
        depth = depth_behind(depth, token);
    }
    count
}

/// The tokens of the first two arguments, and how many others follow. Where there is no second one, it has no tokens.
#[derive(Clone, Copy, Debug)]
pub struct Arguments<'a> {
    pub first: &'a [Token],
    pub second: &'a [Token],
    pub others: usize,
    /// How many tokens stand in front of the others and their comma.
    pub head: usize,
}

/// The arguments that the tokens are.
pub fn arguments_of(tokens: &[Token]) -> Arguments<'_>
    ensures first { result.first.now ≡ first_argument (parted_from 0 tokens.now) }
    ensures second { result.second.now ≡ first_argument (drop 1 (parted_from 0 tokens.now)) }
    ensures others { result.others ≡ length (drop 2 (parted_from 0 tokens.now)) }
    ensures head { result.head ≡ head_length (parted_from 0 tokens.now) }
{
    let (first, behind) = split_argument(tokens);
    let Some(behind) = behind else {
        return Arguments {
            first,
            second: tokens.split_at(0).0,
            others: 0,
            head: first.len(),
        };
    };
    let (second, behind) = split_argument(behind);
    let head = first.len() + 1 + second.len();
    let others = match behind {
        Some(behind) => count_arguments(behind),
        None => 0,
    };
    Arguments {
        first,
        second,
        others,
        head,
    }
}
