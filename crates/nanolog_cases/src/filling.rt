//! What the words of a step stand for.

use anyhow::{Context, Result};
use std::alloc::Global;

/// What stands on the two sides of the first ` =>`.
pub(crate) fn sides_of(text: &str) -> Option<(&str, &str)> {
    let (left, right) = text.split_once(" =>")?;
    Some((left, right.strip_prefix(' ').unwrap_or(right)))
}

/// The count, the piece and the rest of `3*ab}rest`.
fn repetition_of(text: &str) -> Option<(usize, &str, &str)> {
    let (inner, rest) = text.split_once('}')?;
    let (count, piece) = inner.split_once('*')?;
    let count = count.parse::<usize>().ok()?;
    Some((count, piece, rest))
}

/// The text with each piece `{3*ab}` written out.
fn written_out(alloc: Global, text: &str) -> Result<String> {
    let mut parts = text.split('{');
    let mut whole = String::from_str(alloc, parts.next().unwrap_or(""))?;
    for part in parts {
        let Some((count, piece, rest)) = repetition_of(part) else {
            whole.push('{')?;
            whole.push_str(part)?;
            continue;
        };
        whole.push_str(piece.repeat(alloc, count)?.as_str())?;
        whole.push_str(rest)?;
    }
    Ok(whole)
}

/// What the text stands for in a case that is played for this value, if it has values.
pub(crate) fn filled(alloc: Global, text: &str, value: Option<&str>) -> Result<String> {
    let mut whole = String::from_str(alloc, text)?;
    if let Some(value) = value {
        let (left, right) = sides_of(value).unwrap_or((value, ""));
        whole = whole.as_str().replace(alloc, "@left", left)?;
        whole = whole.as_str().replace(alloc, "@right", right)?;
        whole = whole.as_str().replace(alloc, "@", value)?;
    }
    let whole = written_out(alloc, whole.as_str())?;
    Ok(whole.as_str().replace(alloc, "¶", "\n")?)
}

/// The bytes that the words spell in hexadecimal digits.
pub(crate) fn bytes_of(alloc: Global, text: &str) -> Result<Vec<u8>> {
    let mut bytes = Vec::new(alloc);
    for word in text.split_ascii_whitespace() {
        bytes.push(u8::from_str_radix(word, 16)?)?;
    }
    Ok(bytes)
}

/// The numbers that stand there.
pub(crate) fn numbers_of(alloc: Global, text: &str) -> Result<Vec<u64>> {
    let mut numbers = Vec::new(alloc);
    for word in text.split_ascii_whitespace() {
        numbers.push(word.parse::<u64>()?)?;
    }
    Ok(numbers)
}

/// The first word, and what stands behind it and a space.
pub(crate) fn two_of(text: &str) -> Result<(&str, &str)> {
    text.split_once(' ').context("a word is missing")
}

/// The words of a command line, between which one space stands.
pub(crate) fn words_of(alloc: Global, text: &str) -> Result<Vec<String>> {
    let mut words = Vec::new(alloc);
    if text.is_empty() {
        return Ok(words);
    }
    for word in text.split(' ') {
        let word = if word == "''" { "" } else { word };
        words.push(String::from_str(alloc, word)?)?;
    }
    Ok(words)
}
