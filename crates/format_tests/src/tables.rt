//! Tables as texts, and what their columns spell.

use printf_grammar::{Bytes, Value, Values};
use std::alloc::{AllocError, Global};
use std::process::Abort;
use std::test::Fail;

/// What is told of a row, of all its columns but the last.
pub(crate) trait Told {
    fn told(alloc: Global, row: &str) -> Result<String, Fail>;
}

/// Asserts that the last column of a row is what is told of the others.
fn check_row<T: Told, R: Abort + AllocGlobal>(rt: &R, row: &str) -> Result<(), Fail> {
    let (given, want) = row.rsplit_once('|').ok_or("a row of one column")?;
    let found = T::told(rt.alloc(), given)?;
    let want = text_of(rt.alloc(), want)?;
    assert_eq!(rt; found.as_str(), want.as_str(), "{row}");
    Ok(())
}

/// Asserts so of each row. Rows stand in lines, and between `;;`.
pub(crate) fn check_rows<T: Told, R: Abort + AllocGlobal>(rt: &R, rows: &str) -> Result<(), Fail> {
    for line in rows.lines() {
        for row in line.split(";;") {
            check_row::<T, R>(rt, row)?;
        }
    }
    Ok(())
}

/// The first column of a row, and the others.
pub(crate) fn cut(row: &str) -> Result<(&str, &str), Fail> {
    Ok(row.split_once('|').ok_or("a row of fewer columns")?)
}

/// How often a word stands there, and the word: `64*ff` is 64 times `ff`.
pub(crate) fn times(word: &str) -> (usize, &str) {
    match word.split_once('*') {
        Some((count, unit)) => match count.parse::<usize>() {
            Ok(count) => (count, unit),
            Err(_) => (1, word),
        },
        None => (1, word),
    }
}

/// The text of a word, as often as it stands there. A line feed stands for each `␊`.
pub(crate) fn text_of(alloc: Global, word: &str) -> Result<String, AllocError> {
    let (count, unit) = times(word);
    let text = unit.replace(alloc, "␊", "\n")?;
    text.as_str().repeat(alloc, count)
}

/// The texts of words, which `§` parts.
pub(crate) fn joined(alloc: Global, words: &str) -> Result<String, AllocError> {
    let mut text = String::new(alloc);
    for word in words.split('§') {
        text.push_str(text_of(alloc, word)?.as_str())?;
    }
    Ok(text)
}

/// The bytes that words spell in hexadecimal.
pub(crate) fn bytes_of(alloc: Global, words: &str) -> Result<Vec<u8>, Fail> {
    let mut bytes = Vec::new(alloc);
    for word in words.split_ascii_whitespace() {
        let (count, word) = times(word);
        let byte = u8::from_str_radix(word, 16)?;
        let len = bytes.len().saturating_add(count);
        bytes.resize(len, byte)?;
    }
    Ok(bytes)
}

/// The text that a word spells, as an argument.
fn text_value_of(alloc: Global, word: &str) -> Result<Value, Fail> {
    let text = text_of(alloc, word)?;
    Ok(Value::Text(Bytes::from_slice(alloc, text.as_bytes())?))
}

/// The argument that a word spells: a signed number behind `i`, an unsigned one behind `u`, a text behind `t`.
fn value_of(alloc: Global, word: &str) -> Result<Value, Fail> {
    let (kind, rest) = word.split_at_checked(1).ok_or("an empty word")?;
    match kind {
        "i" => Ok(Value::Signed(rest.parse()?)),
        "u" => Ok(Value::Unsigned(rest.parse()?)),
        _ => text_value_of(alloc, rest),
    }
}

/// Puts the argument that a word spells behind the others, as often as it stands there.
fn push_values(alloc: Global, values: &mut Values, word: &str) -> Result<(), Fail> {
    let (count, word) = times(word);
    for _ in 0..count {
        if values.len() >= 64 {
            return Err("more than 64 arguments".into());
        }
        values.push(value_of(alloc, word)?)?;
    }
    Ok(())
}

/// The arguments that words spell, with a comma between each two.
pub(crate) fn values_of(alloc: Global, words: &str) -> Result<Values, Fail> {
    let mut values = Values::make(alloc);
    for word in words.split_terminator(',') {
        push_values(alloc, &mut values, word)?;
    }
    Ok(values)
}
