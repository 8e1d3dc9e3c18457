//! Texts and bytes as a reader sees them.

use anyhow::Result;
use std::alloc::Global;
use std::fmt::Write;

/// The greatest number of equal characters that are written out.
const MANY: usize = 32;

/// A character of a line.
fn character_of(alloc: Global, byte: u8) -> Result<String> {
    Ok(match byte {
        b' '..=b'~' => format!(in alloc; "{}", byte as char)?,
        _ => format!(in alloc; "{{{byte:02x}}}")?,
    })
}

/// The characters of a line.
fn line_of(alloc: Global, bytes: &[u8]) -> Result<String> {
    let mut line = String::new(alloc);
    for run in bytes.chunk_by(|left, right| left == right) {
        let character = character_of(alloc, run.first().copied().unwrap_or(0))?;
        if run.len() > MANY {
            write!(line, "{{{}*{character}}}", run.len())?;
        } else {
            line.push_str(&character.repeat(alloc, run.len())?)?;
        }
    }
    Ok(line)
}

/// Shows the lines of a text, each behind the mark.
pub(crate) fn push_lines(alloc: Global, shown: &mut String, mark: &str, text: &[u8]) -> Result<()> {
    let mut lines: Vec<&[u8]> = text.split(|byte| *byte == b'\n').collect(alloc)?;
    let last = lines.pop().unwrap_or(&[]);
    for run in lines.chunk_by(|left, right| left == right) {
        let line = line_of(alloc, run.first().copied().unwrap_or(&[]))?;
        match run.len() {
            1 => writeln!(shown, "{mark}{line}")?,
            count => writeln!(shown, "{mark}{{{count}*{line}}}")?,
        }
    }
    if !last.is_empty() {
        writeln!(shown, "{mark}{}\\", line_of(alloc, last)?)?;
    }
    Ok(())
}

/// Shows bytes in hexadecimal digits, 16 in a line.
pub(crate) fn push_bytes(shown: &mut String, bytes: &[u8]) -> Result<()> {
    for (place, byte) in bytes.iter().enumerate() {
        let space = match place % 16 {
            0 if place > 0 => "\n  ",
            0 => "  ",
            _ => " ",
        };
        write!(shown, "{space}{byte:02x}")?;
    }
    shown.push('\n')?;
    Ok(())
}
