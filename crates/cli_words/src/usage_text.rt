//! The usage text.

ghost use Rattle.std.specs.Prelude.{◌++◌, ◌≡◌, IfOk, OnOk, flat_map};
ghost use Rattle.cli_words.specs.TableViews.{operand_is, option_is, row_is};
ghost use Rattle.cli_words.specs.Usage.{usage_text, usage_line, shown_operand, shown_option};

use crate::table::{CommandRow, Operand, SessionOption, all_rows, row_options};
use std::alloc::{AllocError, Global};

/// Appends an operand, behind a space.
fn push_operand(text: &mut Vec<u8>, operand: &Operand) -> Result<(), AllocError>
    ensures { OnOk result (text.new.items ≡ text.old.items ++ shown_operand (operand_is operand.now)) }
{
    text.push(b' ')?;
    text.extend_from_slice(operand.shown.as_bytes())
}

/// Appends an option that may be left out, behind a space.
fn push_option(text: &mut Vec<u8>, option: &SessionOption) -> Result<(), AllocError>
    ensures { OnOk result (text.new.items ≡ text.old.items ++ shown_option (option_is option.now)) }
{
    text.extend_from_slice(b" [--")?;
    text.extend_from_slice(option.name.as_bytes())?;
    text.push(b' ')?;
    text.extend_from_slice(option.shown.as_bytes())?;
    text.push(b']')?;
    Ok(())
}

/// Appends the operands of a command.
fn push_operands(text: &mut Vec<u8>, operands: &[Operand]) -> Result<(), AllocError>
    ensures { OnOk result (text.new.items ≡ text.old.items ++ flat_map (λ operand. shown_operand (operand_is operand)) operands.now) }
{
    for operand in operands {
        push_operand(text, operand)?;
    }
    Ok(())
}

/// Appends the options of a command.
fn push_options(text: &mut Vec<u8>, options: &[SessionOption]) -> Result<(), AllocError>
    ensures { OnOk result (text.new.items ≡ text.old.items ++ flat_map (λ option. shown_option (option_is option)) options.now) }
{
    for option in options {
        push_option(text, option)?;
    }
    Ok(())
}

/// Appends the line of a command.
fn push_line(text: &mut Vec<u8>, row: &CommandRow) -> Result<(), AllocError>
    ensures { OnOk result (text.new.items ≡ text.old.items ++ usage_line (row_is row.now)) }
{
    text.extend_from_slice(b"  nanolog ")?;
    text.extend_from_slice(row.word.as_bytes())?;
    push_operands(text, row.operands)?;
    push_options(text, row_options(row))?;
    text.push(b'\n')?;
    Ok(())
}

/// The forms of the command line, which are told where a line is faulty.
pub fn usage(alloc: Global) -> Result<Vec<u8>, AllocError>
    ensures { IfOk result (λ text. text.items ≡ usage_text) }
{
    let mut text = Vec::from_slice(alloc, b"usage:\n")?;
    for row in all_rows() {
        push_line(&mut text, row)?;
    }
    Ok(text)
}
