//! What the statements of a program say.

ghost use Rattle.std.specs.Prelude.{◌≤◌, length};
ghost use Rattle.log_dictionary.specs.declared.message.TheConstants.{MAX_FILE_NAME};

use crate::severity::Severity;
use printf_grammar::{Bytes, Format};

/// The most bytes of a file's name.
pub const MAX_FILE_NAME: usize = 255;

/// What is known of a statement before it runs: the file and the line where it stands, its
/// severity, and the format of its text. Two are equal where all four are; formats are, where
/// their bytes are.
#[derive(Debug, Drop)]
pub struct Message {
    pub file: Bytes,
    pub line: u32,
    pub severity: Severity,
    pub format: Format,
    pub ghost file_length: { (1 ≤ length file) × (length file ≤ MAX_FILE_NAME) },
}

impl PartialEq for Message {
    ghost use Rattle.std.proofs.Common.{rules};
    ghost use Rattle.std.specs.Cmp.Rules.{comparing};
    ghost use Rattle.log_dictionary.specs.Messages.{is_same};

    ghost eq = { is_same };

    ghost laws = { Prim.search (comparing, rules) };

    fn eq(&self, other: &Message) -> bool {
        self.line == other.line
            && self.severity.number() == other.severity.number()
            && self.file.as_slice() == other.file.as_slice()
            && self.format.bytes() == other.format.bytes()
    }
}

impl Eq for Message {
    ghost use Rattle.std.proofs.Common.{rules};
    ghost use Rattle.std.specs.Cmp.Rules.{comparing};

    ghost laws = { Prim.search (comparing, rules) };
}
