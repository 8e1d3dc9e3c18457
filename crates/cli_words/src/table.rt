//! The table of the command line: each command with its operands, and the options of a session.

ghost use Rattle.std.specs.Prelude.{◌≡◌, map, option_map};
ghost use Rattle.cli_words.specs.Table.{rows, row_named, row_options, option_rows};
ghost use Rattle.cli_words.specs.TableViews.{row_is, option_is};

use crate::numbers::MAX_ID;
use session_options::{MAX_GENERATED, MAX_GENERATED_WRITERS};

/// The command that a row is of.
#[derive(Clone, Copy, Debug, PartialEq, Eq)]
pub(crate) enum CommandForm {
    Preprocess,
    Replay,
    Decompress,
    Aggregate,
    Direct,
    Generate,
    Selftest,
    Schedule,
    Migrate,
    Inject,
    Header,
}

/// Which words an operand takes.
#[derive(Clone, Copy, Debug, PartialEq, Eq)]
pub(crate) enum OperandKind {
    /// The name of a file. It isn't empty.
    File,
    /// The name of a file, which is another word than the name of each file before it.
    OtherFile,
    /// The names of 1 to 1,024 sources, as the last operand. None of them is the name of a file before them.
    Sources,
    /// A number from `least` to `most`.
    Number { least: u32, most: u32 },
    /// A number of 64 bits.
    Seed,
}

/// What stands at a place behind the command.
#[derive(Clone, Copy, Debug, PartialEq, Eq)]
pub(crate) struct Operand {
    /// How the usage text calls it.
    pub(crate) shown: &'static str,
    pub(crate) kind: OperandKind,
}

/// An option, with a value.
#[derive(Clone, Copy, Debug, PartialEq, Eq)]
pub(crate) struct SessionOption {
    pub(crate) name: &'static str,
    /// How the usage text calls the value.
    pub(crate) shown: &'static str,
}

/// A command.
#[derive(Clone, Copy, Debug, PartialEq, Eq)]
pub(crate) struct CommandRow {
    pub(crate) form: CommandForm,
    pub(crate) word: &'static str,
    pub(crate) operands: &'static [Operand],
    /// Whether the command takes the options of a session.
    pub(crate) has_options: bool,
}

const DICT: Operand = Operand {
    shown: "DICT",
    kind: OperandKind::File,
};

const SOURCES: Operand = Operand {
    shown: "FILE..",
    kind: OperandKind::Sources,
};

const TRACE: Operand = Operand {
    shown: "TRACE",
    kind: OperandKind::File,
};

const LOG: Operand = Operand {
    shown: "LOG",
    kind: OperandKind::File,
};

const NEW_LOG: Operand = Operand {
    shown: "LOG",
    kind: OperandKind::OtherFile,
};

const ID: Operand = Operand {
    shown: "ID",
    kind: OperandKind::Number {
        least: 0,
        most: MAX_ID,
    },
};

const NTH: Operand = Operand {
    shown: "NTH",
    kind: OperandKind::Number {
        least: 0,
        most: MAX_ID,
    },
};

const SEED: Operand = Operand {
    shown: "SEED",
    kind: OperandKind::Seed,
};

const CALLS: Operand = Operand {
    shown: "CALLS",
    kind: OperandKind::Number {
        least: 0,
        most: MAX_GENERATED,
    },
};

const WRITERS: Operand = Operand {
    shown: "WRITERS",
    kind: OperandKind::Number {
        least: 1,
        most: MAX_GENERATED_WRITERS,
    },
};

const FILE: Operand = Operand {
    shown: "FILE",
    kind: OperandKind::File,
};

const OLD: Operand = Operand {
    shown: "OLD",
    kind: OperandKind::File,
};

const NEW: Operand = Operand {
    shown: "NEW",
    kind: OperandKind::OtherFile,
};

const OUT: Operand = Operand {
    shown: "OUT",
    kind: OperandKind::OtherFile,
};

pub(crate) const RING: &str = "ring";

pub(crate) const BATCH: &str = "batch";

pub(crate) const FULL: &str = "full";

pub(crate) const LEVEL: &str = "level";

/// The options of a session.
pub(crate) const SESSION_OPTIONS: &[SessionOption] = &[
    SessionOption {
        name: RING,
        shown: "N",
    },
    SessionOption {
        name: BATCH,
        shown: "B",
    },
    SessionOption {
        name: FULL,
        shown: "wait|drop",
    },
    SessionOption {
        name: LEVEL,
        shown: "S",
    },
];

/// The commands, in the order of the usage text.
pub(crate) const ROWS: &[CommandRow] = &[
    CommandRow {
        form: CommandForm::Preprocess,
        word: "preprocess",
        operands: &[DICT, SOURCES],
        has_options: false,
    },
    CommandRow {
        form: CommandForm::Replay,
        word: "replay",
        operands: &[TRACE, NEW_LOG],
        has_options: true,
    },
    CommandRow {
        form: CommandForm::Decompress,
        word: "decompress",
        operands: &[LOG],
        has_options: false,
    },
    CommandRow {
        form: CommandForm::Aggregate,
        word: "aggregate",
        operands: &[LOG, ID, NTH],
        has_options: false,
    },
    CommandRow {
        form: CommandForm::Direct,
        word: "direct",
        operands: &[TRACE],
        has_options: false,
    },
    CommandRow {
        form: CommandForm::Generate,
        word: "generate",
        operands: &[SEED, CALLS, WRITERS],
        has_options: false,
    },
    CommandRow {
        form: CommandForm::Selftest,
        word: "selftest",
        operands: &[SEED, CALLS, WRITERS],
        has_options: false,
    },
    CommandRow {
        form: CommandForm::Schedule,
        word: "schedule",
        operands: &[FILE],
        has_options: false,
    },
    CommandRow {
        form: CommandForm::Migrate,
        word: "migrate",
        operands: &[OLD, NEW],
        has_options: false,
    },
    CommandRow {
        form: CommandForm::Inject,
        word: "inject",
        operands: &[DICT, FILE, OUT],
        has_options: false,
    },
    CommandRow {
        form: CommandForm::Header,
        word: "header",
        operands: &[DICT, OUT],
        has_options: false,
    },
];

/// The row of the command with this word.
pub(crate) fn row_named(word: &str) -> Option<&'static CommandRow>
    ensures { option_map (λ row. row_is row.now) result ≡ row_named word.now }
{
    all_rows().iter().find(|row| row.word == word)
}

/// All rows.
pub(crate) fn all_rows() -> &'static [CommandRow]
    ensures { map row_is result.now ≡ rows }
{
    ROWS
}

/// The options of a session.
pub(crate) fn all_options() -> &'static [SessionOption]
    ensures { map option_is result.now ≡ option_rows }
{
    SESSION_OPTIONS
}

/// The options that a command takes.
pub(crate) fn row_options(row: &CommandRow) -> &'static [SessionOption]
    ensures { map option_is result.now ≡ row_options (row_is row.now) }
{
    if row.has_options { all_options() } else { &[] }
}
