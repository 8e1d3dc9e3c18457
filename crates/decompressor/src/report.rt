use crate::numbers::Numbers;

/// What a log that is whole and right has.
#[derive(Debug, Drop)]
pub struct Report {
    /// How many lines it has, which is how many records.
    pub lines: u64,
    /// The writers without a close mark, from the least number on.
    pub unclosed: Numbers,
}
