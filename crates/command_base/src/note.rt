//! What is said of a command that was done.

/// What is said beside the text of a command.
#[derive(Debug, Drop)]
pub enum Note<'a> {
    Nothing,
    /// Writers of the log have no close mark.
    StillOpen {
        log: &'a str,
        /// Their numbers, each behind a space.
        numbers: String,
    },
}
