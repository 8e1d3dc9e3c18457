use crate::report::Report;

/// How a step of a decompressor ended.
#[derive(Debug, Drop)]
pub enum Step {
    /// A block was read, and all lines are out before which no later one can stand.
    More,
    /// The log has ended, and all lines are out.
    End(Report),
}
