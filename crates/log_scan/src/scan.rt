use checkpoint_io::{Cause, Reader};

/// How a scan of a file ended.
#[derive(Clone, Copy, Debug, PartialEq, Eq)]
pub enum ScanEnd {
    /// The file ended behind its header or a block.
    Whole,
    /// It is no log from this offset on, from this cause.
    Damaged { offset: u64, cause: Cause },
    /// A read failed.
    ReadFault,
}

/// What is known of a file that was scanned.
#[derive(Debug, Drop)]
pub struct Scan {
    /// How it ended.
    pub end: ScanEnd,
    /// The reader of the log, which has its header and messages. There is none where the file begins with no header.
    pub reader: Option<Reader>,
}
