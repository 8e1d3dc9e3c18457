//! How a command ended, as the exit status says it.

ghost use Rattle.std.specs.Prelude.{◌≡◌};
ghost use Rattle.command_base.specs.Statuses.{status_number};

/// How a command ended. Its number is the program's exit status.
#[derive(Clone, Copy, Debug, PartialEq, Eq)]
pub enum Status {
    Done,
    /// The words are no command.
    Usage,
    /// An input isn't in its form.
    Refused,
    /// A log is damaged.
    Damaged,
    /// An input couldn't be read.
    ReadFault,
    /// An output couldn't be written.
    WriteFault,
    NoMemory,
    /// An input isn't there.
    Absent,
}

impl Status {
    /// The exit status, from 0 to 7.
    pub fn number(self) -> u8
        ensures { result ≡ status_number self }
    {
        match self {
            Status::Done => 0,
            Status::Usage => 1,
            Status::Refused => 2,
            Status::Damaged => 3,
            Status::ReadFault => 4,
            Status::WriteFault => 5,
            Status::NoMemory => 6,
            Status::Absent => 7,
        }
    }
}
