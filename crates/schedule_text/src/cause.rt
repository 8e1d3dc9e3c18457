//! Why a line of a schedule is refused.

ghost use Rattle.std.specs.Prelude.{◌≡◌};
ghost use Rattle.schedule_text.specs.Causes.{cause_number, cause_name, told_bar};

use ring_machine::Barred;

/// Why a line of a schedule is refused. Where several causes hold of a line, the first of this list is told, but that
/// `TooMany` comes before all others.
#[derive(Clone, Copy, Debug, PartialEq, Eq)]
pub enum ScheduleCause {
    /// The first line isn't `nanolog-schedule 1`, or the second isn't that of 1 to 64 rings of 1,024 to 65,536 words.
    Header,
    /// A later line is that of no step.
    Step,
    /// There is no such ring.
    Ring,
    /// The writer has closed the ring.
    Closed,
    /// A frame isn't stored whole, or isn't read whole, or what is stored isn't published.
    MidFrame,
    /// No frame begins with this word.
    BadWord,
    /// The frame would cross the ring's end, or nothing is there to be skipped.
    AtEdge,
    /// Not so many places are known to be free.
    NoRoom,
    /// All that is known to be published was read.
    Empty,
    /// There is nothing new to publish or to release.
    Nothing,
    /// It would be one step too many.
    TooMany,
}

impl ScheduleCause {
    /// Its number, which is only another name.
    pub fn number(self) -> u8
        ensures { result ≡ cause_number self }
    {
        match self {
            ScheduleCause::Header => 1,
            ScheduleCause::Step => 2,
            ScheduleCause::Ring => 3,
            ScheduleCause::Closed => 4,
            ScheduleCause::MidFrame => 5,
            ScheduleCause::BadWord => 6,
            ScheduleCause::AtEdge => 7,
            ScheduleCause::NoRoom => 8,
            ScheduleCause::Empty => 9,
            ScheduleCause::Nothing => 10,
            ScheduleCause::TooMany => 11,
        }
    }

    /// Its name, as it is printed.
    pub fn name(self) -> &'static str
        ensures { result.now ≡ cause_name self }
    {
        match self {
            ScheduleCause::Header => "Header",
            ScheduleCause::Step => "Step",
            ScheduleCause::Ring => "Ring",
            ScheduleCause::Closed => "Closed",
            ScheduleCause::MidFrame => "MidFrame",
            ScheduleCause::BadWord => "BadWord",
            ScheduleCause::AtEdge => "AtEdge",
            ScheduleCause::NoRoom => "NoRoom",
            ScheduleCause::Empty => "Empty",
            ScheduleCause::Nothing => "Nothing",
            ScheduleCause::TooMany => "TooMany",
        }
    }
}

/// What bars a step, as a cause. Want of memory is none.
pub(crate) fn told_bar(bar: Barred) -> Option<ScheduleCause>
    ensures { result ≡ told_bar bar }
{
    match bar {
        Barred::Ring => Some(ScheduleCause::Ring),
        Barred::Closed => Some(ScheduleCause::Closed),
        Barred::MidFrame => Some(ScheduleCause::MidFrame),
        Barred::BadWord => Some(ScheduleCause::BadWord),
        Barred::AtEdge => Some(ScheduleCause::AtEdge),
        Barred::NoRoom => Some(ScheduleCause::NoRoom),
        Barred::Empty => Some(ScheduleCause::Empty),
        Barred::Nothing => Some(ScheduleCause::Nothing),
        Barred::NoMemory => None,
    }
}
