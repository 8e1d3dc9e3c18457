//! Why the text of a trace is refused.

ghost use Rattle.std.specs.Prelude.{◌≡◌};
ghost use Rattle.trace_text.specs.Causes.{cause_number, cause_name};

/// Why a line of a trace is refused. Where several causes hold of a line, the first of this list is told. The arguments
/// of a call are judged from left to right, and its frame behind them.
#[derive(Clone, Copy, Debug, PartialEq, Eq)]
pub enum TraceCause {
    /// The text has more than 67,108,864 bytes.
    TooLarge,
    /// The text ends before the end of an `end` line.
    NoEnd,
    /// The first line is neither `nanolog-trace 1` nor `nanolog-trace 2`.
    Header,
    /// It would be one message or one call too many.
    TooMany,
    /// A message line is of another form, its id isn't the next one, or its message is there already.
    Message,
    /// In version 2, a line begins with `clock ` behind 256 lines of clocks.
    TooManyClocks,
    /// The first line after the messages isn't a clock's, or a later line of version 2 that begins with `clock ` isn't
    /// one.
    Clock,
    /// In version 2, the tick of a clock isn't above that of the clock before.
    ClockOrder,
    /// The line after the clocks' isn't that of 1 to 64 writers, or 1,024 in version 2.
    Writers,
    /// A later line is neither `end` nor `call` with a writer, a stamp and an id.
    CallForm,
    /// There is no such writer.
    Writer,
    /// The stamp is below the first clock's tick.
    BeforeClock,
    /// The stamp is below that of the writer's call before.
    StampFalls,
    /// There is no message with the id.
    Id,
    /// There are fewer or more arguments than the message takes.
    ArgCount,
    /// An argument isn't a number, or isn't a text, as the message takes it.
    ArgKind,
    /// A number is outside its type's range.
    ArgRange,
    /// A text holds a byte 0.
    NulInText,
    /// A text has more than 4,000 bytes, or the call's frame more than 512 words.
    TooLong,
    /// Bytes follow the `end` line.
    AfterEnd,
}

impl TraceCause {
    /// Its number, which is only another name.
    pub fn number(self) -> u8
        ensures { result ≡ cause_number self }
    {
        match self {
            TraceCause::TooLarge => 18,
            TraceCause::NoEnd => 14,
            TraceCause::Header => 1,
            TraceCause::TooMany => 15,
            TraceCause::Message => 2,
            TraceCause::TooManyClocks => 20,
            TraceCause::Clock => 3,
            TraceCause::ClockOrder => 21,
            TraceCause::Writers => 4,
            TraceCause::CallForm => 17,
            TraceCause::Writer => 5,
            TraceCause::BeforeClock => 7,
            TraceCause::StampFalls => 6,
            TraceCause::Id => 8,
            TraceCause::ArgCount => 9,
            TraceCause::ArgKind => 10,
            TraceCause::ArgRange => 11,
            TraceCause::NulInText => 12,
            TraceCause::TooLong => 13,
            TraceCause::AfterEnd => 16,
        }
    }

    /// Its name, as it is printed.
    pub fn name(self) -> &'static str
        ensures { result.now ≡ cause_name self }
    {
        match self {
            TraceCause::TooLarge => "TooLarge",
            TraceCause::NoEnd => "NoEnd",
            TraceCause::Header => "Header",
            TraceCause::TooMany => "TooMany",
            TraceCause::Message => "Message",
            TraceCause::TooManyClocks => "TooManyClocks",
            TraceCause::Clock => "Clock",
            TraceCause::ClockOrder => "ClockOrder",
            TraceCause::Writers => "Writers",
            TraceCause::CallForm => "CallForm",
            TraceCause::Writer => "Writer",
            TraceCause::BeforeClock => "BeforeClock",
            TraceCause::StampFalls => "StampFalls",
            TraceCause::Id => "Id",
            TraceCause::ArgCount => "ArgCount",
            TraceCause::ArgKind => "ArgKind",
            TraceCause::ArgRange => "ArgRange",
            TraceCause::NulInText => "NulInText",
            TraceCause::TooLong => "TooLong",
            TraceCause::AfterEnd => "AfterEnd",
        }
    }
}
