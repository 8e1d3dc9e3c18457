//! Ends of rings whose frames go into several logs.

ghost use Rattle.roaming_consumer.specs.Parting.{IsStopped, IsAnew};

use ring_core::StageOut;

/// The end of a ring whose frames go into several logs, one after another: the parts. What it says of itself, as which
/// frames were taken, it says of the part that is written.
pub trait PartOut: StageOut {
    /// What becomes of the end where a part ends, as a relation between two of its states.
    ghost ends_part: { Self → Self → Type 0 };

    /// What becomes of it where a part begins.
    ghost begins_part: { Self → Self → Type 0 };

    /// Ends the part: until the next one begins, the end answers that all has ended.
    fn end_part(&mut self)
        ensures held { IsStopped Self.got Self.ended Self.plan self.old self.new }
        ensures ends { ends_part self.old self.new };

    /// Begins a part, into which the frames go that are taken from now on.
    fn begin_part(&mut self)
        ensures anew { IsAnew Self.got Self.plan self.old self.new }
        ensures begins { begins_part self.old self.new };
}
