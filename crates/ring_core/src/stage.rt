//! Rings, and what is known of one when both its ends have come together again.

ghost use Rattle.std.specs.Prelude.{◌≡◌, ◌<◌, ◌↔◌, ◌⊎◌, [], ℕ, Bool, true, false, List, length, IfOk, IsErrOf};
ghost use Rattle.session_options.specs.declared.limits.TheConstants.{MIN_RING, MAX_RING};
ghost use Rattle.ring_core.specs.declared.answers.StageFault.TheVariants as faults;
ghost use Rattle.ring_core.specs.Plans.{plan_of, BeginsWith};

use crate::answers::StageFault;
use crate::stage_in::StageIn;
use crate::stage_out::StageOut;
use log_dictionary::Message;
use std::alloc::Global;

/// A kind of rings, each with one writer and one roamer.
pub trait Stage {
    /// The writer's end.
    type In: StageIn + Send + Drop + 'static;
    /// The roamer's end.
    type Out: StageOut + Drop;
    /// What is left of a ring whose ends have come together again.
    type Done: StageDone + Drop;

    /// The two ends of a new ring of so many words, for calls of the messages whose stamps aren't below `first`.
    fn make(
        alloc: Global,
        words: u64,
        messages: &[Message],
        first: u64,
    ) -> Result<(Self::In, Self::Out), StageFault>
        ensures bad_size { IsErrOf result StageFault.BadSize ↔ ((words < MIN_RING) ⊎ (MAX_RING < words)) }
        ensures one_ring { IfOk result (λ ends. Self.In.pair ends.0 ≡ Self.Out.pair ends.1) }
        ensures size { IfOk result (λ ends. Self.In.words ends.0 ≡ words) }
        ensures plans { IfOk result (λ ends. (Self.In.plan ends.0 ≡ plan_of messages.now first)
            × (Self.Out.plan ends.1 ≡ plan_of messages.now first)) }
        ensures writer { IfOk result (λ ends. (Self.In.sent ends.0 ≡ []) × (Self.In.closed ends.0 ≡ false)
            × (Self.In.at ends.0 ≡ 0) × (Self.In.seen ends.0 ≡ 0)) }
        ensures roamer { IfOk result (λ ends. (Self.Out.got ends.1 ≡ []) × (Self.Out.ended ends.1 ≡ false)) };

    /// Brings the two ends of a ring together, when nothing more is put or taken.
    fn settle(writer: Self::In, roamer: Self::Out) -> Self::Done
        requires { Self.In.pair writer ≡ Self.Out.pair roamer }
        ensures pair { Self.Done.pair result ≡ Self.In.pair writer }
        ensures writer { (Self.Done.sent result ≡ Self.In.sent writer)
            × (Self.Done.closed result ≡ Self.In.closed writer) }
        ensures roamer { (Self.Done.got result ≡ Self.Out.got roamer)
            × (Self.Done.ended result ≡ Self.Out.ended roamer) }
        ensures front { BeginsWith (Self.In.sent writer) (Self.Out.got roamer) }
        ensures whole { Self.In.closed writer ≡ true → Self.Out.ended roamer ≡ true
            → Self.Out.got roamer ≡ Self.In.sent writer };
}

/// What is left of a ring whose ends have come together again.
pub trait StageDone {
    /// Which ring it was.
    ghost pair: { Self → List ℕ };

    /// The frames that were accepted.
    ghost sent: { Self → List (List ℕ) };

    /// The frames that were taken.
    ghost got: { Self → List (List ℕ) };

    /// Whether the writer closed its end.
    ghost closed: { Self → Bool };

    /// Whether the roamer's end has answered that all has ended.
    ghost ended: { Self → Bool };

    /// The number of frames that were taken.
    fn frames(&self) -> u64
        ensures { result ≡ length (got self.now) };
}
