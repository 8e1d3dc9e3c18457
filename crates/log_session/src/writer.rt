//! Writers.

ghost use Rattle.std.specs.Prelude.{◌≡◌, ◌≢◌, ◌+◌, ◌<◌, ◌≤◌, ◌↔◌, ◌∷◌, ◌++◌, ℕ, List, [], length, map, false, true};
ghost use Rattle.std.specs.Prelude.{slice_get, Some, Err, OnOk, OnErr, IfErr, IsTrue};
ghost use Rattle.nl_io.specs.Count.{Rose, counted};
ghost use Rattle.printf_grammar.specs.declared.argument.Value.{Value};
ghost use Rattle.printf_grammar.specs.Types.{Fits};
ghost use Rattle.session_options.specs.declared.limits.TheConstants.{MIN_RING, MAX_RING};
ghost use Rattle.arg_records.specs.declared.frame.TheConstants.{MAX_FRAME_WORDS};
ghost use Rattle.arg_records.specs.Frames.{Frame, FrameLen};
ghost use Rattle.ring_core.specs.declared.limits.TheConstants.{MAX_POSITION, OFFER_ROOM};
ghost use Rattle.ring_core.specs.Answers.{IsFull, HasRoom};
ghost use Rattle.ring_core.specs.Counts.{RisesBy};
ghost use Rattle.ring_core.specs.Plans.{MayFollow, call_of, plan_of};
ghost use Rattle.ring_core.specs.Positions.{Need};
ghost use Rattle.log_session.specs.Writers.{IsDictionaryPlan, Knows, AppendsCall, HasLogged};
ghost use Rattle.log_session.specs.Writers.{IfRefusedFull, IfJudgedFull, IsSameEnd};

use crate::refusal::{JudgedRefusal, LogRefusal};
use arg_records::{MAX_FRAME_WORDS, NoFrame, fitting_frame, frame_words};
use log_dictionary::Dictionary;
use printf_grammar::{ArgType, Argument};
use ring_core::{Full, MAX_POSITION, OFFER_ROOM, StageIn};
use std::marker::Model;

/// Logs the calls of one thread into a ring of its own.
///
/// It keeps no dictionary: [`Dictionary::takes`](log_dictionary::Dictionary::takes) of the dictionary for which the
/// ring was made tells which calls it may be given.
#[derive(Drop)]
pub struct Writer<S: StageIn> {
    pub(crate) end: S,
    last: u64,
    accepted: u64,
    /// How often it was asked to log a call.
    asked: u64,
    closed: bool,
    frame: [u64; MAX_FRAME_WORDS],
}

impl<S: StageIn> Model for Writer<S> {
    ghost use Rattle.std.specs.Prelude.{◌≡◌};
    ghost use Rattle.log_session.specs.Writers.{WriterView, HasLogged};

    ghost Value = { WriterView S };

    ghost view = { λ w. record {
      end = w.end;
      last = w.last;
      accepted = w.accepted;
      asked = w.asked;
    } };

    ghost invariant = { λ w. HasLogged (S.plan w.end) (S.sent w.end) (S.at w.end) (S.words w.end) w.last w.accepted
        × (w.closed ≡ S.closed w.end) };
}

impl<S: StageIn> Writer<S> {
    ghost use Rattle.log_session.specs.Starts.{IsUnused, IsNew};

    /// The writer of a new ring, whose calls are not before the first stamp.
    pub(crate) fn over(end: S, first: u64) -> Writer<S>
        requires unused { IsUnused (S.sent end) (S.closed end) (S.at end) (S.seen end) }
        requires planned { IsDictionaryPlan (S.plan end) × ((S.plan end).first ≡ first) }
        requires ring { (MIN_RING ≤ S.words end) × (S.words end ≤ MAX_RING) }
        ensures end { result.end ≡ end }
        ensures new { IsNew first result }
    {
        Writer {
            end,
            last: first,
            accepted: 0,
            asked: 0,
            closed: false,
            frame: [0; MAX_FRAME_WORDS],
        }
    }

    /// Logs a call, with the arguments that its message takes. It waits for nobody, and takes no memory.
    ///
    /// # Errors
    ///
    /// The ring has too little room, or the call is too long for any ring. Nothing was logged then.
    // The frame is made in the caller's code, where the number and the kinds of the arguments are mostly known.
    #[inline(always)]
    pub fn log<A: Argument>(&mut self, stamp: u64, id: u32, args: &[A]) -> Result<(), LogRefusal>
        requires known { Knows (S.plan self.old.end) id (map A.value args.now) }
        requires not_closed { S.closed self.old.end ≡ false }
        requires not_before { self.old.last ≤ stamp }
        requires position { S.at self.old.end + OFFER_ROOM ≤ MAX_POSITION }
        ensures ok { OnOk result (S.sent self.new.end
            ≡ S.sent self.old.end ++ Frame id stamp (map A.value args.now) ∷ []) }
        ensures accepted { OnOk result (AppendsCall (S.plan self.old.end) (S.sent self.old.end)
            (S.plan self.new.end) (S.sent self.new.end) (call_of stamp id (map A.value args.now))) }
        ensures counted { OnOk result ((self.new.last ≡ stamp) × (self.new.accepted ≡ self.old.accepted + 1)) }
        ensures moved { OnOk result (S.at self.new.end ≡ S.at self.old.end
            + Need (S.at self.old.end) (FrameLen (map A.value args.now)) (S.words self.old.end)) }
        ensures room { OnOk result (HasRoom (S.at self.old.end) (FrameLen (map A.value args.now)) (S.words self.old.end)
            (S.seen self.new.end)) }
        ensures too_long { (result ≡ Err LogRefusal.TooLong) ↔ (MAX_FRAME_WORDS < FrameLen (map A.value args.now)) }
        ensures full { IfErr result (λ refusal. IfRefusedFull refusal
            (IsFull (S.at self.old.end) (FrameLen (map A.value args.now)) (S.words self.old.end) (S.seen self.new.end))) }
        ensures looked { IfErr result (λ refusal. IfRefusedFull refusal
            (λ _. Rose (S.looks self.old.end) (S.looks self.new.end))) }
        ensures err { OnErr result ((S.sent self.new.end ≡ S.sent self.old.end)
            × (S.at self.new.end ≡ S.at self.old.end) × (self.new.last ≡ self.old.last)
            × (self.new.accepted ≡ self.old.accepted)) }
        ensures asked { self.new.asked ≡ counted self.old.asked }
        ensures stays_open { S.closed self.new.end ≡ false }
        ensures seen_never_falls { S.seen self.old.end ≤ S.seen self.new.end }
        ensures looks_never_fall { S.looks self.old.end ≤ S.looks self.new.end }
        ensures steps { RisesBy (FrameLen (map A.value args.now) + 3) (S.steps self.old.end) (S.steps self.new.end) }
        ensures same { IsSameEnd S.pair S.words S.plan self.old.end self.new.end }
    {
        self.asked = self.asked.saturating_add(1);
        let Ok(len) = frame_words(id, stamp, args, &mut self.frame) else {
            return Err(LogRefusal::TooLong);
        };
        let frame = &self.frame[..len];
        let offered = offer(
            &mut self.end,
            &mut self.last,
            &mut self.accepted,
            stamp,
            frame,
        );
        if let Err(full) = offered {
            return Err(LogRefusal::Full(full));
        }
        Ok(())
    }

    /// Logs a call, as [`log`](Writer::log) does, if its arguments fit these types, those of its message. The arguments
    /// are judged, measured and written in one pass.
    ///
    /// # Errors
    ///
    /// The arguments don't fit, or the call is too long for any ring, or the ring has too little room. Nothing was
    /// logged then.
    pub fn log_judged<A: Argument>(
        &mut self,
        stamp: u64,
        id: u32,
        types: &[ArgType],
        args: &[A],
    ) -> Result<(), JudgedRefusal>
        requires known { slice_get (S.plan self.old.end).types id ≡ Some types.now }
        requires not_closed { S.closed self.old.end ≡ false }
        requires not_before { self.old.last ≤ stamp }
        requires position { S.at self.old.end + OFFER_ROOM ≤ MAX_POSITION }
        ensures ok { OnOk result (S.sent self.new.end
            ≡ S.sent self.old.end ++ Frame id stamp (map A.value args.now) ∷ []) }
        ensures counted { OnOk result ((self.new.last ≡ stamp) × (self.new.accepted ≡ self.old.accepted + 1)) }
        ensures moved { OnOk result (S.at self.new.end ≡ S.at self.old.end
            + Need (S.at self.old.end) (FrameLen (map A.value args.now)) (S.words self.old.end)) }
        ensures room { OnOk result (HasRoom (S.at self.old.end) (FrameLen (map A.value args.now)) (S.words self.old.end)
            (S.seen self.new.end)) }
        ensures misfit { (result ≡ Err JudgedRefusal.Misfit) ↔ (¬ (Fits (map A.value args.now) types.now)) }
        ensures fits { result ≢ Err JudgedRefusal.Misfit → Fits (map A.value args.now) types.now }
        ensures too_long { (result ≡ Err JudgedRefusal.TooLong)
            ↔ (Fits (map A.value args.now) types.now × (MAX_FRAME_WORDS < FrameLen (map A.value args.now))) }
        ensures full { IfErr result (λ refusal. IfJudgedFull refusal
            (IsFull (S.at self.old.end) (FrameLen (map A.value args.now)) (S.words self.old.end) (S.seen self.new.end))) }
        ensures looked { IfErr result (λ refusal. IfJudgedFull refusal
            (λ _. Rose (S.looks self.old.end) (S.looks self.new.end))) }
        ensures err { OnErr result ((S.sent self.new.end ≡ S.sent self.old.end)
            × (S.at self.new.end ≡ S.at self.old.end) × (self.new.last ≡ self.old.last)
            × (self.new.accepted ≡ self.old.accepted)) }
        ensures asked { self.new.asked ≡ counted self.old.asked }
        ensures stays_open { S.closed self.new.end ≡ false }
        ensures seen_never_falls { S.seen self.old.end ≤ S.seen self.new.end }
        ensures looks_never_fall { S.looks self.old.end ≤ S.looks self.new.end }
        ensures steps { RisesBy (FrameLen (map A.value args.now) + 3) (S.steps self.old.end) (S.steps self.new.end) }
        ensures same { IsSameEnd S.pair S.words S.plan self.old.end self.new.end }
    {
        self.asked = self.asked.saturating_add(1);
        let len = match fitting_frame(id, stamp, types, args, &mut self.frame) {
            Ok(len) => len,
            Err(NoFrame::Misfit) => return Err(JudgedRefusal::Misfit),
            Err(NoFrame::TooLong) => return Err(JudgedRefusal::TooLong),
        };
        let frame = &self.frame[..len];
        let offered = offer(
            &mut self.end,
            &mut self.last,
            &mut self.accepted,
            stamp,
            frame,
        );
        if let Err(full) = offered {
            return Err(JudgedRefusal::Full(full));
        }
        Ok(())
    }

    /// Closes the writer: it logs no more.
    pub fn close(&mut self)
        requires { S.closed self.old.end ≡ false }
        ensures closed { S.closed self.new.end ≡ true }
        ensures others { (S.sent self.new.end ≡ S.sent self.old.end) × (S.at self.new.end ≡ S.at self.old.end)
            × (S.seen self.new.end ≡ S.seen self.old.end) × (self.new.last ≡ self.old.last)
            × (self.new.accepted ≡ self.old.accepted) × (self.new.asked ≡ self.old.asked) }
        ensures looks_never_fall { S.looks self.old.end ≤ S.looks self.new.end }
        ensures steps { RisesBy 1 (S.steps self.old.end) (S.steps self.new.end) }
        ensures same { IsSameEnd S.pair S.words S.plan self.old.end self.new.end }
    {
        self.end.close();
        self.closed = true;
    }

    /// Whether a call with this stamp may come next.
    fn is_ready(&self, stamp: u64) -> bool
        ensures { IsTrue result ↔ ((S.closed self.now.end ≡ false) × (self.now.last ≤ stamp)
            × (S.at self.now.end + OFFER_ROOM ≤ MAX_POSITION)) }
    {
        !self.closed && self.last <= stamp && self.end.at() <= MAX_POSITION - OFFER_ROOM
    }

    /// Whether [`log`](Writer::log) may be asked to log this call. The dictionary is the one for which the ring was
    /// made.
    pub fn takes<A: Argument>(
        &self,
        dictionary: &Dictionary,
        stamp: u64,
        id: u32,
        args: &[A],
    ) -> bool
        requires { (first : ℕ) × (S.plan self.now.end ≡ plan_of dictionary.now first) }
        ensures { IsTrue result ↔ (Knows (S.plan self.now.end) id (map A.value args.now)
            × (S.closed self.now.end ≡ false) × (self.now.last ≤ stamp)
            × (S.at self.now.end + OFFER_ROOM ≤ MAX_POSITION)) }
    {
        self.is_ready(stamp) && dictionary.takes(id, args)
    }

    /// Whether it is closed.
    pub fn is_closed(&self) -> bool
        ensures { result ≡ S.closed self.now.end }
    {
        self.closed
    }

    /// The stamp of the last call that was logged, and at first that of the clock's tick. No call may be earlier.
    pub fn last_stamp(&self) -> u64
        ensures { result ≡ self.now.last }
    {
        self.last
    }

    /// The position in the stream of the ring: how many places its calls take, with those that were skipped.
    pub fn sent(&self) -> u64
        ensures { result ≡ S.at self.now.end }
    {
        self.end.at()
    }

    /// How many calls were logged.
    pub fn accepted(&self) -> u64
        ensures value { result ≡ self.now.accepted }
        ensures frames { result ≡ length (S.sent self.now.end) }
    {
        self.accepted
    }

    /// How often it was asked to log a call. All but the [`accepted`](Writer::accepted) ones were refused, each tried
    /// once. The number stands still at 2^64-1.
    pub fn asked(&self) -> u64
        ensures { result ≡ self.now.asked }
    {
        self.asked
    }

    /// The end of its ring.
    pub fn into_end(self) -> S
        ensures end { result ≡ self.end }
        ensures frames { self.accepted ≡ length (S.sent self.end) }
    {
        let Writer {
            end,
            last: _,
            accepted: _,
            asked: _,
            closed: _,
            frame: _,
        } = self;
        end
    }
}

/// Offers the frame of a call to a ring, behind those of the calls that were logged before. Where it was taken, the
/// call is counted, and its stamp is the last.
#[inline(always)]
fn offer<S: StageIn>(
    end: &mut S,
    last: &mut u64,
    accepted: &mut u64,
    stamp: u64,
    frame: &[u64],
) -> Result<(), Full>
    requires logged { HasLogged (S.plan end.old) (S.sent end.old) (S.at end.old) (S.words end.old)
        last.old accepted.old }
    requires call { (id : ℕ) × (args : List Value) × (frame.now ≡ Frame id stamp args)
        × MayFollow (S.plan end.old) last.old (call_of stamp id args) }
    requires not_closed { S.closed end.old ≡ false }
    requires position { S.at end.old + OFFER_ROOM ≤ MAX_POSITION }
    ensures logged { HasLogged (S.plan end.new) (S.sent end.new) (S.at end.new) (S.words end.new)
        last.new accepted.new }
    ensures ok { OnOk result (S.sent end.new ≡ S.sent end.old ++ frame.now ∷ []) }
    ensures counted { OnOk result ((last.new ≡ stamp) × (accepted.new ≡ accepted.old + 1)) }
    ensures moved { OnOk result (S.at end.new
        ≡ S.at end.old + Need (S.at end.old) (length frame.now) (S.words end.old)) }
    ensures room { OnOk result (HasRoom (S.at end.old) (length frame.now) (S.words end.old) (S.seen end.new)) }
    ensures full { IfErr result (IsFull (S.at end.old) (length frame.now) (S.words end.old) (S.seen end.new)) }
    ensures looked { OnErr result (Rose (S.looks end.old) (S.looks end.new)) }
    ensures err { OnErr result ((S.sent end.new ≡ S.sent end.old) × (S.at end.new ≡ S.at end.old)
        × (last.new ≡ last.old) × (accepted.new ≡ accepted.old)) }
    ensures stays_open { S.closed end.new ≡ false }
    ensures seen_never_falls { S.seen end.old ≤ S.seen end.new }
    ensures looks_never_fall { S.looks end.old ≤ S.looks end.new }
    ensures steps { RisesBy (length frame.now + 3) (S.steps end.old) (S.steps end.new) }
    ensures same { IsSameEnd S.pair S.words S.plan end.old end.new }
{
    end.offer(frame)?;
    *last = stamp;
    *accepted += 1;
    Ok(())
}
