//! The records of a writer that wait to be printed.

ghost use Rattle.std.specs.Prelude.{◌≡◌, ◌↔◌, ◌≤◌, ◌<◌, ◌^◌, ℕ, List, [], ◌∷◌, ◌++◌, length, drop, slice_get, IsTrue, OnOk, OnErr};
ghost use Rattle.printf_grammar.specs.Types.{values_of};
ghost use Rattle.arg_records.specs.declared.call.Call.{Call};
ghost use Rattle.buffer_extent.specs.Reading.{types_of, header_of};
ghost use Rattle.buffer_extent.specs.Bodies.{IsBody, GoesOn};
ghost use Rattle.decompressor.specs.Waiting.{no_queue, first_of, HoldsFirst, HoldsRecords};

use arrayvec::ArrayVec;
use buffer_extent::{NumberRoom, RecordHeader, unpack_arguments, unpack_head};
use bytes_queue::BytesQueue;
use log_dictionary::Dictionary;
use printf_grammar::Arg;
use std::alloc::{AllocError, Global};
use std::marker::Model;

/// The records of a writer that wait to be printed, as the bytes in which the log has them.
#[derive(Debug, Drop)]
pub struct RecordQueue {
    // The bodies of extents that weren't printed whole. They were judged.
    bodies: BytesQueue,
    // What the first record begins with, and where its arguments begin in the first body.
    head: RecordHeader,
    place: usize,
}

impl Model for RecordQueue {
    ghost use Rattle.decompressor.specs.Waiting.{QueueState};

    ghost Value = { QueueState };

    ghost view = { λ q. record {
      bodies = q.bodies;
      head = q.head;
      place = q.place;
    } };
}

impl RecordQueue {
    /// No records.
    pub fn make(alloc: Global) -> RecordQueue
        ensures { result ≡ no_queue }
    {
        RecordQueue {
            bodies: BytesQueue::make(alloc),
            head: RecordHeader { id: 0, stamp: 0 },
            place: 0,
        }
    }

    /// Whether there are none.
    pub fn is_empty(&self) -> bool
        ensures { IsTrue result ↔ (self.now.bodies ≡ []) }
    {
        self.bodies.is_empty()
    }

    /// The stamp of the first record.
    pub fn first_stamp(&self) -> Option<u64>
        ensures { result ≡ first_of self.now.bodies self.now.head }
    {
        if self.bodies.is_empty() {
            return None;
        }
        Some(self.head.stamp)
    }

    /// What the first record begins with.
    pub fn head(&self) -> RecordHeader
        ensures { result ≡ self.now.head }
    {
        self.head
    }

    // Reads what the record at a place of the first body begins with. Its step counts from `before`.
    fn read_head(&mut self, dictionary: &Dictionary, before: u64, place: usize)
        requires { (body : List ℕ) (bodies : List (List ℕ)) → self.old.bodies ≡ body ∷ bodies → place ≤ length body }
        ensures bodies { self.new.bodies ≡ self.old.bodies }
        ensures read { (body : List ℕ) (bodies : List (List ℕ)) (first : Call) (own : List Call) (last : ℕ)
            → self.old.bodies ≡ body ∷ bodies
            → IsBody dictionary.now before last (first ∷ own) (drop place body)
            → (self.new.head ≡ header_of first) × (self.new.place ≤ length body)
            × GoesOn dictionary.now first own (drop self.new.place body) }
    {
        let Some(body) = self.bodies.first() else {
            return;
        };
        // The records of a body that was judged are read again.
        let Ok((head, rest)) = unpack_head(dictionary, before, 0, &body[place..]) else {
            return;
        };
        self.place = body.len() - rest.len();
        self.head = head;
    }

    /// Adds the records of an extent at the end: those of its body, which was judged. `base` is the tick from which the
    /// first step counts. Where that is refused nothing changed.
    pub fn push(
        &mut self,
        dictionary: &Dictionary,
        base: u64,
        body: &[u8],
    ) -> Result<(), AllocError>
        requires { length body.now < 2 ^ 32 }
        ensures ok { (records more : List Call) (last : ℕ) → HoldsRecords dictionary.now base self.old records
            → IsBody dictionary.now base last more body.now
            → OnOk result (HoldsRecords dictionary.now base self.new (records ++ more)) }
        ensures err { OnErr result (self.new ≡ self.old) }
    {
        if body.is_empty() {
            return Ok(());
        }
        let was_empty = self.bodies.is_empty();
        self.bodies.push(body)?;
        if was_empty {
            self.read_head(dictionary, base, 0);
        }
        Ok(())
    }

    /// Unpacks the arguments of the first record, and answers how many bytes of its body stand behind it.
    pub fn unpack_first<'a, const N: usize>(
        &'a self,
        dictionary: &Dictionary,
        room: &mut NumberRoom,
        args: &mut ArrayVec<Arg<'a>, N>,
    ) -> usize
        requires few { length (types_of (slice_get dictionary.now self.now.head.id)) ≤ N }
        requires first { (base : ℕ) × (first : Call) × (others : List Call)
            × HoldsFirst dictionary.now base self.now first others }
        ensures { (base : ℕ) (first : Call) (others : List Call)
            (holds : HoldsFirst dictionary.now base self.now first others)
            → (values_of args.new.items ≡ first.args) × (result ≡ length holds.goes_on.back) }
    {
        let Some(body) = self.bodies.first() else {
            return 0;
        };
        match unpack_arguments(dictionary, self.head.id, &body[self.place..], room, args) {
            Ok(rest) => rest.len(),
            Err(_) => 0,
        }
    }

    /// Takes the first record, behind which stand so many bytes of its body.
    pub fn remove_first(&mut self, dictionary: &Dictionary, base: u64, left: usize)
        requires { (first : Call) × (others : List Call)
            × (holds : HoldsFirst dictionary.now base self.old first others)
            × (left ≡ length holds.goes_on.back) }
        ensures { (first : Call) (others : List Call) (holds : HoldsFirst dictionary.now base self.old first others)
            → left ≡ length holds.goes_on.back
            → HoldsRecords dictionary.now base self.new others }
    {
        let Some(body) = self.bodies.first() else {
            return;
        };
        if left > 0 {
            let place = body.len() - left;
            self.read_head(dictionary, self.head.stamp, place);
        } else {
            self.bodies.remove_first();
            self.read_head(dictionary, base, 0);
        }
    }
}
