//! Laws over the definitions of a log that grows. The functions do nothing: what they ensure is proved of the
//! definitions.

ghost use Rattle.std.specs.Prelude.{◌≡◌, ◌↔◌, ◌⊎◌, ◌<◌, ◌≤◌, ◌++◌, [], ◌∷◌, ℕ, Bool, true, false, List, length, get_or, slice_get, Some, replicate};
ghost use Rattle.std.specs.List.{AllByRecursion};
ghost use Rattle.nl_io.specs.Count.{Rose};
ghost use Rattle.log_dictionary.specs.declared.clock.Clock.{Clock};
ghost use Rattle.log_dictionary.specs.declared.message.Message.{Message};
ghost use Rattle.log_dictionary.specs.Messages.{AreDistinct};
ghost use Rattle.arg_records.specs.declared.call.Call.{Call};
ghost use Rattle.buffer_extent.specs.declared.put.TheConstants.{RECORD_ROOM};
ghost use Rattle.checkpoint_io.specs.Versions.{most_body};
ghost use Rattle.checkpoint_io.specs.declared.header.Header.{Header};
ghost use Rattle.checkpoint_io.specs.Blocks.{header_bytes, close_bytes};
ghost use Rattle.checkpoint_io.specs.Validity.{IsHeader};
ghost use Rattle.roaming_consumer.specs.Gathering.{StopsTaking};
ghost use Rattle.session_options.specs.Versions.{MayHaveClocks};
ghost use Rattle.roaming_consumer.specs.Growth.{LogProgress, IsLogSoFar, with_calls, IsNext, progress_behind, progress_closing};
ghost use Rattle.roaming_consumer.specs.declared.roamer.Roamer.{Roamer};
ghost use Rattle.roaming_consumer.specs.Roamers.{is_begun, is_faulted, AreMarked, IsClosedLogOfEnds, RoamerStandsFor};

use ring_core::StageOut;

/// The log of a run grows by an extent of a writer, in front of which stand the clocks and the fragments that it wants.
/// Then it is the log of as many calls more.
pub fn logs_grow_by_extents()
    ensures { (wrote : List ℕ) (taken : List (List Call)) (dictionary : List Message) (header : Header) (batch : ℕ)
        (clocks : List Clock) (progress : LogProgress) (writer : ℕ) (records : List Call) (preface extent : List ℕ)
        → IsLogSoFar wrote taken dictionary header.version clocks batch progress
        → MayHaveClocks header.version clocks
        → AreDistinct dictionary
        → length dictionary ≤ 65536
        → IsNext taken dictionary header clocks batch progress writer records preface extent
        → IsLogSoFar (wrote ++ preface ++ extent) (with_calls taken writer records) dictionary header.version clocks
        batch (progress_behind progress clocks records) }
{}

/// The header alone is the log of no calls.
pub fn logs_begin_with_their_header()
    ensures { (header : Header) (dictionary : List Message) (clocks : List Clock) (batch : ℕ) (closed : List Bool)
        → IsHeader header
        → MayHaveClocks header.version clocks
        → slice_get clocks 0 ≡ Some header.clock
        → ((writer : ℕ) → get_or closed writer false ≡ false)
        → IsLogSoFar (header_bytes header) (replicate header.writers []) dictionary header.version clocks batch
        (record { defined = 0; closed = closed; written = 1; latest = 0 }) }
{}

/// A log may get a further clock, whose tick no call has reached: it is the log of the same calls by one clock more.
pub fn logs_take_later_clocks()
    ensures { (wrote : List ℕ) (taken : List (List Call)) (dictionary : List Message) (version : ℕ)
        (clocks : List Clock) (batch : ℕ) (progress : LogProgress) (clock : Clock)
        → IsLogSoFar wrote taken dictionary version clocks batch progress
        → progress.latest < clock.tick
        → IsLogSoFar wrote taken dictionary version (clocks ++ clock ∷ []) batch progress }
{}

/// What is kept of the stamps tells exactly which ticks no call has reached that was taken.
pub fn the_latest_stamp_is_of_a_call_that_was_taken()
    ensures { (wrote : List ℕ) (taken : List (List Call)) (dictionary : List Message) (version : ℕ)
        (clocks : List Clock) (batch : ℕ) (progress : LogProgress) (tick : ℕ)
        → IsLogSoFar wrote taken dictionary version clocks batch progress
        → 1 ≤ tick
        → (progress.latest < tick) ↔ ((writer : ℕ) → writer < length taken
        → AllByRecursion (λ call. call.stamp < tick) (get_or taken writer [])) }
{}

/// Behind the close mark of a writer that was open it is the log of the same calls.
pub fn logs_grow_by_close_marks()
    ensures { (wrote : List ℕ) (taken : List (List Call)) (dictionary : List Message) (version : ℕ)
        (clocks : List Clock) (batch : ℕ) (progress : LogProgress) (writer : ℕ)
        → IsLogSoFar wrote taken dictionary version clocks batch progress
        → writer < length taken
        → get_or progress.closed writer false ≡ false
        → writer < length progress.closed
        → IsLogSoFar (wrote ++ close_bytes version writer) taken dictionary version clocks batch
        (progress_closing progress writer) }
{}

/// Where no write has failed and the close mark of each writer was written, the log of what was taken has them all.
pub fn marks_stand_in_the_log<S: StageOut>()
    ensures { (roamer : Roamer S) (wrote : List ℕ)
        → RoamerStandsFor S.got S.ended roamer wrote
        → is_begun roamer ≡ true
        → is_faulted roamer ≡ false
        → AreMarked roamer
        → IsClosedLogOfEnds S.got roamer wrote }
{}

/// How great the body of an extent is at most in each version, and how many bytes of a body are kept free for a record.
pub fn the_limits_of_a_visit()
    ensures bodies { (most_body 1 ≡ 65536) × (most_body 2 ≡ 1048576) }
    ensures record { RECORD_ROOM ≡ 8192 }
{}

/// A visit that stops before the batch is full, while 8,192 bytes of the body are free, has found all ended, or has
/// looked for more in vain.
pub fn a_visit_goes_on_while_there_is_room<S: StageOut>()
    ensures { (batch taken free : ℕ) (before after : S)
        → StopsTaking S.got S.ended S.loads batch taken free before after
        → taken < batch
        → 8192 ≤ free
        → (S.ended after ≡ true) ⊎ Rose (S.loads before) (S.loads after) }
{}
