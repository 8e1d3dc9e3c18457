//! Laws over the definitions of logs. The functions do nothing: what they ensure is proved of the definitions.

ghost use Rattle.std.specs.Prelude.{◌≡◌, ◌≢◌, ◌⊎◌, ℕ, ◌+◌, ◌<◌, ◌≤◌, ◌^◌, List, [], ◌∷◌, ◌++◌, length, map, take, slice_set, All, Contains, codes, Ok, Err, true, false};
ghost use Rattle.nibble_pack.specs.Bytes.{AreBytes};
ghost use Rattle.nibble_pack.specs.Parsing.{IsSteady};
ghost use Rattle.std.specs.List.{AllByRecursion, range_with_len};
ghost use Rattle.log_dictionary.specs.declared.clock.Clock.{Clock};
ghost use Rattle.log_dictionary.specs.declared.message.Message.{Message};
ghost use Rattle.log_dictionary.specs.Clocks.{AreClocks, last_tick};
ghost use Rattle.log_dictionary.specs.Messages.{AreDistinct};
ghost use Rattle.log_dictionary.specs.BinaryEntries.{SpellsEntry};
ghost use Rattle.arg_records.specs.declared.call.Call.{Call};
ghost use Rattle.buffer_extent.specs.declared.fault.BodyCause.{BodyCause};
ghost use Rattle.buffer_extent.specs.Bodies.{SpellsRecords};
ghost use Rattle.arg_records.specs.Calls.{IsCall, NeverFalls};
ghost use Rattle.checkpoint_io.specs.declared.cause.Cause.{Cause};
ghost use Rattle.checkpoint_io.specs.declared.cause.Cause.TheVariants.{BadMagic, BadVersion, BadHeader, Cut, BadBlock, FragmentOrder, BadEntry, UnknownWriter, AfterClose, BadLength, Body, TooLarge, ClockOrder, ClockLate, BadRate, ClockCount};
ghost use Rattle.checkpoint_io.specs.declared.header.Header.{Header};
ghost use Rattle.checkpoint_io.specs.declared.heads.TheConstants.{CLOCK_LEN, MAX_FRAGMENT_MESSAGES, MAX_LOG};
ghost use Rattle.checkpoint_io.specs.declared.version.TheConstants.{MAX_BODY, MAX_READ_BODY, MAX_HEADER_LEN, MAX_EXTENT_HEAD_LEN, MAX_CLOSE_LEN};
ghost use Rattle.checkpoint_io.specs.Blocks.{Block, Fragment, Extent, NewClock, Close, IsPreface, messages_of, clocks_of, all_records, header_bytes, fragment_head_bytes, extent_head_bytes, clock_bytes, close_bytes, SpellsEntries, SpellsFragment, SpellsExtent, SpellsClock, SpellsClose, SpellsBlock, FileOf};
ghost use Rattle.checkpoint_io.specs.Causes.{cause_number, cause_name};
ghost use Rattle.checkpoint_io.specs.Fronts.{BeginsWithLog, Front, HasNoHeader, Break, BreaksByCutAlone, IsCutAt};
ghost use Rattle.checkpoint_io.specs.Logs.{ids_used, new_messages, AreFragments, HasAtMost, greatest_stamp, new_clocks, StandsInFront, IsLaidOut, LogOf};
ghost use Rattle.checkpoint_io.specs.Reading.{header_at, block_at};
ghost use Rattle.checkpoint_io.specs.Rows.{row_header, row_header_bytes, row_blocks, row_bytes, row_record, full_record, late_fragments, two_clocks, call_at, clock_header, clock_blocks, clock_file, later_clock_bytes, late_clock_file};
ghost use Rattle.arg_records.specs.Rows.{full_message};
ghost use Rattle.log_dictionary.specs.Rows.{row_message, later_clock};
ghost use Rattle.session_options.specs.declared.version.TheConstants.{MAX_WRITERS};
ghost use Rattle.checkpoint_io.specs.Versions.{is_known, has_clocks, writer_len, most_writers, most_body, header_len, extent_head_len, close_len};
ghost use Rattle.checkpoint_io.specs.Validity.{records_of, last_stamp, IsClosed, IsOf, IsRightAfter, IsHeader, Valid};

/// A log of 68 bytes: a message, a call of it, and a close mark.
pub fn worked_log()
    ensures length { length row_bytes ≡ 68 }
    ensures file { FileOf row_header row_blocks row_bytes }
    ensures valid { Valid row_header row_blocks }
    ensures log { LogOf row_bytes ((row_record ∷ []) ∷ []) (row_message ∷ []) 1 (row_header.clock ∷ []) 4096 }
    ensures log_of_small_batches { LogOf row_bytes ((row_record ∷ []) ∷ []) (row_message ∷ []) 1
        (row_header.clock ∷ []) 1 }
{}

/// A log of version 2 with 97 bytes: a second clock, a message, a call of it behind the clock's tick, and a close mark.
pub fn worked_log_of_two_clocks()
    ensures length { length clock_file ≡ 97 }
    ensures file { FileOf clock_header clock_blocks clock_file }
    ensures valid { Valid clock_header clock_blocks }
    ensures clocks { clocks_of clock_header clock_blocks ≡ two_clocks }
    ensures log { LogOf clock_file ((call_at 2003 ∷ []) ∷ []) (row_message ∷ []) 2 two_clocks 4096 }
{}

/// What depends on the version of a log: the bytes of the number of writers and of each writer, the most
/// writers, the most bytes of a body, and the bytes of a header, of an extent's head and of a close
/// mark. Versions 1 and 2 are known, of which 2 alone has clocks behind that of the header.
pub fn versions_have_a_table()
    ensures known { (is_known 1 ≡ true) × (is_known 2 ≡ true)
        × ((version : ℕ) → is_known version ≡ true → (version ≡ 1) ⊎ (version ≡ 2)) }
    ensures clocks { (has_clocks 1 ≡ false) × (has_clocks 2 ≡ true) }
    ensures numbers_of_1 { (writer_len 1 ≡ 1) × (most_writers 1 ≡ 64) × (most_body 1 ≡ 65536) }
    ensures lengths_of_1 { (header_len 1 ≡ 30) × (extent_head_len 1 ≡ 6) × (close_len 1 ≡ 2) }
    ensures numbers_of_2 { (writer_len 2 ≡ 2) × (most_writers 2 ≡ 1024) × (most_body 2 ≡ 1048576) }
    ensures lengths_of_2 { (header_len 2 ≡ 31) × (extent_head_len 2 ≡ 7) × (close_len 2 ≡ 3) }
    ensures within { (version : ℕ) → (header_len version ≤ MAX_HEADER_LEN)
        × (extent_head_len version ≤ MAX_EXTENT_HEAD_LEN) × (close_len version ≤ MAX_CLOSE_LEN) }
    ensures writers_fit { (version : ℕ) → most_writers version < 256 ^ writer_len version }
    ensures bodies_fit { (version : ℕ) → most_body version < 2 ^ 32 }
    ensures greatest { (version : ℕ) → (most_writers version ≤ MAX_WRITERS) × (most_body version ≤ MAX_READ_BODY) }
{}

/// A header has a known version, a writer, no more of them than the version allows, numbers of 64 bits,
/// and a clock that ticks.
pub fn headers_are_within_limits()
    ensures right { (header : Header) → is_known header.version ≡ true → 1 ≤ header.writers
        → header.writers ≤ most_writers header.version
        → header.clock.tick < 2 ^ 64
        → header.clock.nanos < 2 ^ 64
        → header.clock.rate < 2 ^ 64
        → 1 ≤ header.clock.rate
        → IsHeader header }
    ensures other_version { (header : Header) → is_known header.version ≡ false → ¬ (IsHeader header) }
    ensures no_writer { (header : Header) → header.writers ≡ 0 → ¬ (IsHeader header) }
    ensures too_many_writers { (header : Header) → most_writers header.version < header.writers
        → ¬ (IsHeader header) }
    ensures no_ticks { (header : Header) → header.clock.rate ≡ 0 → ¬ (IsHeader header) }
    ensures tick_fits { (header : Header) → IsHeader header → header.clock.tick < 2 ^ 64 }
    ensures nanos_fits { (header : Header) → IsHeader header → header.clock.nanos < 2 ^ 64 }
    ensures rate_fits { (header : Header) → IsHeader header → header.clock.rate < 2 ^ 64 }
{}

/// A fragment has 1 to 16 messages, and a first id of 32 bits.
pub fn fragments_are_within_limits()
    ensures right { (first : ℕ) (messages : List Message) (entries : List ℕ) → 1 ≤ length messages
        → length messages ≤ 16
        → first < 2 ^ 32
        → SpellsEntries messages entries
        → SpellsFragment first messages (fragment_head_bytes first (length messages) ++ entries) }
    ensures some { (first : ℕ) (messages : List Message) (bytes : List ℕ)
        → SpellsFragment first messages bytes → 1 ≤ length messages }
    ensures few { (first : ℕ) (messages : List Message) (bytes : List ℕ)
        → SpellsFragment first messages bytes → length messages ≤ 16 }
    ensures fits { (first : ℕ) (messages : List Message) (bytes : List ℕ)
        → SpellsFragment first messages bytes → first < 2 ^ 32 }
{}

/// An extent has a record, and behind its head a body of at least a byte, within the version's limit. Its
/// writer fits the bytes that the version has for it, and so does that of a close mark.
pub fn extents_are_within_limits()
    ensures right { (messages : List Message) (header : Header) (writer : ℕ) (records : List Call) (body : List ℕ)
        → 1 ≤ length body
        → length body ≤ most_body header.version
        → writer < 256 ^ writer_len header.version
        → SpellsRecords messages header.clock.tick records body
        → SpellsExtent messages header writer records (extent_head_bytes header.version writer (length body) ++ body) }
    ensures some { (messages : List Message) (header : Header) (writer : ℕ) (records : List Call) (bytes : List ℕ)
        → SpellsExtent messages header writer records bytes → extent_head_len header.version < length bytes }
    ensures short { (messages : List Message) (header : Header) (writer : ℕ) (records : List Call) (bytes : List ℕ)
        → SpellsExtent messages header writer records bytes
        → length bytes ≤ extent_head_len header.version + most_body header.version }
    ensures some_record { (messages : List Message) (header : Header) (writer : ℕ) (bytes : List ℕ)
        → ¬ (SpellsExtent messages header writer [] bytes) }
    ensures fits { (messages : List Message) (header : Header) (writer : ℕ) (records : List Call) (bytes : List ℕ)
        → SpellsExtent messages header writer records bytes → writer < 256 ^ writer_len header.version }
    ensures right_close { (header : Header) (writer : ℕ) → writer < 256 ^ writer_len header.version
        → SpellsClose header writer (close_bytes header.version writer) }
    ensures close_fits { (header : Header) (writer : ℕ) (bytes : List ℕ) → SpellsClose header writer bytes
        → writer < 256 ^ writer_len header.version }
{}

/// The entries of a fragment stand one behind the other.
pub fn entries_are_joined()
    ensures none { SpellsEntries [] [] }
    ensures more { (message : Message) (messages : List Message) (front back : List ℕ)
        → SpellsEntry front message
        → SpellsEntries messages back
        → SpellsEntries (message ∷ messages) (front ++ back) }
{}

/// A file begins with its header, and goes on with the spelling of a block, whose messages were
/// defined before it.
pub fn files_go_on()
    ensures empty { (header : Header) → FileOf header [] (header_bytes header) }
    ensures more { (header : Header) (blocks : List Block) (block : Block) (bytes spelled : List ℕ)
        → FileOf header blocks bytes
        → SpellsBlock (messages_of blocks) header block spelled
        → FileOf header (blocks ++ block ∷ []) (bytes ++ spelled) }
{}

/// Bytes begin with one header.
pub fn headers_are_read_one_way()
    ensures { (a b : Header) (rest more : List ℕ) → IsHeader a → IsHeader b
        → header_bytes a ++ rest ≡ header_bytes b ++ more
        → (a ≡ b) × (rest ≡ more) }
{}

/// Behind the same blocks no right block's spelling is a proper prefix of another's: where bytes
/// begin with both, they are one block.
pub fn blocks_are_read_one_way()
    ensures { (header : Header) (before : List Block) (a b : Block)
        (front other rest more : List ℕ) → IsRightAfter header before a
        → IsRightAfter header before b
        → SpellsBlock (messages_of before) header a front
        → SpellsBlock (messages_of before) header b other
        → front ++ rest ≡ other ++ more
        → (a ≡ b) × (front ≡ other) }
{}

/// Bytes have one front.
pub fn fronts_are_one()
    ensures { (bytes : List ℕ) (a b : Header) (blocks others : List Block) (count less : ℕ)
        → Front bytes a blocks count
        → Front bytes b others less
        → (a ≡ b) × (blocks ≡ others) × (count ≡ less) }
{}

/// A file that is a log from its first byte to its last is its own front.
pub fn whole_files_are_fronts()
    ensures { (header : Header) (blocks : List Block) (bytes : List ℕ)
        → FileOf header blocks bytes
        → Valid header blocks
        → Front bytes header blocks (length bytes) }
{}

/// Where bytes are a log, and no right block goes on behind it, that log is their front.
pub fn fronts_end_where_no_block_goes_on()
    ensures { (header : Header) (blocks : List Block) (bytes rest : List ℕ)
        → FileOf header blocks bytes
        → Valid header blocks
        → ((block : Block) (front back : List ℕ) → IsRightAfter header blocks block
        → SpellsBlock (messages_of blocks) header block front
        → rest ≢ front ++ back)
        → Front (bytes ++ rest) header blocks (length bytes) }
{}

/// Bytes have no header exactly where no right header's spelling stands at their front. A header
/// has at least 30 bytes.
pub fn headers_stand_at_the_front()
    ensures some { (header : Header) (rest : List ℕ) → IsHeader header
        → ¬ (HasNoHeader (header_bytes header ++ rest)) }
    ensures none { (bytes : List ℕ)
        → ((header : Header) (rest : List ℕ) → IsHeader header → bytes ≢ header_bytes header ++ rest)
        → HasNoHeader bytes }
    ensures short { (bytes : List ℕ) → length bytes < 30 → HasNoHeader bytes }
    ensures front { (bytes : List ℕ) (header : Header) (blocks : List Block) (count : ℕ)
        → Front bytes header blocks count
        → ¬ (HasNoHeader bytes) }
{}

/// A log may go on with messages that have the next ids, with the records of a writer that is known
/// and not closed, with a clock whose tick is above that of the last clock and above all stamps, and with the
/// close mark of such a writer.
pub fn logs_go_on()
    ensures empty { (header : Header) → IsHeader header → Valid header [] }
    ensures more { (header : Header) (blocks : List Block) (block : Block) → Valid header blocks
        → IsRightAfter header blocks block
        → Valid header (blocks ++ block ∷ []) }
    ensures fragment { (header : Header) (before : List Block) (messages : List Message)
        → AreDistinct (messages_of before ++ messages)
        → length (messages_of before ++ messages) ≤ 65536
        → IsRightAfter header before (Fragment (length (messages_of before)) messages) }
    ensures extent { (header : Header) (before : List Block) (writer : ℕ) (records : List Call)
        → writer < header.writers
        → ¬ (IsClosed writer before)
        → AllByRecursion (IsCall (messages_of before)) records
        → NeverFalls (last_stamp header.clock.tick (records_of writer before)) records
        → IsRightAfter header before (Extent writer records) }
    ensures clock { (header : Header) (before : List Block) (clock : Clock)
        → length (clocks_of header before) < 256
        → last_tick (clocks_of header before) < clock.tick
        → AllByRecursion (λ call. call.stamp < clock.tick) (all_records before)
        → 1 ≤ clock.rate
        → IsRightAfter header before (NewClock clock) }
    ensures close { (header : Header) (before : List Block) (writer : ℕ) → writer < header.writers
        → ¬ (IsClosed writer before)
        → IsRightAfter header before (Close writer) }
{}

/// The clocks of a log are those of a run: there are 1 to 256, their ticks rise, and each ticks. No record in front of a
/// clock has reached its tick.
pub fn logs_have_clocks_of_a_run()
    ensures clocks { (header : Header) (blocks : List Block) → Valid header blocks
        → AreClocks (clocks_of header blocks) }
    ensures early { (header : Header) (before : List Block) (clock : Clock) (others : List Block)
        → Valid header (before ++ NewClock clock ∷ others)
        → AllByRecursion (λ call. call.stamp < clock.tick) (all_records before) }
    ensures worked { all_records late_fragments ≡ row_record ∷ full_record ∷ row_record ∷ full_record ∷ [] }
    ensures version { (header : Header) (clock : Clock) (bytes : List ℕ) → header.version ≡ 1
        → ¬ (SpellsClock header clock bytes) }
{}

/// A writer's records are those of its extents, in the order of the blocks, and its last stamp is
/// that of the last of them.
pub fn extents_have_the_records_of_their_writers()
    ensures own { (writer : ℕ) (before : List Block) (records : List Call) (others : List Block)
        → records_of writer (before ++ Extent writer records ∷ others)
        ≡ records_of writer before ++ (records ++ records_of writer others) }
    ensures another { (writer another : ℕ) (before : List Block) (records : List Call)
        (others : List Block) → another ≢ writer
        → records_of writer (before ++ Extent another records ∷ others)
        ≡ records_of writer before ++ records_of writer others }
    ensures worked { records_of 0 late_fragments ≡ row_record ∷ full_record ∷ [] }
    ensures no_stamp { (least : ℕ) → last_stamp least [] ≡ least }
    ensures stamp { (least : ℕ) (records : List Call) (call : Call)
        → last_stamp least (records ++ call ∷ []) ≡ call.stamp }
{}

/// No two messages of a log are equal, and there are at most 65,536. A fragment's ids go on where
/// those before it end.
pub fn messages_have_one_id()
    ensures distinct { (header : Header) (blocks : List Block) → Valid header blocks
        → AreDistinct (messages_of blocks) }
    ensures few { (header : Header) (blocks : List Block) → Valid header blocks
        → length (messages_of blocks) ≤ 65536 }
    ensures ids { (header : Header) (before : List Block) (first : ℕ) (messages : List Message)
        (others : List Block) → Valid header (before ++ Fragment first messages ∷ others)
        → first ≡ length (messages_of before) }
{}

/// Each record of a log names a message that was defined before it and fits it. No writer's stamps
/// fall, and none is below the clock's tick.
pub fn records_are_right()
    ensures defined { (header : Header) (before : List Block) (writer : ℕ) (records : List Call)
        (others : List Block) → Valid header (before ++ Extent writer records ∷ others)
        → AllByRecursion (IsCall (messages_of before)) records }
    ensures fits { (header : Header) (blocks : List Block) (writer : ℕ) → Valid header blocks
        → AllByRecursion (IsCall (messages_of blocks)) (records_of writer blocks) }
    ensures rises { (header : Header) (blocks : List Block) (writer : ℕ) → Valid header blocks
        → NeverFalls header.clock.tick (records_of writer blocks) }
{}

/// A writer is closed exactly where its close mark stands, which no other block is.
pub fn close_marks_close_their_writer()
    ensures closed { (writer : ℕ) (before others : List Block)
        → IsClosed writer (before ++ Close writer ∷ others) }
    ensures open { (writer : ℕ) (blocks : List Block)
        → AllByRecursion (λ block. block ≢ Close writer) blocks
        → ¬ (IsClosed writer blocks) }
{}

/// Extents and close marks are of the log's writers, and none of a writer follows its close mark.
pub fn closed_writers_write_no_more()
    ensures of_extent { (writer : ℕ) (records : List Call) → IsOf writer (Extent writer records) }
    ensures of_close { (writer : ℕ) → IsOf writer (Close writer) }
    ensures known { (header : Header) (writer : ℕ) (before : List Block) (block : Block)
        (others : List Block) → Valid header (before ++ block ∷ others)
        → IsOf writer block
        → writer < header.writers }
    ensures closed { (header : Header) (writer : ℕ) (before between : List Block) (block : Block)
        (others : List Block) → Valid header (before ++ Close writer ∷ between ++ block ∷ others)
        → IsOf writer block
        → ⊥ }
{}

/// No extent of a log has more records than a batch.
pub fn extents_are_within_a_batch()
    ensures all { (clocks : List Clock) (dictionary : List Message) (batch : ℕ) (before blocks : List Block)
        → IsLaidOut clocks dictionary batch before blocks
        → AllByRecursion (HasAtMost batch) blocks }
    ensures extent { (batch writer : ℕ) (records : List Call) → HasAtMost batch (Extent writer records)
        → length records ≤ batch }
{}

/// Blocks that are laid out behind blocks that are laid out are so together.
pub fn layouts_join()
    ensures { (clocks : List Clock) (dictionary : List Message) (batch : ℕ) (before blocks more : List Block)
        → IsLaidOut clocks dictionary batch before blocks
        → IsLaidOut clocks dictionary batch (before ++ blocks) more
        → IsLaidOut clocks dictionary batch before (blocks ++ more) }
{}

/// Fragments of messages define these and no others, with ids that go on, and all but the last have
/// 16.
pub fn fragments_are_full_but_the_last()
    ensures messages { (first : ℕ) (messages : List Message) (blocks : List Block)
        → AreFragments first messages blocks
        → messages_of blocks ≡ messages }
    ensures alone { (first : ℕ) (messages : List Message) (blocks : List Block)
        → AreFragments first messages blocks
        → AllByRecursion IsPreface blocks }
    ensures ids { (first id : ℕ) (messages front : List Message) (before others : List Block)
        → AreFragments first messages (before ++ Fragment id front ∷ others)
        → id ≡ first + length (messages_of before) }
    ensures full { (first id next : ℕ) (messages front : List Message) (message : Message)
        (more : List Message) (before others : List Block)
        → AreFragments first messages (before ++ Fragment id front ∷ Fragment next (message ∷ more) ∷ others)
        → length front ≡ 16 }
    ensures none { (first : ℕ) → AreFragments first [] [] }
    ensures last { (first : ℕ) (messages : List Message) → 1 ≤ length messages → length messages ≤ 16
        → AreFragments first messages (Fragment first messages ∷ []) }
    ensures sixteen { (first : ℕ) (front back : List Message) (blocks : List Block) → length front ≡ 16
        → AreFragments (first + 16) back blocks
        → AreFragments first (front ++ back) (Fragment first front ∷ blocks) }
{}

/// Records use the ids up to their greatest one. Of the messages of these ids those are new that
/// stand behind the ones that are defined.
pub fn records_want_the_messages_up_to_their_ids()
    ensures below { (records : List Call) → AllByRecursion (λ call. call.id < ids_used records) records }
    ensures least { (records : List Call) (count : ℕ)
        → AllByRecursion (λ call. call.id < count) records
        → ids_used records ≤ count }
    ensures new { (defined wanted others : List Message) (records : List Call)
        → ids_used records ≡ length (defined ++ wanted)
        → new_messages (defined ++ wanted ++ others) (length defined) records ≡ wanted }
    ensures known { (dictionary : List Message) (defined : ℕ) (records : List Call)
        → ids_used records ≤ defined
        → new_messages dictionary defined records ≡ [] }
{}

/// Records reach the clocks up to their greatest stamp. Of these the ones are new that stand behind those that are
/// written, and there are none where all clocks are.
pub fn records_want_the_clocks_up_to_their_stamps()
    ensures greatest { (records : List Call)
        → AllByRecursion (λ call. call.stamp ≤ greatest_stamp records) records }
    ensures least { (records : List Call) (stamp : ℕ)
        → AllByRecursion (λ call. call.stamp ≤ stamp) records
        → greatest_stamp records ≤ stamp }
    ensures worked { (new_clocks two_clocks 1 (call_at 1999 ∷ []) ≡ [])
        × (new_clocks two_clocks 1 (call_at 2000 ∷ []) ≡ later_clock ∷ []) }
    ensures known { (clocks : List Clock) (written : ℕ) (records : List Call) → length clocks ≤ written
        → new_clocks clocks written records ≡ [] }
{}

/// In front of an extent stand the clocks and the fragments of the messages that it wants, and no others. Behind
/// the last extent there are none.
pub fn clocks_and_fragments_stand_in_front_of_their_extent()
    ensures worked { (clock : Clock) → IsLaidOut (clock ∷ []) (row_message ∷ full_message ∷ []) 2 [] late_fragments }
    ensures wanted { (clocks : List Clock) (dictionary : List Message) (batch : ℕ) (before front : List Block)
        (writer : ℕ) (records : List Call) (others : List Block)
        → IsLaidOut clocks dictionary batch before (front ++ Extent writer records ∷ others)
        → AllByRecursion IsPreface front
        → StandsInFront clocks dictionary before records front }
    ensures behind { (clocks : List Clock) (dictionary : List Message) (batch : ℕ) (before front : List Block)
        (writer : ℕ) (records : List Call) (others : List Block)
        → IsLaidOut clocks dictionary batch before (front ++ Extent writer records ∷ others)
        → AllByRecursion IsPreface front
        → IsLaidOut clocks dictionary batch (before ++ front ++ Extent writer records ∷ []) others }
    ensures no_others { (clocks : List Clock) (dictionary : List Message) (batch : ℕ) (before front : List Block)
        → IsLaidOut clocks dictionary batch before front
        → AllByRecursion IsPreface front
        → front ≡ [] }
{}

/// A log of a run tells of the run: its front is all of it, with the run's version, its clocks, its
/// writers, the records of each, and messages from the front of the dictionary.
pub fn logs_tell_of_their_run()
    ensures whole { (bytes : List ℕ) (taken : List (List Call)) (dictionary : List Message) (version : ℕ)
        (clocks : List Clock) (batch : ℕ) (header : Header) (blocks : List Block) (count : ℕ)
        → LogOf bytes taken dictionary version clocks batch → Front bytes header blocks count
        → count ≡ length bytes }
    ensures clocks { (bytes : List ℕ) (taken : List (List Call)) (dictionary : List Message) (version : ℕ)
        (clocks : List Clock) (batch : ℕ) (header : Header) (blocks : List Block) (count : ℕ)
        → LogOf bytes taken dictionary version clocks batch → Front bytes header blocks count
        → (unwritten : List Clock) × (clocks ≡ clocks_of header blocks ++ unwritten) }
    ensures version { (bytes : List ℕ) (taken : List (List Call)) (dictionary : List Message) (version : ℕ)
        (clocks : List Clock) (batch : ℕ) (header : Header) (blocks : List Block) (count : ℕ)
        → LogOf bytes taken dictionary version clocks batch → Front bytes header blocks count
        → header.version ≡ version }
    ensures writers { (bytes : List ℕ) (taken : List (List Call)) (dictionary : List Message) (version : ℕ)
        (clocks : List Clock) (batch : ℕ) (header : Header) (blocks : List Block) (count : ℕ)
        → LogOf bytes taken dictionary version clocks batch → Front bytes header blocks count
        → header.writers ≡ length taken }
    ensures messages { (bytes : List ℕ) (taken : List (List Call)) (dictionary : List Message) (version : ℕ)
        (clocks : List Clock) (batch : ℕ) (header : Header) (blocks : List Block) (count : ℕ)
        → LogOf bytes taken dictionary version clocks batch → Front bytes header blocks count
        → (undefined : List Message) × (dictionary ≡ messages_of blocks ++ undefined) }
    ensures records { (bytes : List ℕ) (taken : List (List Call)) (dictionary : List Message) (version : ℕ)
        (clocks : List Clock) (batch : ℕ) (header : Header) (blocks : List Block) (count : ℕ)
        → LogOf bytes taken dictionary version clocks batch → Front bytes header blocks count
        → taken ≡ map (λ writer. records_of writer blocks) (range_with_len 0 (length taken)) }
    ensures layout { (bytes : List ℕ) (taken : List (List Call)) (dictionary : List Message) (version : ℕ)
        (clocks : List Clock) (batch : ℕ) (header : Header) (blocks : List Block) (count : ℕ)
        → LogOf bytes taken dictionary version clocks batch → Front bytes header blocks count
        → IsLaidOut clocks dictionary batch [] blocks }
{}

/// More bytes behind change nothing of a header or a block that is there, nor of the cause by which it breaks, unless
/// it is cut off. Each proper front of one is cut off.
pub fn more_bytes_change_nothing()
    ensures header { IsSteady Cut header_at }
    ensures block { (header : Header) (before : List Block) → IsSteady Cut (block_at header before) }
    ensures front_of_header { (front rest behind : List ℕ) (header : Header)
        → header_at (front ++ rest) ≡ Ok (header, behind)
        → length behind < length rest
        → header_at front ≡ Err Cut }
    ensures front_of_block { (header : Header) (before : List Block) (front rest behind : List ℕ) (block : Block)
        → block_at header before (front ++ rest) ≡ Ok (block, behind)
        → length behind < length rest
        → block_at header before front ≡ Err Cut }
{}

/// A right header is read as what it is, and so is a right block.
pub fn right_blocks_are_read()
    ensures header { (header : Header) (rest : List ℕ) → IsHeader header
        → header_at (header_bytes header ++ rest) ≡ Ok (header, rest) }
    ensures block { (header : Header) (before : List Block) (block : Block) (front rest : List ℕ)
        → IsRightAfter header before block
        → SpellsBlock (messages_of before) header block front
        → block_at header before (front ++ rest) ≡ Ok (block, rest) }
{}

/// What is read of a file's bytes is right: they are the block's, and it keeps the rules.
pub fn what_is_read_is_right()
    ensures { (header : Header) (before : List Block) (bytes : List ℕ) (block : Block) (rest : List ℕ)
        → Valid header before
        → AreBytes bytes
        → block_at header before bytes ≡ Ok (block, rest)
        → (front : List ℕ) × (bytes ≡ front ++ rest)
        × SpellsBlock (messages_of before) header block front
        × IsRightAfter header before block }
{}

/// A file is broken at most at one offset, where its front ends, and from one cause. A file that is a
/// log from its first byte to its last isn't broken.
pub fn files_break_at_the_end_of_their_front()
    ensures front { (bytes : List ℕ) (offset : ℕ) (cause : Cause) → Break bytes offset cause
        → (HasNoHeader bytes × (offset ≡ 0))
        ⊎ ((header : Header) × (blocks : List Block) × Front bytes header blocks offset) }
    ensures one { (bytes : List ℕ) (a b : ℕ) (cause other : Cause)
        → Break bytes a cause
        → Break bytes b other
        → (a ≡ b) × (cause ≡ other) }
    ensures whole { (header : Header) (blocks : List Block) (bytes : List ℕ) (offset : ℕ) (cause : Cause)
        → FileOf header blocks bytes
        → Valid header blocks
        → ¬ (Break bytes offset cause) }
{}

/// Bytes that are cut off at an offset break by `Cut` alone, and only there. Where they are a log up to it that is
/// their front.
pub fn cut_bytes_break_by_cut_alone()
    ensures alone { (bytes : List ℕ) (offset : ℕ) → IsCutAt bytes offset → BreaksByCutAlone bytes }
    ensures there { (bytes : List ℕ) (offset other : ℕ) (cause : Cause) → IsCutAt bytes offset
        → Break bytes other cause
        → other ≡ offset }
    ensures front { (bytes : List ℕ) (header : Header) (blocks : List Block) (offset : ℕ) → IsCutAt bytes offset
        → BeginsWithLog bytes header blocks offset
        → Front bytes header blocks offset }
{}

/// A file of bytes begins with a header and has a front, or it has no header.
pub fn front_or_none()
    ensures { (bytes : List ℕ) → All (λ byte. byte < 256) bytes
        → ((header : Header) × (blocks : List Block) × (count : ℕ) × Front bytes header blocks count)
        ⊎ HasNoHeader bytes }
{}

/// A file of bytes is a log from its first byte to its last, or it breaks, and never both.
pub fn whole_or_breaks()
    ensures either { (bytes : List ℕ) → All (λ byte. byte < 256) bytes
        → ((header : Header) × (blocks : List Block) × FileOf header blocks bytes × Valid header blocks)
        ⊎ ((offset : ℕ) × (cause : Cause) × Break bytes offset cause) }
    ensures not_both { (bytes : List ℕ) (header : Header) (blocks : List Block) (offset : ℕ) (cause : Cause)
        → FileOf header blocks bytes
        → Valid header blocks
        → ¬ (Break bytes offset cause) }
{}

/// The worked log with one byte changed, cut off, or with a block behind its close mark.
pub fn worked_breaks()
    ensures no_bytes { Break [] 0 Cut }
    ensures other_magic { Break (slice_set row_bytes 0 0) 0 BadMagic }
    ensures other_version { Break (slice_set row_bytes 4 9) 0 BadVersion }
    ensures no_writers { Break (slice_set row_bytes 5 0) 0 BadHeader }
    ensures other_tag { Break (slice_set row_bytes 30 7) 30 BadBlock }
    ensures other_first_id { Break (slice_set row_bytes 31 1) 30 FragmentOrder }
    ensures no_messages { Break (slice_set row_bytes 35 0) 30 BadLength }
    ensures other_severity { Break (slice_set row_bytes 37 5) 30 BadEntry }
    ensures other_writer { Break (slice_set row_bytes 57 1) 56 UnknownWriter }
    ensures cut_at_60 { Break (take 60 row_bytes) 56 Cut }
    ensures closed_twice { Break (row_bytes ++ 4 ∷ 0 ∷ []) 68 AfterClose }
{}

/// The worked log of two clocks with one field changed, cut off, or with the clock behind the call. In version 1 the
/// block of a clock is none.
pub fn worked_breaks_of_two_clocks()
    ensures other_version { Break (slice_set clock_file 4 3) 0 BadVersion }
    ensures no_writers { Break (slice_set clock_file 5 0) 0 BadHeader }
    ensures too_many_writers { Break (slice_set (slice_set clock_file 5 1) 6 4) 0 BadHeader }
    ensures other_tag { Break (slice_set clock_file 31 5) 31 BadBlock }
    ensures same_tick { Break (slice_set (slice_set clock_file 32 232) 33 3) 31 ClockOrder }
    ensures no_rate { Break (slice_set (slice_set (slice_set clock_file 49 0) 50 0) 51 0) 31 BadRate }
    ensures late { Break late_clock_file 69 ClockLate }
    ensures other_writer { Break (slice_set clock_file 84 1) 82 UnknownWriter }
    ensures cut { Break (take 55 clock_file) 31 Cut }
    ensures version_1 { Break (row_header_bytes ++ later_clock_bytes) 30 BadBlock }
    ensures tick_before_rate { Break (take 40 (slice_set (slice_set clock_file 32 232) 33 3)) 31 ClockOrder }
{}

/// Where several causes hold the one is told that is met first, and a field is judged before the file ends behind it.
pub fn worked_orders()
    ensures magic_before_version { Break (slice_set (slice_set row_bytes 0 0) 4 9) 0 BadMagic }
    ensures version_before_writers { Break (slice_set (slice_set row_bytes 4 9) 5 0) 0 BadVersion }
    ensures writers_before_cut { Break (take 6 (slice_set row_bytes 5 0)) 0 BadHeader }
    ensures first_id_before_count { Break (slice_set (slice_set row_bytes 31 1) 35 0) 30 FragmentOrder }
    ensures severity_before_cut { Break (take 38 (slice_set row_bytes 37 5)) 30 BadEntry }
    ensures writer_before_length { Break (slice_set (slice_set row_bytes 57 1) 58 0) 56 UnknownWriter }
    ensures length_before_cut { Break (take 62 (slice_set row_bytes 58 0)) 56 BadLength }
    ensures closed_before_length { Break (row_bytes ++ 2 ∷ 0 ∷ 0 ∷ 0 ∷ 0 ∷ 0 ∷ []) 68 AfterClose }
{}

/// All causes, each with its number and its name.
pub fn causes_have_numbers_and_names()
    ensures { (cause : Cause) → Contains {X = Cause × ℕ × List ℕ}
        ((BadMagic, 1, codes "BadMagic") ∷ (BadVersion, 2, codes "BadVersion")
        ∷ (BadHeader, 3, codes "BadHeader") ∷ (Cut, 4, codes "Cut") ∷ (BadBlock, 5, codes "BadBlock")
        ∷ (FragmentOrder, 6, codes "FragmentOrder") ∷ (BadEntry, 7, codes "BadEntry")
        ∷ (UnknownWriter, 8, codes "UnknownWriter") ∷ (AfterClose, 9, codes "AfterClose")
        ∷ (BadLength, 10, codes "BadLength") ∷ (Body BodyCause.RecordCut, 11, codes "RecordCut")
        ∷ (Body BodyCause.UnknownId, 12, codes "UnknownId") ∷ (Body BodyCause.BadNibble, 13, codes "BadNibble")
        ∷ (Body BodyCause.NotShortest, 14, codes "NotShortest")
        ∷ (Body BodyCause.StampRange, 15, codes "StampRange")
        ∷ (Body BodyCause.StampFalls, 16, codes "StampFalls") ∷ (Body BodyCause.ArgRange, 17, codes "ArgRange")
        ∷ (Body BodyCause.NulInText, 18, codes "NulInText") ∷ (Body BodyCause.TooLong, 19, codes "TooLong")
        ∷ (TooLarge, 20, codes "TooLarge") ∷ (ClockOrder, 21, codes "ClockOrder")
        ∷ (ClockLate, 22, codes "ClockLate") ∷ (BadRate, 23, codes "BadRate")
        ∷ (ClockCount, 24, codes "ClockCount") ∷ [])
        (cause, cause_number cause, cause_name cause) }
{}

/// A header begins with `NLOG`, the version and the number of writers. In version 1 it has 30 bytes, a
/// fragment's head has 7 with the tag 1, an extent's has 6 with the tag 2, and a close mark has 2 with
/// the tag 4. A clock has 25 with the tag 3.
pub fn heads_have_lengths_and_tags()
    ensures header { (header : Header) → length (header_bytes header) ≡ header_len header.version }
    ensures magic { (header : Header) → take 5 (header_bytes header) ≡ codes "NLOG" ++ header.version ∷ [] }
    ensures front { (header : Header) → header.version ≡ 1 → header.writers ≤ 64
        → take 6 (header_bytes header) ≡ codes "NLOG" ++ 1 ∷ header.writers ∷ [] }
    ensures fragment { (first count : ℕ) → length (fragment_head_bytes first count) ≡ 7 }
    ensures fragment_tag { (first count : ℕ) → take 1 (fragment_head_bytes first count) ≡ 1 ∷ [] }
    ensures extent { (version writer len : ℕ)
        → length (extent_head_bytes version writer len) ≡ extent_head_len version }
    ensures extent_tag { (version writer len : ℕ) → take 1 (extent_head_bytes version writer len) ≡ 2 ∷ [] }
    ensures extent_writer { (writer len : ℕ) → writer < 256
        → take 2 (extent_head_bytes 1 writer len) ≡ 2 ∷ writer ∷ [] }
    ensures clock { (clock : Clock) → length (clock_bytes clock) ≡ CLOCK_LEN }
    ensures clock_tag { (clock : Clock) → take 1 (clock_bytes clock) ≡ 3 ∷ [] }
    ensures close { (version writer : ℕ) → length (close_bytes version writer) ≡ close_len version }
    ensures close_tag { (version writer : ℕ) → take 1 (close_bytes version writer) ≡ 4 ∷ [] }
    ensures close_writer { (writer : ℕ) → writer < 256 → close_bytes 1 writer ≡ 4 ∷ writer ∷ [] }
{}

/// At most 134,217,728 bytes of a log are read. A body of version 1 has at most 65,536 of them, and a
/// fragment at most 16 messages.
pub fn logs_have_limits()
    ensures log { MAX_LOG ≡ 134217728 }
    ensures body { (MAX_BODY ≡ 65536) × (most_body 1 ≡ MAX_BODY) }
    ensures fragment { MAX_FRAGMENT_MESSAGES ≡ 16 }
{}
