//! The reader of a log.

ghost use Rattle.std.specs.Prelude.{◌≡◌, ◌≤◌, List, [], ◌++◌, length, take, true, false, IfOk, IfSome, IfNone, OnOk, OnErr, IsErrOf, Err, ℕ};
ghost use Rattle.std.specs.List.{list_any};
ghost use Rattle.nl_io.specs.Count.{Rose};
ghost use Rattle.nl_io.specs.Content.{IsAtEnd};
ghost use Rattle.checkpoint_io.specs.declared.cause.Cause.{Cause as LogCause};
ghost use Rattle.checkpoint_io.specs.declared.cause.Cause.TheVariants.{Cut};
ghost use Rattle.checkpoint_io.specs.declared.version.TheConstants.{MAX_READ_BODY};
ghost use Rattle.checkpoint_io.specs.Places.{with_front, TookSuch};
ghost use Rattle.checkpoint_io.specs.Readers.{StandsFor};
ghost use Rattle.checkpoint_io.specs.Writers.{closed_kept};
ghost use Rattle.checkpoint_io.specs.Fronts.{Break, IsCutAt};
ghost use Rattle.checkpoint_io.specs.Validity.{closes};
ghost use Rattle.checkpoint_io.specs.NextBlocks.{AnswersNext, StopsAt};

use crate::block::Block;
use crate::block_reading::read_block;
use crate::cause::Cause;
use crate::fault::BlockFault;
use crate::header::Header;
use crate::header_reading::read_header;
use crate::heads::MAX_LOG;
use crate::pending::Pending;
use crate::times::Times;
use crate::writers::Writers;
use log_dictionary::{Clocks, Dictionary};
use nl_io::Source;
use std::alloc::Global;
use std::marker::Model;

/// What was read of a log so far. It keeps no source; the bytes that a source gave and that weren't
/// read yet are kept here.
#[derive(Debug, Drop)]
pub struct Reader {
    alloc: Global,
    header: Header,
    dictionary: Dictionary,
    writers: Writers,
    times: Times,
    pending: Pending,
    body: Vec<u8>,
    offset: u64,
    failed: bool,
}

impl Model for Reader {
    ghost use Rattle.std.specs.Prelude.{◌≤◌, length};
    ghost use Rattle.checkpoint_io.specs.declared.version.TheConstants.{MAX_READ_BODY};
    ghost use Rattle.checkpoint_io.specs.Readers.{ReaderState};

    ghost Value = { ReaderState };

    ghost view = { λ r. record {
      header = r.header;
      messages = r.dictionary;
      writers = r.writers;
      times = r.times;
      waiting = r.pending;
      body = r.body.items;
      offset = r.offset;
      failed = r.failed;
    } };

    ghost invariant = { λ r. length r.body.items ≤ MAX_READ_BODY };
}

impl Reader {
    /// Reads the header that a source begins with.
    ///
    /// # Errors
    ///
    /// The source begins with no header, a read failed before its end, or there is no memory.
    pub fn start<S: Source>(alloc: Global, source: &mut S) -> Result<Reader, BlockFault>
        // The reader stands for the header alone, behind which stands what waits and what the source has left.
        ensures ok { IfOk result (λ reader. (taken : List ℕ) × (read : StandsFor reader taken) × (read.blocks ≡ [])
            × (S.left source.old ≡ with_front (taken ++ reader.waiting.bytes) (S.left source.new))) }
        ensures right { IfOk result (λ reader. reader.failed ≡ false) }
        ensures damaged { (cause : LogCause) → result ≡ Err (BlockFault.Damaged cause)
            → IfSome (S.left source.old) (λ bytes. Break bytes 0 cause) }
        // The bytes that were taken end inside the header.
        ensures cut { IsErrOf result BlockFault.ReadFault
            → TookSuch (λ bytes. Break bytes 0 Cut) (S.left source.old) (S.left source.new) }
        ensures read_fault { IsErrOf result BlockFault.ReadFault
            → Rose (S.faults source.old) (S.faults source.new) }
        ensures counted { ¬ (IsErrOf result BlockFault.ReadFault)
            → S.faults source.new ≡ S.faults source.old }
        ensures count { S.faults source.old ≤ S.faults source.new }
        ensures others { S.rest source.old source.new }
    {
        let mut pending = Pending::none(alloc);
        let header = read_header(&mut pending, source)?;
        let offset = pending.offset();
        let writers = Writers::make(alloc, header.writers, header.clock.tick)?;
        let times = Times::make(alloc, header.clock)?;
        Ok(Reader {
            alloc,
            header,
            dictionary: Dictionary::make(alloc),
            writers,
            times,
            pending,
            body: Vec::new(alloc),
            offset,
            failed: false,
        })
    }

    // The next block, if there is one. What it says is kept; in front of a fault some of it may be.
    fn take_block<S: Source>(&mut self, source: &mut S) -> Result<Option<Block>, BlockFault>
        ensures ok { (taken : List ℕ) (before : StandsFor self.old taken) → IfOk result (λ answer.
            AnswersNext self.old self.new taken before answer (S.left source.old) (S.left source.new)) }
        ensures end { IfOk result (λ answer. IfNone answer (IsAtEnd (S.left source.new))) }
        ensures damaged { (taken : List ℕ) (cause : LogCause) → StandsFor self.old taken
            → result ≡ Err (BlockFault.Damaged cause)
            → IfSome (with_front (taken ++ self.old.waiting.bytes) (S.left source.old))
            (λ bytes. StopsAt bytes self.old.offset cause) }
        ensures cut { (taken : List ℕ) → StandsFor self.old taken → IsErrOf result BlockFault.ReadFault
            → TookSuch (λ bytes. IsCutAt (taken ++ bytes) self.old.offset)
            (with_front self.old.waiting.bytes (S.left source.old)) (S.left source.new) }
        ensures kept { OnErr result ((self.new.offset ≡ self.old.offset)
            × (self.new.times.clocks ≡ self.old.times.clocks)) }
        ensures failed { self.new.failed ≡ self.old.failed }
        ensures header { self.new.header ≡ self.old.header }
        ensures defined { take (length self.old.messages) self.new.messages ≡ self.old.messages }
        ensures read_fault { IsErrOf result BlockFault.ReadFault
            → Rose (S.faults source.old) (S.faults source.new) }
        ensures counted { ¬ (IsErrOf result BlockFault.ReadFault)
            → S.faults source.new ≡ S.faults source.old }
        ensures count { S.faults source.old ≤ S.faults source.new }
        ensures others { S.rest source.old source.new }
    {
        if !self.pending.fill(source, 1)? {
            return Ok(None);
        }
        let block = read_block(
            self.alloc,
            &mut self.pending,
            source,
            &self.header,
            &mut self.dictionary,
            &mut self.writers,
            &mut self.times,
            &mut self.body,
        )?;
        let end = self.pending.offset();
        if end > MAX_LOG {
            return Err(BlockFault::Damaged(Cause::TooLarge));
        }
        self.offset = end;
        self.times.add(&block);
        Ok(Some(block))
    }

    /// Reads the next block. There is none where the source ends behind the header or a whole block: nothing is
    /// left of it then.
    ///
    /// # Errors
    ///
    /// The file is broken there, the block ends past `MAX_LOG`, a read failed, or there is no memory.
    /// The reader has failed then.
    pub fn next_block<S: Source>(&mut self, source: &mut S) -> Result<Option<Block>, BlockFault>
        requires { self.old.failed ≡ false }
        ensures ok { (taken : List ℕ) (before : StandsFor self.old taken) → IfOk result (λ answer.
            AnswersNext self.old self.new taken before answer (S.left source.old) (S.left source.new)) }
        ensures end { IfOk result (λ answer. IfNone answer (IsAtEnd (S.left source.new))) }
        ensures damaged { (taken : List ℕ) (cause : LogCause) → StandsFor self.old taken
            → result ≡ Err (BlockFault.Damaged cause)
            → IfSome (with_front (taken ++ self.old.waiting.bytes) (S.left source.old))
            (λ bytes. StopsAt bytes self.old.offset cause) }
        // With those that were taken since then the bytes are cut off there.
        ensures cut { (taken : List ℕ) → StandsFor self.old taken → IsErrOf result BlockFault.ReadFault
            → TookSuch (λ bytes. IsCutAt (taken ++ bytes) self.old.offset)
            (with_front self.old.waiting.bytes (S.left source.old)) (S.left source.new) }
        ensures kept { OnErr result ((self.new.offset ≡ self.old.offset)
            × (self.new.times.clocks ≡ self.old.times.clocks)) }
        ensures failed { OnOk result (self.new.failed ≡ false) × OnErr result (self.new.failed ≡ true) }
        ensures header { self.new.header ≡ self.old.header }
        ensures defined { take (length self.old.messages) self.new.messages ≡ self.old.messages }
        ensures read_fault { IsErrOf result BlockFault.ReadFault
            → Rose (S.faults source.old) (S.faults source.new) }
        ensures counted { ¬ (IsErrOf result BlockFault.ReadFault)
            → S.faults source.new ≡ S.faults source.old }
        ensures count { S.faults source.old ≤ S.faults source.new }
        ensures others { S.rest source.old source.new }
    {
        match self.take_block(source) {
            Ok(block) => Ok(block),
            Err(fault) => {
                self.failed = true;
                Err(fault)
            }
        }
    }

    /// What the front of the log says of all that follows.
    pub fn header(&self) -> &Header
        ensures { result.now ≡ self.now.header }
    {
        &self.header
    }

    /// The messages that were defined so far.
    pub fn dictionary(&self) -> &Dictionary
        ensures { result.now ≡ self.now.messages }
    {
        &self.dictionary
    }

    /// The body of the extent that was read last.
    pub fn body(&self) -> &[u8]
        ensures same { result.now ≡ self.now.body }
        ensures few { length result.now ≤ MAX_READ_BODY }
    {
        self.body.as_slice()
    }

    /// The clocks that were read so far: that of the header, and those of the blocks.
    pub fn clocks(&self) -> &Clocks
        ensures { result.now ≡ self.now.times.clocks }
    {
        self.times.clocks()
    }

    /// The offset at which the next block begins, or the one that failed.
    pub fn offset(&self) -> u64
        ensures { result ≡ self.now.offset }
    {
        self.offset
    }

    /// Whether a block failed, so that no more are read.
    pub fn failed(&self) -> bool
        ensures { result ≡ self.now.failed }
    {
        self.failed
    }

    /// Whether a close mark of the writer was read.
    pub fn is_closed(&self, writer: u32) -> bool
        ensures closed { (taken : List ℕ) (before : StandsFor self.now taken)
            → result ≡ list_any (closes writer) before.blocks }
        ensures kept { result ≡ closed_kept self.now.writers writer }
    {
        self.writers.is_closed(writer)
    }
}
