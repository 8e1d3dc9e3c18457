//! Reading the header of a log.

ghost use Rattle.std.specs.Prelude.{IfOk, IsErrOf, ◌≡◌, ◌≤◌};
ghost use Rattle.nl_io.specs.Count.{Rose};
ghost use Rattle.checkpoint_io.specs.Places.{log_place, ReadsAs};
ghost use Rattle.checkpoint_io.specs.Reading.{header_clock_at, header_writers_at, header_version_at, header_letters_at, header_at};

use crate::cause::Cause;
use crate::fault::BlockFault;
use crate::header::Header;
use crate::heads::MAGIC;
use crate::pending::Pending;
use crate::steps::{take_byte, take_number};
use crate::version::{is_known, most_writers, writer_len};
use log_dictionary::Clock;
use nl_io::Source;

fn read_clock<S: Source>(
    pending: &mut Pending,
    source: &mut S,
    version: u8,
    writers: u32,
) -> Result<Header, BlockFault>
    ensures read { ReadsAs (header_clock_at version writers)
        (log_place pending.old (S.left source.old)) (log_place pending.new (S.left source.new)) (S.left source.new)
        result }
    ensures rate { IfOk result (λ header. 1 ≤ header.clock.rate) }
    ensures read_fault { IsErrOf result BlockFault.ReadFault
        → Rose (S.faults source.old) (S.faults source.new) }
    ensures counted { ¬ (IsErrOf result BlockFault.ReadFault)
        → S.faults source.new ≡ S.faults source.old }
    ensures count { S.faults source.old ≤ S.faults source.new }
    ensures others { S.rest source.old source.new }
{
    let tick = take_number(pending, source, 8)?;
    let nanos = take_number(pending, source, 8)?;
    let rate = take_number(pending, source, 8)?;
    if rate == 0 {
        return Err(BlockFault::Damaged(Cause::BadHeader));
    }
    let clock = Clock { tick, nanos, rate };
    Ok(Header {
        version,
        writers,
        clock,
    })
}

fn read_writers<S: Source>(
    pending: &mut Pending,
    source: &mut S,
    version: u8,
) -> Result<Header, BlockFault>
    ensures read { ReadsAs (header_writers_at version)
        (log_place pending.old (S.left source.old)) (log_place pending.new (S.left source.new)) (S.left source.new)
        result }
    ensures rate { IfOk result (λ header. 1 ≤ header.clock.rate) }
    ensures read_fault { IsErrOf result BlockFault.ReadFault
        → Rose (S.faults source.old) (S.faults source.new) }
    ensures counted { ¬ (IsErrOf result BlockFault.ReadFault)
        → S.faults source.new ≡ S.faults source.old }
    ensures count { S.faults source.old ≤ S.faults source.new }
    ensures others { S.rest source.old source.new }
{
    let writers = take_number(pending, source, writer_len(version))?;
    if writers == 0 || writers > u64::from(most_writers(version)) {
        return Err(BlockFault::Damaged(Cause::BadHeader));
    }
    read_clock(pending, source, version, writers as u32)
}

fn read_version<S: Source>(pending: &mut Pending, source: &mut S) -> Result<Header, BlockFault>
    ensures read { ReadsAs header_version_at
        (log_place pending.old (S.left source.old)) (log_place pending.new (S.left source.new)) (S.left source.new)
        result }
    ensures rate { IfOk result (λ header. 1 ≤ header.clock.rate) }
    ensures read_fault { IsErrOf result BlockFault.ReadFault
        → Rose (S.faults source.old) (S.faults source.new) }
    ensures counted { ¬ (IsErrOf result BlockFault.ReadFault)
        → S.faults source.new ≡ S.faults source.old }
    ensures count { S.faults source.old ≤ S.faults source.new }
    ensures others { S.rest source.old source.new }
{
    let version = take_byte(pending, source)?;
    if !is_known(version) {
        return Err(BlockFault::Damaged(Cause::BadVersion));
    }
    read_writers(pending, source, version)
}

// The header, of which these letters are still to come.
fn read_letters<S: Source>(
    pending: &mut Pending,
    source: &mut S,
    letters: &[u8],
) -> Result<Header, BlockFault>
    ensures read { ReadsAs (header_letters_at letters.now)
        (log_place pending.old (S.left source.old)) (log_place pending.new (S.left source.new)) (S.left source.new)
        result }
    ensures rate { IfOk result (λ header. 1 ≤ header.clock.rate) }
    ensures read_fault { IsErrOf result BlockFault.ReadFault
        → Rose (S.faults source.old) (S.faults source.new) }
    ensures counted { ¬ (IsErrOf result BlockFault.ReadFault)
        → S.faults source.new ≡ S.faults source.old }
    ensures count { S.faults source.old ≤ S.faults source.new }
    ensures others { S.rest source.old source.new }
{
    let [letter, others @ ..] = letters else {
        return read_version(pending, source);
    };
    if take_byte(pending, source)? != *letter {
        return Err(BlockFault::Damaged(Cause::BadMagic));
    }
    read_letters(pending, source, others)
}

/// The header that the front of a file has.
pub fn read_header<S: Source>(pending: &mut Pending, source: &mut S) -> Result<Header, BlockFault>
    ensures read { ReadsAs header_at
        (log_place pending.old (S.left source.old)) (log_place pending.new (S.left source.new)) (S.left source.new)
        result }
    ensures rate { IfOk result (λ header. 1 ≤ header.clock.rate) }
    ensures read_fault { IsErrOf result BlockFault.ReadFault
        → Rose (S.faults source.old) (S.faults source.new) }
    ensures counted { ¬ (IsErrOf result BlockFault.ReadFault)
        → S.faults source.new ≡ S.faults source.old }
    ensures count { S.faults source.old ≤ S.faults source.new }
    ensures others { S.rest source.old source.new }
{
    read_letters(pending, source, MAGIC)
}
