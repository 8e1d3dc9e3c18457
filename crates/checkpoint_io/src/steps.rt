//! The steps in which a file is read: a byte, a number, a run of bytes.

ghost use Rattle.std.specs.Prelude.{◌≡◌, ◌<◌, ◌≤◌, ◌^◌, length, take, IfOk, IsErrOf};
ghost use Rattle.std.specs.Hash.{le_bytes};
ghost use Rattle.nl_io.specs.Count.{Rose};
ghost use Rattle.nibble_pack.specs.Parsing.{first_byte, low_first};
ghost use Rattle.checkpoint_io.specs.Places.{log_place, ReadsAs};

use crate::cause::Cause;
use crate::fault::BlockFault;
use crate::pending::Pending;
use byteorder::{ByteOrder, LittleEndian};
use nl_io::Source;

/// A byte.
pub fn take_byte<S: Source>(pending: &mut Pending, source: &mut S) -> Result<u8, BlockFault>
    ensures read { ReadsAs (first_byte Cause.Cut)
        (log_place pending.old (S.left source.old)) (log_place pending.new (S.left source.new)) (S.left source.new)
        result }
    ensures read_fault { IsErrOf result BlockFault.ReadFault
        → Rose (S.faults source.old) (S.faults source.new) }
    ensures counted { ¬ (IsErrOf result BlockFault.ReadFault)
        → S.faults source.new ≡ S.faults source.old }
    ensures count { S.faults source.old ≤ S.faults source.new }
    ensures others { S.rest source.old source.new }
{
    if !pending.fill(source, 1)? {
        return Err(BlockFault::Damaged(Cause::Cut));
    }
    let byte = pending.bytes()[0];
    pending.skip(1);
    Ok(byte)
}

/// The number of so many bytes, from 1 to 8, that the bytes begin with.
fn first_number(bytes: &[u8], size: usize) -> u64
    requires some { 1 ≤ size }
    requires few { size ≤ 8 }
    requires within { size ≤ length bytes.now }
    ensures fits { result < 256 ^ size }
    ensures first { take size bytes.now ≡ le_bytes size result }
{
    LittleEndian::read_uint(bytes, size)
}

/// A number of so many bytes, from 1 to 8.
pub fn take_number<S: Source>(
    pending: &mut Pending,
    source: &mut S,
    size: usize,
) -> Result<u64, BlockFault>
    requires some { 1 ≤ size }
    requires few { size ≤ 8 }
    ensures fits { IfOk result (λ n. n < 256 ^ size) }
    ensures read { ReadsAs (low_first size Cause.Cut)
        (log_place pending.old (S.left source.old)) (log_place pending.new (S.left source.new)) (S.left source.new)
        result }
    ensures read_fault { IsErrOf result BlockFault.ReadFault
        → Rose (S.faults source.old) (S.faults source.new) }
    ensures counted { ¬ (IsErrOf result BlockFault.ReadFault)
        → S.faults source.new ≡ S.faults source.old }
    ensures count { S.faults source.old ≤ S.faults source.new }
    ensures others { S.rest source.old source.new }
{
    if !pending.fill(source, size)? {
        return Err(BlockFault::Damaged(Cause::Cut));
    }
    let number = first_number(pending.bytes(), size);
    pending.skip(size);
    Ok(number)
}
