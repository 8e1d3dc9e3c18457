//! Reading a clock of a log.

ghost use Rattle.std.specs.Prelude.{◌≡◌, ◌≤◌, List, IsErrOf};
ghost use Rattle.nl_io.specs.Count.{Rose};
ghost use Rattle.checkpoint_io.specs.Blocks.{Block as LogBlock};
ghost use Rattle.checkpoint_io.specs.Places.{log_place, ReadsAs};
ghost use Rattle.checkpoint_io.specs.Reading.{clock_nanos_at, next_tick_at, next_clock_at};
ghost use Rattle.checkpoint_io.specs.Times.{AreTimesOf};
ghost use Rattle.checkpoint_io.specs.declared.header.Header.{Header as LogHeader};

use crate::cause::Cause;
use crate::fault::BlockFault;
use crate::pending::Pending;
use crate::steps::take_number;
use crate::times::Times;
use log_dictionary::Clock;
use nl_io::Source;

// The tick, which is above that of the clock before and above all stamps before.
fn take_tick<S: Source>(
    pending: &mut Pending,
    source: &mut S,
    times: &Times,
) -> Result<u64, BlockFault>
    ensures read { (header : LogHeader) (before : List LogBlock) → AreTimesOf times.now header before
        → ReadsAs (next_tick_at header before)
        (log_place pending.old (S.left source.old)) (log_place pending.new (S.left source.new)) (S.left source.new)
        result }
    ensures read_fault { IsErrOf result BlockFault.ReadFault
        → Rose (S.faults source.old) (S.faults source.new) }
    ensures counted { ¬ (IsErrOf result BlockFault.ReadFault)
        → S.faults source.new ≡ S.faults source.old }
    ensures count { S.faults source.old ≤ S.faults source.new }
    ensures others { S.rest source.old source.new }
{
    let tick = take_number(pending, source, 8)?;
    if tick <= times.last_tick() {
        return Err(BlockFault::Damaged(Cause::ClockOrder));
    }
    if tick <= times.greatest() {
        return Err(BlockFault::Damaged(Cause::ClockLate));
    }
    Ok(tick)
}

// What stands behind the tick.
fn take_rest<S: Source>(
    pending: &mut Pending,
    source: &mut S,
    tick: u64,
) -> Result<Clock, BlockFault>
    ensures read { ReadsAs (clock_nanos_at tick)
        (log_place pending.old (S.left source.old)) (log_place pending.new (S.left source.new)) (S.left source.new)
        result }
    ensures read_fault { IsErrOf result BlockFault.ReadFault
        → Rose (S.faults source.old) (S.faults source.new) }
    ensures counted { ¬ (IsErrOf result BlockFault.ReadFault)
        → S.faults source.new ≡ S.faults source.old }
    ensures count { S.faults source.old ≤ S.faults source.new }
    ensures others { S.rest source.old source.new }
{
    let nanos = take_number(pending, source, 8)?;
    let rate = take_number(pending, source, 8)?;
    if rate == 0 {
        return Err(BlockFault::Damaged(Cause::BadRate));
    }
    Ok(Clock { tick, nanos, rate })
}

/// The clock behind its tag.
pub fn read_clock<S: Source>(
    pending: &mut Pending,
    source: &mut S,
    times: &Times,
) -> Result<Clock, BlockFault>
    ensures read { (header : LogHeader) (before : List LogBlock) → AreTimesOf times.now header before
        → ReadsAs (next_clock_at header before)
        (log_place pending.old (S.left source.old)) (log_place pending.new (S.left source.new)) (S.left source.new)
        result }
    ensures read_fault { IsErrOf result BlockFault.ReadFault
        → Rose (S.faults source.old) (S.faults source.new) }
    ensures counted { ¬ (IsErrOf result BlockFault.ReadFault)
        → S.faults source.new ≡ S.faults source.old }
    ensures count { S.faults source.old ≤ S.faults source.new }
    ensures others { S.rest source.old source.new }
{
    if times.is_full() {
        return Err(BlockFault::Damaged(Cause::ClockCount));
    }
    let tick = take_tick(pending, source, times)?;
    take_rest(pending, source, tick)
}
