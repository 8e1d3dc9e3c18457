//! Bringing the rings of a session together again.

ghost use Rattle.std.specs.Prelude.{◌≡◌, ◌+◌, ◌<◌, ◌≤◌, ◌^◌, ◌++◌, List, length, sum_by, vec_len};
ghost use Rattle.std.specs.Vec.{vec_capacity};
ghost use Rattle.roaming_consumer.specs.Roamers.{ends_of};
ghost use Rattle.log_session.specs.Starts.{ShareRings};
ghost use Rattle.log_session.specs.Settling.{IsRejoined, AllZip3, OneMore};

use crate::writer::Writer;
use ring_core::{Stage, StageDone};
use roaming_consumer::Roamer;

/// Brings the two ends of a ring together, and puts what is left of it behind the others. It answers how many calls
/// were taken from it.
fn rejoin<S: Stage>(writer: Writer<S::In>, end: S::Out, into: &mut Vec<S::Done>) -> u64
    requires ring { S.In.pair writer.end ≡ S.Out.pair end }
    requires room { vec_len into.old < vec_capacity into.old }
    ensures more { OneMore (IsRejoined S.In.sent S.In.closed S.Out.got S.Out.ended
        S.Done.sent S.Done.got S.Done.closed S.Done.ended) S.Done.got writer end into.old.items into.new.items result }
    ensures few { result ≤ writer.accepted }
    ensures room { (vec_len into.new ≡ vec_len into.old + 1) × (vec_capacity into.new ≡ vec_capacity into.old) }
{
    let left = S::settle(writer.into_end(), end);
    let taken = left.frames();
    into.push_reserved(left);
    taken
}

/// Brings the ends of each ring together, when nothing more is logged or taken. What is left of the rings is put behind
/// what `into` has, in the order of the writers. It answers how many calls were taken from all of them.
pub fn settle<S: Stage>(
    writers: Vec<Writer<S::In>>,
    roamer: Roamer<'_, S::Out>,
    into: &mut Vec<S::Done>,
) -> u64
    requires rings { ShareRings S.In.pair S.Out.pair writers.items (ends_of roamer) }
    requires room { vec_len into.old + length writers.items ≤ vec_capacity into.old }
    requires few { sum_by (λ writer. writer.accepted) writers.items < 2 ^ 64 }
    ensures { (left : List S.Done) × (into.new.items ≡ into.old.items ++ left)
        × AllZip3 (IsRejoined S.In.sent S.In.closed S.Out.got S.Out.ended
        S.Done.sent S.Done.got S.Done.closed S.Done.ended) writers.items (ends_of roamer.entry) left
        × (result ≡ sum_by (λ done. length (S.Done.got done)) left) }
{
    let mut ends = roamer.into_ends().into_iter();
    let mut taken = 0;
    for writer in writers {
        let Some(end) = ends.next() else {
            break;
        };
        taken += rejoin::<S>(writer, end, into);
    }
    taken
}
