//! Starting a session by hand: its writers, and the roamer that takes their calls.

ghost use Rattle.std.specs.Prelude.{◌≡◌, ◌⊎◌, ◌↔◌, ◌<◌, ◌≤◌, [], true, false, IfOk, OnOk, IsErrOf, length};
ghost use Rattle.std.specs.List.{AllZip};
ghost use Rattle.log_dictionary.specs.Clocks.{first_tick};
ghost use Rattle.checkpoint_io.specs.Versions.{is_known, has_clocks, most_writers};
ghost use Rattle.ring_core.specs.Plans.{plan_of};
ghost use Rattle.session_options.specs.declared.limits.TheConstants.{MAX_BATCH};
ghost use Rattle.session_options.specs.declared.limits.TheConstants.{MIN_RING, MAX_RING};
ghost use Rattle.log_session.specs.Writers.{IsDictionaryPlan};
ghost use Rattle.roaming_consumer.specs.Roamers.{ends_of, roamer_messages, roamer_version, roamer_clocks, roamer_batch, is_begun, is_faulted, ArePlanned, RoamerStandsFor};
ghost use Rattle.log_session.specs.Starts.{IsNewRing, AllZipMore};

use crate::writer::Writer;
use log_dictionary::{Clocks, Dictionary, Message};
use ring_core::{Stage, StageFault};
use roaming_consumer::Roamer;
use session_options::{MAX_RING, MIN_RING};
use std::alloc::{AllocError, Global};

/// The ends of a new ring: the writer's, as a writer, and the roamer's.
fn open_ring<S: Stage>(
    alloc: Global,
    ring: u64,
    messages: &[Message],
    first: u64,
) -> Result<(Writer<S::In>, S::Out), AllocError>
    requires ring { (MIN_RING ≤ ring) × (ring ≤ MAX_RING) }
    requires plan { IsDictionaryPlan (plan_of messages.now first) }
    ensures { IfOk result (λ ends. IsNewRing ring (plan_of messages.now first)
        S.In.pair S.In.words S.In.plan S.In.sent S.In.closed S.In.at S.In.seen
        S.Out.pair S.Out.plan S.Out.got S.Out.ended ends.0 ends.1) }
{
    let Ok((end, other)) = S::make(alloc, ring, messages, first) else {
        return Err(AllocError);
    };
    Ok((Writer::over(end, first), other))
}

/// Adds the ends of a new ring.
fn add_ring<S: Stage>(
    alloc: Global,
    ring: u64,
    messages: &[Message],
    first: u64,
    ours: &mut Vec<Writer<S::In>>,
    theirs: &mut Vec<S::Out>,
) -> Result<(), AllocError>
    requires ring { (MIN_RING ≤ ring) × (ring ≤ MAX_RING) }
    requires plan { IsDictionaryPlan (plan_of messages.now first) }
    ensures { OnOk result (AllZipMore (IsNewRing ring (plan_of messages.now first)
        S.In.pair S.In.words S.In.plan S.In.sent S.In.closed S.In.at S.In.seen
        S.Out.pair S.Out.plan S.Out.got S.Out.ended) ours.old.items theirs.old.items ours.new.items theirs.new.items) }
{
    let (writer, end) = open_ring::<S>(alloc, ring, messages, first)?;
    ours.push(writer)?;
    theirs.push(end)?;
    Ok(())
}

/// The ends of so many new rings, in the same order: the writers, and the roamer's ends. They are for calls of the
/// dictionary whose stamps aren't below `first`.
pub fn open_rings<S: Stage>(
    alloc: Global,
    ring: u64,
    writers: u32,
    dictionary: &Dictionary,
    first: u64,
) -> Result<(Vec<Writer<S::In>>, Vec<S::Out>), AllocError>
    requires ring { (MIN_RING ≤ ring) × (ring ≤ MAX_RING) }
    ensures count { IfOk result (λ ends. length ends.0.items ≡ writers) }
    ensures rings { IfOk result (λ ends. AllZip (IsNewRing ring (plan_of dictionary.now first)
        S.In.pair S.In.words S.In.plan S.In.sent S.In.closed S.In.at S.In.seen
        S.Out.pair S.Out.plan S.Out.got S.Out.ended) ends.0.items ends.1.items) }
{
    let messages = dictionary.as_slice();
    let mut ours = Vec::new(alloc);
    let mut theirs = Vec::new(alloc);
    for _ in 0..writers {
        add_ring::<S>(alloc, ring, messages, first, &mut ours, &mut theirs)?;
    }
    Ok((ours, theirs))
}

/// The writers of a session, each with a ring of its own, and the roamer that takes their calls and writes the log, in
/// this version: 1 with one clock, or 2.
///
/// Over a dictionary that is kept for ever, as by [`Box::leak`], the session outlives the frame that started it.
///
/// # Errors
///
/// A ring can't have this size, or there is no memory.
pub fn start<'d, S: Stage>(
    alloc: Global,
    ring: u64,
    writers: u32,
    batch: u32,
    version: u8,
    clocks: &Clocks,
    dictionary: &'d Dictionary,
) -> Result<(Vec<Writer<S::In>>, Roamer<'d, S::Out>), StageFault>
    requires known_version { is_known version ≡ true }
    requires writers { (1 ≤ writers) × (writers ≤ most_writers version) }
    requires alone { has_clocks version ≡ false → length clocks.now ≡ 1 }
    requires batch { (1 ≤ batch) × (batch ≤ MAX_BATCH) }
    ensures bad_size { IsErrOf result StageFault.BadSize ↔ ((ring < MIN_RING) ⊎ (MAX_RING < ring)) }

    // Each writer has one of the roamer's ends, in order. Nothing was logged or taken, and nothing is closed.
    ensures count { IfOk result (λ session. length session.0.items ≡ writers) }
    ensures rings { IfOk result (λ session. AllZip (IsNewRing ring
        (plan_of dictionary.now (first_tick clocks.now))
        S.In.pair S.In.words S.In.plan S.In.sent S.In.closed S.In.at S.In.seen
        S.Out.pair S.Out.plan S.Out.got S.Out.ended) session.0.items (ends_of session.1)) }

    // Nothing was written.
    ensures stands { IfOk result (λ session. RoamerStandsFor S.Out.got S.Out.ended session.1 []) }
    ensures planned { IfOk result (λ session. ArePlanned S.Out.plan session.1) }
    ensures run { IfOk result (λ session. (roamer_messages session.1 ≡ dictionary.now)
        × (roamer_version session.1 ≡ version)
        × (roamer_clocks session.1 ≡ clocks.now)
        × (roamer_batch session.1 ≡ batch)) }
    ensures flags { IfOk result (λ session. (is_begun session.1 ≡ false) × (is_faulted session.1 ≡ false)) }
{
    if ring < MIN_RING || MAX_RING < ring {
        return Err(StageFault::BadSize);
    }
    let first = clocks.first().tick;
    let Ok((ours, theirs)) = open_rings::<S>(alloc, ring, writers, dictionary, first) else {
        return Err(StageFault::NoMemory);
    };
    match Roamer::make(alloc, theirs, dictionary, version, clocks, batch) {
        Ok(roamer) => Ok((ours, roamer)),
        Err(_) => Err(StageFault::NoMemory),
    }
}
