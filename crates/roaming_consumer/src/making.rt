//! Making a roamer.

ghost use Rattle.std.specs.Prelude.{◌≡◌, ◌≤◌, [], true, false, length, All, IfOk};
ghost use Rattle.session_options.specs.declared.limits.TheConstants.{MAX_BATCH};
ghost use Rattle.log_dictionary.specs.Clocks.{first_tick};
ghost use Rattle.checkpoint_io.specs.Versions.{is_known, has_clocks, most_writers};
ghost use Rattle.ring_core.specs.Plans.{plan_of};
ghost use Rattle.roaming_consumer.specs.Roamers.{ends_of, roamer_messages, roamer_version, roamer_clocks, roamer_batch, is_begun, is_faulted, ArePlanned, RoamerStandsFor};

use crate::fragments::MAX_FRAGMENT;
use crate::roamer::Roamer;
use arg_records::MAX_FRAME_WORDS;
use checkpoint_io::most_body;
use log_dictionary::{Clocks, Dictionary};
use ring_core::StageOut;
use std::alloc::{AllocError, Global};

impl<'d, S: StageOut + Drop> Roamer<'d, S> {
    /// A roamer over these ends, which takes at most `batch` frames in a visit, and whose log has this version: 1 with
    /// one clock, or 2. Where there is no memory for its buffers the ends are dropped.
    pub fn make(
        alloc: Global,
        ends: Vec<S>,
        dictionary: &'d Dictionary,
        version: u8,
        clocks: &Clocks,
        batch: u32,
    ) -> Result<Roamer<'d, S>, AllocError>
        requires some_end { 1 ≤ length ends.items }
        requires known_version { is_known version ≡ true }
        requires few_ends { length ends.items ≤ most_writers version }
        requires alone { has_clocks version ≡ false → length clocks.now ≡ 1 }
        requires some_batch { 1 ≤ batch }
        requires few_in_batch { batch ≤ MAX_BATCH }
        requires untaken { All (λ end. S.got end ≡ []) ends.items }
        requires planned { All (λ end. S.plan end ≡ plan_of dictionary.now (first_tick clocks.now)) ends.items }
        ensures stands { IfOk result (λ roamer. RoamerStandsFor S.got S.ended roamer []) }
        ensures planned { IfOk result (λ roamer. ArePlanned S.plan roamer) }
        ensures ends { IfOk result (λ roamer. ends_of roamer ≡ ends.items) }
        ensures run { IfOk result (λ roamer. (roamer_messages roamer ≡ dictionary.now)
            × (roamer_version roamer ≡ version) × (roamer_clocks roamer ≡ clocks.now)
            × (roamer_batch roamer ≡ batch)) }
        ensures flags { IfOk result (λ roamer. (is_begun roamer ≡ false) × (is_faulted roamer ≡ false)) }
    {
        let closed = Vec::from_elem(alloc, false, ends.len())?;
        let body = Vec::from_elem(alloc, 0, most_body(version) as usize)?;
        let fragment = Vec::from_elem(alloc, 0, MAX_FRAGMENT)?;
        Ok(Roamer {
            dictionary,
            version,
            clocks: clocks.copy(alloc)?,
            clock: clocks.first(),
            batch,
            ends,
            defined: 0,
            written: 1,
            latest: 0,
            closed,
            begun: false,
            faulted: false,
            frame: [0; MAX_FRAME_WORDS],
            body,
            fragment,
        })
    }
}
