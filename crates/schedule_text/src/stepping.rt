//! The steps of a schedule, one line at a time.

ghost use Rattle.std.specs.Prelude.{◌≡◌, ◌≢◌, ◌⊎◌, ◌+◌, ◌-◌, ◌<◌, ◌≤◌, ◌++◌, [], length, None, Some, slice_get, IfOk, IfErr, IfSome, OnOk, OnErr};
ghost use Rattle.std.specs.Option.{option_map};
ghost use Rattle.ring_machine.specs.declared.rings.TheConstants.{MAX_RINGS};
ghost use Rattle.ring_core.specs.declared.limits.TheConstants.{MAX_POSITION};
ghost use Rattle.ring_machine.specs.RingStates.{written};
ghost use Rattle.ring_machine.specs.Steps.{event_barred, IsEvent};
ghost use Rattle.ring_machine.specs.Rings.{view_of};
ghost use Rattle.schedule_text.specs.declared.playing.TheConstants.{MAX_STEPS};
ghost use Rattle.schedule_text.specs.Printed.{event_text, positions_text};
ghost use Rattle.schedule_text.specs.Judged.{event_of, printing, steps_judged};
ghost use Rattle.schedule_text.specs.Playing.{Reached, StopsInHead};

use crate::cause::{ScheduleCause, told_bar};
use crate::playing::{MAX_STEPS, ScheduleFault};
use crate::step_line::read_step;
use ring_machine::{Barred, Event, RingView, Rings, StepKind};

/// A step that was made, what is shown of its ring behind it, and the lines behind its own.
#[derive(Clone, Copy)]
pub(crate) struct Made<'a> {
    pub(crate) ring: u64,
    pub(crate) step: StepKind,
    pub(crate) view: RingView,
    pub(crate) rest: &'a [u8],
}

/// Makes a step, and answers what is shown of its ring behind it.
fn make_step(rings: &mut Rings, ring: u64, step: StepKind) -> Result<RingView, Barred>
    requires few { length rings.old ≤ MAX_RINGS }
    requires position { IfSome (slice_get rings.old ring) (λ s. (written s).at ≤ MAX_POSITION) }
    ensures made { OnOk result (IsEvent rings.old (event_of (ring, step)) rings.new) }
    ensures view { IfOk result (λ view. option_map view_of (slice_get rings.new ring) ≡ Some view) }
    ensures barred { IfErr result (λ cause. (event_barred rings.old (event_of (ring, step)) ≡ Some cause)
        ⊎ ((cause ≡ Barred.NoMemory) × (event_barred rings.old (event_of (ring, step)) ≡ None))) }
    ensures err { OnErr result (rings.new ≡ rings.old) }
{
    if ring >= rings.len() as u64 {
        return Err(Barred::Ring);
    }
    let ring = ring as u32;
    rings.step(Event { ring, step })?;
    Ok(rings.view(ring))
}

/// That the line of a step is refused, behind so many others.
fn refused(made: u64, cause: ScheduleCause) -> ScheduleFault
    requires { made ≤ MAX_STEPS }
    ensures { result ≡ ScheduleFault.Refused (made + 3) cause }
{
    ScheduleFault::Refused {
        line: made + 3,
        cause,
    }
}

/// Makes the step of the first line of these bytes, behind so many others.
pub(crate) fn go_on<'a>(
    rings: &mut Rings,
    made: u64,
    bytes: &'a [u8],
) -> Result<Made<'a>, ScheduleFault>
    requires some { bytes.now ≢ [] }
    requires few { made ≤ MAX_STEPS }
    requires reached { Reached made rings.old }
    ensures few { OnOk result (made < MAX_STEPS) }
    ensures reached { OnOk result (Reached (made + 1) rings.new) }
    ensures made { IfOk result (λ next. steps_judged (MAX_STEPS - made) rings.old made bytes.now ≡
        printing (event_text (made + 1) (event_of (next.ring, next.step)) ++ positions_text next.view)
        (steps_judged (MAX_STEPS - (made + 1)) rings.new (made + 1) next.rest.now)) }
    ensures stops { IfErr result (StopsInHead (steps_judged (MAX_STEPS - made) rings.old made bytes.now)) }
{
    if made == MAX_STEPS {
        return Err(refused(made, ScheduleCause::TooMany));
    }
    let Some(((ring, step), rest)) = read_step(bytes) else {
        return Err(refused(made, ScheduleCause::Step));
    };
    match make_step(rings, ring, step) {
        Ok(view) => Ok(Made {
            ring,
            step,
            view,
            rest,
        }),
        Err(bar) => match told_bar(bar) {
            Some(cause) => Err(refused(made, cause)),
            None => Err(ScheduleFault::NoMemory),
        },
    }
}
