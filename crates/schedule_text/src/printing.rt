//! What is printed of a schedule.

ghost use Rattle.std.specs.Prelude.{◌≡◌, ◌≤◌, ◌++◌, length, OnOk, OnErr};
ghost use Rattle.nl_io.specs.Content.{with_end};
ghost use Rattle.nl_io.specs.TextWriters.{Carries, IsCutOff};
ghost use Rattle.ring_machine.specs.declared.rings.TheConstants.{MAX_RINGS};
ghost use Rattle.schedule_text.specs.StepLines.{step_name};
ghost use Rattle.schedule_text.specs.Printed.{event_text, positions_text, state_name, ring_line, ring_lines};
ghost use Rattle.schedule_text.specs.Judged.{event_of};

use itoa::Buffer;
use nl_io::{Failed, Sink, TextWriter};
use ring_machine::{RingView, Rings, StepKind};

/// The name of a step.
fn step_name(step: StepKind) -> &'static str
    ensures { result.now ≡ step_name step }
{
    match step {
        StepKind::Look => "look",
        StepKind::Store(_) => "store",
        StepKind::Skip => "skip",
        StepKind::Publish => "publish",
        StepKind::Close => "close",
        StepKind::Load => "load",
        StepKind::Read => "read",
        StepKind::Release => "release",
    }
}

/// Puts the number of a step, its name and its ring.
fn put_event<O: Sink>(
    out: &mut O,
    writer: &mut TextWriter,
    number: u64,
    ring: u64,
    step: StepKind,
) -> Result<(), Failed>
    ensures ok { OnOk result (Carries (writer.old ++ event_text number (event_of (ring, step))) (O.put out.old)
        (O.put out.new) writer.new) }
    ensures counted { OnOk result (O.faults out.new ≡ O.faults out.old) }
    ensures cut_off { OnErr result (IsCutOff (writer.old ++ event_text number (event_of (ring, step)))
        (O.put out.old) (O.put out.new) (O.faults out.old) (O.faults out.new)) }
    ensures others { O.rest out.old out.new }
{
    let mut number_digits = Buffer::new();
    let mut ring_digits = Buffer::new();
    writer.put_pieces(
        out,
        &[
            number_digits.format(number),
            " ",
            step_name(step),
            " ",
            ring_digits.format(ring),
        ],
    )
}

/// Puts the positions of a ring.
fn put_positions<O: Sink>(
    out: &mut O,
    writer: &mut TextWriter,
    view: &RingView,
) -> Result<(), Failed>
    ensures ok { OnOk result (Carries (writer.old ++ positions_text view.now) (O.put out.old) (O.put out.new)
        writer.new) }
    ensures counted { OnOk result (O.faults out.new ≡ O.faults out.old) }
    ensures cut_off { OnErr result (IsCutOff (writer.old ++ positions_text view.now) (O.put out.old) (O.put out.new)
        (O.faults out.old) (O.faults out.new)) }
    ensures others { O.rest out.old out.new }
{
    let mut written = Buffer::new();
    let mut published = Buffer::new();
    let mut released = Buffer::new();
    let mut seen = Buffer::new();
    let mut loaded = Buffer::new();
    let mut read = Buffer::new();
    writer.put_pieces(
        out,
        &[
            ": written ",
            written.format(view.written),
            " published ",
            published.format(view.published),
            " released ",
            released.format(view.released),
            " seen ",
            seen.format(view.seen),
            " loaded ",
            loaded.format(view.loaded),
            " read ",
            read.format(view.read),
            "\n",
        ],
    )
}

/// Puts the line of a step with this number, behind which this is shown of its ring.
pub(crate) fn put_step<O: Sink>(
    out: &mut O,
    writer: &mut TextWriter,
    number: u64,
    ring: u64,
    step: StepKind,
    view: &RingView,
) -> Result<(), Failed>
    ensures ok { OnOk result (Carries (writer.old ++ (event_text number (event_of (ring, step))
        ++ positions_text view.now)) (O.put out.old) (O.put out.new) writer.new) }
    ensures counted { OnOk result (O.faults out.new ≡ O.faults out.old) }
    ensures cut_off { OnErr result (IsCutOff (writer.old ++ (event_text number (event_of (ring, step))
        ++ positions_text view.now)) (O.put out.old) (O.put out.new) (O.faults out.old) (O.faults out.new)) }
    ensures others { O.rest out.old out.new }
{
    put_event(out, writer, number, ring, step)?;
    put_positions(out, writer, view)?;
    Ok(())
}

/// How far a ring is closed.
fn state_name(view: &RingView) -> &'static str
    ensures { result.now ≡ state_name view.now }
{
    if view.ended {
        "ended"
    } else if view.closed {
        "closed"
    } else {
        "open"
    }
}

/// Puts the line of a ring at the end.
fn put_ring<O: Sink>(
    out: &mut O,
    writer: &mut TextWriter,
    ring: u32,
    view: &RingView,
) -> Result<(), Failed>
    ensures ok { OnOk result (Carries (writer.old ++ ring_line ring view.now) (O.put out.old) (O.put out.new)
        writer.new) }
    ensures counted { OnOk result (O.faults out.new ≡ O.faults out.old) }
    ensures cut_off { OnErr result (IsCutOff (writer.old ++ ring_line ring view.now) (O.put out.old) (O.put out.new)
        (O.faults out.old) (O.faults out.new)) }
    ensures others { O.rest out.old out.new }
{
    let mut ring_digits = Buffer::new();
    let mut sent = Buffer::new();
    let mut got = Buffer::new();
    writer.put_pieces(
        out,
        &[
            "ring ",
            ring_digits.format(ring),
            ": sent ",
            sent.format(view.sent),
            " got ",
            got.format(view.got),
            " ",
            state_name(view),
            "\n",
        ],
    )
}

/// Puts the lines of the rings at the end.
fn put_rings<O: Sink>(out: &mut O, writer: &mut TextWriter, rings: &Rings) -> Result<(), Failed>
    requires { length rings.now ≤ MAX_RINGS }
    ensures ok { OnOk result (Carries (writer.old ++ ring_lines 0 rings.now) (O.put out.old) (O.put out.new)
        writer.new) }
    ensures counted { OnOk result (O.faults out.new ≡ O.faults out.old) }
    ensures cut_off { OnErr result (IsCutOff (writer.old ++ ring_lines 0 rings.now) (O.put out.old) (O.put out.new)
        (O.faults out.old) (O.faults out.new)) }
    ensures others { O.rest out.old out.new }
{
    let mut ring = 0;
    while (ring as usize) < rings.len() {
        put_ring(out, writer, ring, &rings.view(ring))?;
        ring += 1;
    }
    Ok(())
}

/// Puts the lines of the rings at the end, and with them all that is held back.
pub(crate) fn put_end<O: Sink>(
    out: &mut O,
    writer: &mut TextWriter,
    rings: &Rings,
) -> Result<(), Failed>
    requires { length rings.now ≤ MAX_RINGS }
    ensures ok { OnOk result (O.put out.new ≡ with_end (writer.old ++ ring_lines 0 rings.now) (O.put out.old)) }
    ensures counted { OnOk result (O.faults out.new ≡ O.faults out.old) }
    ensures cut_off { OnErr result (IsCutOff (writer.old ++ ring_lines 0 rings.now) (O.put out.old) (O.put out.new)
        (O.faults out.old) (O.faults out.new)) }
    ensures others { O.rest out.old out.new }
{
    put_rings(out, writer, rings)?;
    writer.flush(out)?;
    Ok(())
}
