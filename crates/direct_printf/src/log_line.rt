//! One line of the log.

ghost use Rattle.std.specs.Prelude.{◌≡◌, ◌≤◌, ◌<◌, ◌+◌, ◌^◌, ◌++◌, ◌∷◌, [], ℕ, OnOk, OnErr, codes, false, map, length, take, drop, vec_len};
ghost use Rattle.std.specs.Fmt.{decimal};
ghost use Rattle.log_dictionary.specs.Times.{Time};
ghost use Rattle.printf_grammar.specs.Types.{Types, Fits};
ghost use Rattle.direct_printf.specs.Fields.{Digits};
ghost use Rattle.direct_printf.specs.Lines.{Line, origin_text, seconds_text};
ghost use Rattle.direct_printf.specs.LineParts.{call_of};
ghost use Rattle.direct_printf.specs.LineWriters.{ShowsSecond};

use crate::line_parts::LineParts;
use crate::text::render;
use itoa::{Buffer, write_digits};
use log_dictionary::{Clock, Message};
use printf_grammar::Argument;
use std::alloc::AllocError;
use std::marker::Model;

const NANOS: u64 = 1_000_000_000;

/// So many numbers below it fit 64 bits together with NANOS as a factor.
const NARROW: u64 = 18_446_744_073;

/// Appends the line of a call: its time in seconds with nine digits behind the point, where its
/// message stands, the severity, the writer and the text. After an error `out` is as before.
pub fn line<A: Argument>(
    clock: &Clock,
    writer: u32,
    message: &Message,
    origin: &[u8],
    stamp: u64,
    args: &[A],
    out: &mut Vec<u8>,
) -> Result<(), AllocError>
    requires not_before { clock.now.tick ≤ stamp }
    requires rate { 1 ≤ clock.now.rate }
    requires fitting { Fits (map A.value args.now) (Types message.now.format.pieces) }
    requires origin { origin.now ≡ origin_text message.now }
    ensures ok { OnOk result ((ordinal : ℕ) → out.new.items ≡ out.old.items
        ++ Line (clock.now ∷ []) (record {
          writer = writer;
          ordinal = ordinal;
          stamp = stamp;
          message = message.now;
          args = map A.value args.now;
        })) }
    ensures err { OnErr result (out.new.items ≡ out.old.items) }
{
    let parts = LineParts {
        writer,
        message,
        origin,
        stamp,
        args,
    };
    LineWriter::make().append(clock, &parts, out)
}

/// Appends lines. It keeps the text of the last second, which the next line mostly has too.
#[derive(Debug, Drop)]
pub struct LineWriter {
    second: u64,
    // The second's digits stand from `start` on, and behind them, from the place 20 on, what follows in a time: a point,
    // nine digits and a space.
    start: usize,
    text: [u8; 31],
}

impl Model for LineWriter {
    ghost use Rattle.std.specs.Prelude.{⊤};
    ghost use Rattle.direct_printf.specs.LineWriters.{ShowsSecond};

    ghost Value = { ⊤ };

    ghost view = { λ _. tt };

    ghost invariant = { λ w. ShowsSecond w.second w.start w.text };
}

impl LineWriter {
    /// One that has no line yet.
    pub fn make() -> LineWriter {
        LineWriter {
            second: 0,
            start: 19,
            text: *b"                   0.000000000 ",
        }
    }

    /// Appends the line of a call, as [`line`] does.
    pub fn append<A: Argument>(
        &mut self,
        clock: &Clock,
        parts: &LineParts<'_, A>,
        out: &mut Vec<u8>,
    ) -> Result<(), AllocError>
        requires not_before { clock.now.tick ≤ parts.now.stamp }
        requires rate { 1 ≤ clock.now.rate }
        requires fitting { Fits (map A.value parts.now.args.now) (Types parts.now.message.now.format.pieces) }
        requires origin { parts.now.origin.now ≡ origin_text parts.now.message.now }
        ensures ok { OnOk result ((ordinal : ℕ) → out.new.items
            ≡ out.old.items ++ Line (clock.now ∷ []) (call_of A.value parts.now ordinal)) }
        ensures err { OnErr result (out.new.items ≡ out.old.items) }
    {
        let before = out.len();
        let written = self.append_line(clock, parts, out);
        if written.is_err() {
            out.truncate(before);
        }
        written
    }

    // After an error a part of the line may stand behind what was there, here and below.
    fn append_line<A: Argument>(
        &mut self,
        clock: &Clock,
        parts: &LineParts<'_, A>,
        out: &mut Vec<u8>,
    ) -> Result<(), AllocError>
        requires not_before { clock.now.tick ≤ parts.now.stamp }
        requires rate { 1 ≤ clock.now.rate }
        requires fitting { Fits (map A.value parts.now.args.now) (Types parts.now.message.now.format.pieces) }
        requires origin { parts.now.origin.now ≡ origin_text parts.now.message.now }
        ensures ok { OnOk result ((ordinal : ℕ) → out.new.items
            ≡ out.old.items ++ Line (clock.now ∷ []) (call_of A.value parts.now ordinal)) }
        ensures err { OnErr result (take (vec_len out.old) out.new.items ≡ out.old.items) }
    {
        self.append_time(time_of(clock, parts.stamp), out)?;
        append_origin(parts.origin, parts.writer, out)?;
        render(&parts.message.format, parts.args, out)?;
        out.push(b'\n')?;
        Ok(())
    }

    // With a space behind it. A time of 64 bits, which the years up to 2554 have, is divided as such.
    fn append_time(&mut self, time: u128, out: &mut Vec<u8>) -> Result<(), AllocError>
        ensures ok { OnOk result (out.new.items ≡ out.old.items ++ (seconds_text time ++ 32 ∷ [])) }
        ensures err { OnErr result (take (vec_len out.old) out.new.items ≡ out.old.items) }
    {
        if time > u128::from(u64::MAX) {
            let rest = (time % u128::from(NANOS)) as u32;
            return append_long_time(time / u128::from(NANOS), rest, out);
        }
        let time = time as u64;
        self.append_short_time(time / NANOS, (time % NANOS) as u32, out)
    }

    // Seconds that the years up to 2554 have. All stands in one text, so that it is copied once.
    fn append_short_time(
        &mut self,
        second: u64,
        rest: u32,
        out: &mut Vec<u8>,
    ) -> Result<(), AllocError>
        requires { rest < 10 ^ 9 }
        ensures ok { OnOk result (out.new.items
            ≡ out.old.items ++ ((decimal second ++ 46 ∷ Digits rest 10 false 9) ++ 32 ∷ [])) }
        ensures err { OnErr result (take (vec_len out.old) out.new.items ≡ out.old.items) }
    {
        self.start = show_second(second, self.second, self.start, &mut self.text);
        self.second = second;
        write_rest(rest, &mut self.text);
        out.extend_from_slice(&self.text[self.start..])?;
        Ok(())
    }
}

// Makes the text show the second in place of one that it shows, and answers where it begins.
#[inline(always)]
fn show_second(second: u64, shown: u64, start: usize, text: &mut [u8; 31]) -> usize
    requires { ShowsSecond shown start text.old }
    ensures { ShowsSecond second result text.new }
{
    if second == shown {
        return start;
    }
    write_digits(second, text, 20)
}

// What follows the second, up to the space.
#[inline(always)]
fn write_rest(rest: u32, text: &mut [u8; 31])
    requires { rest < 10 ^ 9 }
    ensures second { take 20 text.new ≡ take 20 text.old }
    ensures rest { drop 20 text.new ≡ 46 ∷ Digits rest 10 false 9 ++ 32 ∷ [] }
{
    text[20..].copy_from_slice(b".000000000 ");
    write_digits(u64::from(rest), text, 30);
}

// The clock's own `time` divides 128 bits. Whole seconds apart from their parts need 64 where the
// rate is not enormous.
fn time_of(clock: &Clock, stamp: u64) -> u128
    requires not_before { clock.now.tick ≤ stamp }
    requires rate { 1 ≤ clock.now.rate }
    ensures { result ≡ Time (clock.now ∷ []) stamp }
{
    if clock.rate > NARROW {
        return clock.time(stamp);
    }
    let ticks = stamp - clock.tick;
    let part = ticks % clock.rate * NANOS / clock.rate;
    let whole = u128::from(ticks / clock.rate) * u128::from(NANOS);
    u128::from(clock.nanos) + whole + u128::from(part)
}

fn append_long_time(seconds: u128, rest: u32, out: &mut Vec<u8>) -> Result<(), AllocError>
    requires { rest < 10 ^ 9 }
    ensures ok { OnOk result (out.new.items
        ≡ out.old.items ++ ((decimal seconds ++ 46 ∷ Digits rest 10 false 9) ++ 32 ∷ [])) }
    ensures err { OnErr result (take (vec_len out.old) out.new.items ≡ out.old.items) }
{
    let mut buffer = Buffer::new();
    let mut part = *b".000000000 ";
    write_digits(u64::from(rest), &mut part, 10);
    out.extend_from_slice(buffer.format(seconds).as_bytes())?;
    out.extend_from_slice(&part)?;
    Ok(())
}

// Where the message stands, how grave it is, and who says it.
fn append_origin(origin: &[u8], writer: u32, out: &mut Vec<u8>) -> Result<(), AllocError>
    ensures ok { OnOk result (out.new.items ≡ out.old.items ++ (origin.now ++ decimal writer ++ codes "]: ")) }
    ensures err { OnErr result (take (vec_len out.old) out.new.items ≡ out.old.items) }
{
    let mut text = *b"          ]: ";
    let start = write_digits(u64::from(writer), &mut text, 10);
    out.extend_from_slice(origin)?;
    out.extend_from_slice(&text[start..])?;
    Ok(())
}
