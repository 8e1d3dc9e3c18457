//! Calls that are drawn one after the other.

ghost use Rattle.std.specs.Prelude.{◌≡◌, ◌<◌, ◌≤◌, IfOk, OnOk, length};
ghost use Rattle.trace_generator.specs.Generated.{next_state, state_after, draw, drawn_arguments, drawn_call, after_call, generator_at};

use arg_records::Call;
use printf_grammar::{Bytes, Value, Values};
use std::alloc::{AllocError, Global};

// The generator's state is that of a linear congruence: it is multiplied by the first number, the second is added, and
// the rest by the third is kept.
pub(crate) const MULTIPLIER: u64 = 1_103_515_245;

pub(crate) const INCREMENT: u64 = 12_345;

pub(crate) const MODULUS: u64 = 2_147_483_648;

/// The stamp from which those of the calls go on.
pub(crate) const FIRST_TICK: u64 = 1_000;

/// Draws one call after the other.
#[derive(Clone, Copy, Debug)]
pub(crate) struct Generator {
    /// What the next number is drawn from.
    pub(crate) state: u64,
    /// The stamp of the last call.
    pub(crate) stamp: u64,
}

impl Generator {
    /// The generator in front of the first call of a seed.
    pub(crate) fn of_seed(seed: u64) -> Generator
        ensures { result ≡ generator_at seed 0 }
    {
        Generator {
            state: seed % MODULUS,
            stamp: FIRST_TICK,
        }
    }

    // One of the numbers from 0 to `count - 1`.
    fn draw(&mut self, count: u64) -> u64
        requires state { self.old.state < MODULUS }
        requires count { 1 ≤ count }
        ensures drawn { result ≡ draw self.old.state count }
        ensures moved { self.new ≡ record self.old { state = next_state self.old.state } }
    {
        self.state = (self.state * MULTIPLIER + INCREMENT) % MODULUS;
        self.state / 65_536 % count
    }

    // The arguments of a call of the message with the id.
    fn draw_arguments(&mut self, alloc: Global, id: u64) -> Result<Values, AllocError>
        requires state { self.old.state < MODULUS }
        ensures drawn { IfOk result (λ args. args ≡ drawn_arguments id self.old.state) }
        ensures moved { IfOk result (λ args.
            self.new ≡ record self.old { state = state_after (length args) self.old.state }) }
    {
        let mut args = Values::with_capacity(alloc, 2)?;
        match id {
            0 => {
                args.push(Value::Unsigned(self.draw(32_768)))?;
                args.push(Value::Unsigned(self.draw(32_768) * 65_536))?;
            }
            1 => {
                let name = [b'q', b'0' + self.draw(8) as u8];
                args.push(Value::Text(Bytes::from_slice(alloc, &name)?))?;
                args.push(Value::Signed(self.draw(101) as i64))?;
            }
            2 => {
                args.push(Value::Unsigned(self.draw(32_768)))?;
                args.push(Value::Signed(self.draw(32_768) as i64))?;
            }
            _ => args.push(Value::Signed(33 + self.draw(94) as i64))?,
        }
        Ok(args)
    }

    /// The next call.
    pub(crate) fn next_call(&mut self, alloc: Global) -> Result<Call, AllocError>
        requires state { self.old.state < MODULUS }
        requires stamp { self.old.stamp ≤ 9223372036854775807 }
        ensures drawn { IfOk result (λ call. call ≡ drawn_call self.old) }
        ensures moved { OnOk result (self.new ≡ after_call self.old) }
    {
        let id = self.draw(4);
        self.stamp += self.draw(100);
        let args = self.draw_arguments(alloc, id)?;
        Ok(Call {
            stamp: self.stamp,
            id: id as u32,
            args,
        })
    }
}
