ghost use Rattle.std.specs.Prelude.{◌≡◌, ◌<◌, ◌≤◌, ◌↔◌, ◌++◌, ◌∷◌, [], length, OnOk, OnErr, IfOk, IsNone, slice_get};
ghost use Rattle.std.specs.Option.{option_copied};
ghost use Rattle.printf_grammar.specs.declared.limits.TheConstants.{MAX_ARGUMENTS};

use crate::bytes::Bytes;
use crate::limits::MAX_ARGUMENTS;
use smallvec::SmallVec;
use std::alloc::{AllocError, Global};
use std::marker::Model;

/// An argument that is lent to a call.
#[derive(Clone, Copy, Debug)]
pub enum Arg<'a> {
    Signed(i64),
    Unsigned(u64),
    Text(&'a [u8]),
}

impl Default for Arg<'_> {
    ghost use Rattle.std.specs.Prelude.{◌≡◌, pos};
    ghost use Rattle.printf_grammar.specs.declared.argument.Arg.TheVariants.{Signed};

    ghost is_default = { λ arg. arg ≡ Signed (pos 0) };

    fn default() -> Self {
        Arg::Signed(0)
    }
}

/// An argument that is kept.
#[derive(Debug, Drop)]
pub enum Value {
    Signed(i64),
    Unsigned(u64),
    Text(Bytes),
}

impl Default for Value {
    ghost use Rattle.std.specs.Prelude.{◌≡◌, pos};
    ghost use Rattle.printf_grammar.specs.declared.argument.Value.TheVariants.{Signed};

    ghost is_default = { λ value. value ≡ Signed (pos 0) };

    fn default() -> Self {
        Value::Signed(0)
    }
}

/// How many arguments need no memory of their own.
const FEW: usize = 2;

/// The arguments of one call, at most [`MAX_ARGUMENTS`].
#[derive(Debug, Drop)]
pub struct Values {
    items: SmallVec<Value, FEW>,
}

impl Model for Values {
    ghost use Rattle.std.specs.Prelude.{List, length, ◌≤◌};
    ghost use Rattle.printf_grammar.specs.declared.limits.TheConstants.{MAX_ARGUMENTS};
    ghost use Rattle.printf_grammar.specs.declared.argument.Value.{Value as ArgValue};

    ghost Value = { List ArgValue };

    ghost view = { λ values. values.items.items };

    ghost invariant = { λ values. length values.items.items ≤ MAX_ARGUMENTS };
}

/// What a call takes as an argument: one that is lent, or one that is kept.
pub trait Argument {
    ghost use Rattle.printf_grammar.specs.declared.argument.Value.{Value as ArgValue};
    ghost use Rattle.printf_grammar.specs.Types.{argument_value};

    /// What the argument is, without where it lies.
    ghost value: { Self → ArgValue };

    /// The same argument, lent.
    fn arg(&self) -> Arg<'_>
        ensures { argument_value result ≡ value self.now };
}

impl Argument for Arg<'_> {
    ghost use Rattle.printf_grammar.specs.Types.{argument_value};

    ghost value = { argument_value };

    fn arg(&self) -> Arg<'_> {
        *self
    }
}

impl Argument for Value {
    ghost value = { λ value. value };

    fn arg(&self) -> Arg<'_> {
        match self {
            Value::Signed(number) => Arg::Signed(*number),
            Value::Unsigned(number) => Arg::Unsigned(*number),
            Value::Text(text) => Arg::Text(text.as_slice()),
        }
    }
}

impl Values {
    /// No arguments.
    pub fn make(alloc: Global) -> Values
        ensures { result ≡ [] }
    {
        Values {
            items: SmallVec::new(alloc),
        }
    }

    /// One argument. It takes no memory, nor do two.
    #[inline(always)]
    pub fn one(alloc: Global, item: Value) -> Values
        ensures { result ≡ item ∷ [] }
    {
        Values {
            items: SmallVec::from_buf_and_len(alloc, [item, Value::Signed(0)], 1),
        }
    }

    /// Two arguments.
    #[inline(always)]
    pub fn two(alloc: Global, first: Value, second: Value) -> Values
        ensures { result ≡ first ∷ second ∷ [] }
    {
        Values {
            items: SmallVec::from_buf(alloc, [first, second]),
        }
    }

    /// No arguments, where `n` of them are to come.
    pub fn with_capacity(alloc: Global, n: usize) -> Result<Values, AllocError>
        ensures { IfOk result (λ values. values ≡ []) }
    {
        Ok(Values {
            items: SmallVec::with_capacity(alloc, n)?,
        })
    }

    /// Appends the value, which is dropped where there is no memory.
    #[inline(always)]
    pub fn push(&mut self, item: Value) -> Result<(), AllocError>
        requires { length self.old < MAX_ARGUMENTS }
        ensures ok { OnOk result (self.new ≡ self.old ++ item ∷ []) }
        ensures err { OnErr result (self.new ≡ self.old) }
    {
        self.items.push(item)?;
        Ok(())
    }

    pub fn len(&self) -> usize
        ensures len { result ≡ length self.now }
        ensures limit { length self.now ≤ MAX_ARGUMENTS }
    {
        self.items.len()
    }

    pub fn get(&self, place: usize) -> Option<&Value>
        ensures value { option_copied result ≡ slice_get self.now place }
        ensures none { IsNone result ↔ (length self.now ≤ place) }
    {
        self.items.as_slice().get(place)
    }

    /// The values, in order.
    pub fn as_slice(&self) -> &[Value]
        ensures values { result.now ≡ self.now }
        ensures limit { length self.now ≤ MAX_ARGUMENTS }
    {
        self.items.as_slice()
    }
}
