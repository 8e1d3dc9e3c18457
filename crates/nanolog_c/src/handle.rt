//! Handles.

ghost use Rattle.std.specs.Prelude.{◌≡◌, Option, MatchOption};
ghost use Rattle.log_ends.specs.Slots.{end_in};
ghost use Rattle.nanolog_c.specs.Handles.{handle_owns, handle_coded};
ghost use Rattle.log_ends.specs.declared.end.End.{End};

use box_parts::Parts;
use core::mem::replace;
use log_ends::{End, Slot};
use std::alloc::Global;
use std::marker::Model;
use std::ptr::null_mut;

/// A handle that a C program holds: it owns an end, or it is null and owns nothing.
#[repr(C)]
pub struct Handle {
    ptr: *mut u8,
    pub ghost value: { Option End } by { handle_coded },
}

impl Model for Handle {
    ghost also_owns = { λ h. handle_owns h.ptr h.value };
}

impl Handle {
    /// Takes out what is held, and leaves null.
    pub(crate) fn take(&mut self, alloc: Global) -> Slot
        ensures value { end_in result ≡ self.old.value }
        ensures none { self.new.value ≡ None }
    {
        replace(self, Handle::null()).into_box(alloc)
    }

    /// Puts it in the place of what is held, which goes.
    pub(crate) fn put(&mut self, alloc: Global, end: Slot)
        ensures { self.new.value ≡ end_in end }
    {
        // Mostly nothing is held, and dropping that would be a call all the same.
        if let Some(held) = replace(self, Handle::of(end)).into_box(alloc) {
            drop(held);
        }
    }

    /// The handle of a box, if there is one, and null else.
    fn of(end: Slot) -> Handle
        ensures { result.value ≡ end_in end }
    {
        match end {
            Some(end) => Handle::of_parts(Parts::of(end)),
            None => Handle::null(),
        }
    }

    /// The box again, unless the handle is null.
    pub(crate) fn into_box(self, alloc: Global) -> Slot
        ensures { end_in result ≡ self.value }
    {
        match self.into_parts(alloc) {
            Some(parts) => Some(parts.into_box()),
            None => None,
        }
    }

    fn null() -> Handle
        ensures { result.value ≡ None }
    {
        Handle { ptr: null_mut() }
    }

    fn of_parts(parts: Parts<End, Global>) -> Handle
        ensures { result.value ≡ Some parts.value }
    {
        let Parts { ptr, alloc: _ } = parts;
        Handle {
            ptr: ptr as *mut u8,
        }
    }

    fn into_parts(self, alloc: Global) -> Option<Parts<End, Global>>
        ensures { MatchOption result (self.value ≡ None) (λ parts. self.value ≡ Some parts.value) }
    {
        let Handle { ptr } = self;
        if ptr.is_null() {
            return None;
        }
        Some(Parts {
            ptr: ptr as *mut End,
            alloc,
        })
    }
}

unsafe impl Send for Handle {}
