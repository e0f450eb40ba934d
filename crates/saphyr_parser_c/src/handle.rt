//! A box as C keeps it between calls.

ghost use Rattle.std.specs.Prelude.{◌≡◌};
ghost use Rattle.std.specs.Option.{MatchOption};
ghost use mathlib.Core.Option.{Option, none, some};
ghost use Rattle.saphyr_parser_c.specs.declared.inner.Inner.{Inner as Held};
ghost use Rattle.saphyr_parser_c.specs.Held.{handle_owns};

use crate::inner::Inner;
use crate::parts::Parts;
use std::alloc::Global;
use std::marker::{Model, Send};
use std::ptr::null_mut;

/// Null, or a parser on the heap.
#[repr(C)]
pub struct Handle {
    at: *mut u8,
    alloc: Global,
    ghost value: { Option Held },
}

impl Model for Handle {
    ghost also_owns = { λ h. handle_owns h.alloc h.at h.value };
}

// Between calls a parser may go from one thread to another.
unsafe impl Send for Handle {}

impl Handle {
    /// No parser.
    pub fn none(alloc: Global) -> Handle
        ensures { result.value ≡ none }
    {
        Handle {
            at: null_mut(),
            alloc,
        }
    }

    /// The parser of a box that was taken apart.
    pub fn of_parts(parts: Parts<Inner, Global>) -> Handle
        ensures { result.value ≡ some parts.value }
    {
        let Parts { ptr, alloc } = parts;
        Handle {
            at: ptr as *mut u8,
            alloc,
        }
    }

    /// The parts of its parser's box, if it has one.
    pub fn into_parts(self) -> Option<Parts<Inner, Global>>
        ensures { MatchOption result (self.value ≡ none) (λ parts. self.value ≡ some parts.value) }
    {
        let Handle { at, alloc } = self;
        if at.is_null() {
            None
        } else {
            Some(Parts {
                ptr: at as *mut Inner,
                alloc,
            })
        }
    }
}
