//! Iterators as inputs: up to the first `None`, and up to the limit.

ghost use Rattle.std.specs.Prelude.{◌≡◌, ◌+◌, ◌<◌, ◌≤◌, ◌==◌, None, Some, if◌then◌else◌};

use crate::helpers::expect;
use crate::reader::input::steps::{Step, iter_follows};
use saphyr_input::BufferedInput;
use saphyr_input::input::Input;
use saphyr_input::law::lists_characters;
use std::alloc::{AllocError, Global};
use std::cell::Cell;
use std::str::Chars;

// Gives `a`, then `None`, then `b`, and counts the calls.
#[derive(Drop)]
struct Stutter<'a> {
    place: u8,
    calls: &'a Cell<u8>,
}

impl Iterator for Stutter<'_> {
    type Item = char;

    ghost next_gives = { λ s r t. (r ≡ (if s.place == 0 then Some 97 else (if s.place == 2 then Some 98 else None)))
        × (s.place < 3 → t.place ≡ s.place + 1) };

    fn next(&mut self) -> Option<char> {
        self.calls.set(self.calls.get().saturating_add(1));
        let place = self.place;
        if place < 3 {
            self.place += 1;
        }
        match place {
            0 => Some('a'),
            2 => Some('b'),
            _ => None,
        }
    }
}

fn stuttering<'a>(
    alloc: Global,
    calls: &'a Cell<u8>,
) -> Result<BufferedInput<Stutter<'a>>, AllocError> {
    BufferedInput::new(alloc, Stutter { place: 0, calls })
}

// Takes the next character off. Whether it is this.
fn gives<T: Input>(input: &mut T, c: char) -> bool {
    let next = input.look_ch();
    input.skip();
    next == c
}

// What the input gives, and how often the iterator was asked until then.
const GIVEN: &[(char, u8)] = &[('a', 1), ('\0', 2), ('\0', 2), ('\0', 2)];

// Whether the input gives `a` and then nothing, where the iterator is asked twice.
fn stops<T: Input + Drop>(mut input: T, calls: &Cell<u8>) -> bool {
    for &(c, count) in GIVEN {
        if !gives(&mut input, c) || calls.get() != count {
            return false;
        }
    }
    true
}

fn is_stopped(alloc: Global, calls: &Cell<u8>) -> bool {
    match stuttering(alloc, calls) {
        Ok(input) => stops(input, calls),
        Err(_) => false,
    }
}

#[test]
fn stops_at_the_first_none(rt: HostRuntime) {
    expect(&rt, is_stopped(rt.alloc(), &Cell::new(0)), "a");
}

fn first_characters_of<'a>(
    alloc: Global,
    text: &'a str,
    limit: u64,
) -> Result<BufferedInput<Chars<'a>>, AllocError>
    requires { limit ≤ 4294967296 }
{
    let iter = text.chars();
    lists_characters(&iter);
    BufferedInput::with_limit(alloc, iter, limit)
}

// Whether a text within a limit answers these steps.
fn is_within(alloc: Global, text: &str, limit: u64, steps: &[Step]) -> bool
    requires { limit ≤ 4294967296 }
{
    match first_characters_of(alloc, text, limit) {
        Ok(input) => iter_follows(alloc, input, steps),
        Err(_) => false,
    }
}

#[test]
fn stops_at_the_limit(rt: HostRuntime) {
    const STEPS: &[Step] = &[Step::Load(4), Step::PeekNth(2, 'c'), Step::PeekNth(3, '\0')];
    expect(&rt, is_within(rt.alloc(), "abcdef", 3, STEPS), "abcdef");
}
