//! The ways to take events one by one.

use crate::refused_memory::ended::{is_ended, is_ended_by_memory, is_fault};
use crate::refused_memory::outcome::Outcome;
use saphyr_parser::{Event, Fault, Input, Parser, Span};
use std::alloc::Global;
use test_events::{Difference, Expected};

/// The last line of a case, where there is one.
pub fn last(lines: &[String]) -> &[String] {
    let (_, last) = lines.split_at(lines.len().saturating_sub(1));
    last
}

/// Whether lack of memory was handed out.
pub fn is_want(item: &Option<Result<(Event<'_>, Span), Fault>>) -> bool {
    matches!(item, Some(Err(Fault::OutOfMemory)))
}

/// What was handed out is the next line, or nothing where none is left. Or it is lack of memory, and then not.
pub fn pass_item(
    item: Option<Result<(Event<'_>, Span), Fault>>,
    expected: &mut Expected<'_>,
) -> Result<bool, Difference> {
    if is_want(&item) {
        drop(item);
        return Ok(false);
    }
    expected.pass_given(item)?;
    Ok(true)
}

/// What is left to give is the lines, or a beginning of them and then lack of memory.
pub fn take_left<T: Input + Drop>(
    alloc: Global,
    parser: &mut Parser<'_, T>,
    lines: &[String],
) -> Result<Outcome, Difference> {
    let mut expected = Expected::new(alloc, lines);
    take_lines(parser, &mut expected)
}

fn take_lines<T: Input + Drop>(
    parser: &mut Parser<'_, T>,
    expected: &mut Expected<'_>,
) -> Result<Outcome, Difference> {
    for item in parser.by_ref() {
        if !pass_item(Some(item), expected)? {
            return Ok(Outcome::Refused);
        }
    }
    expected.is_next(None)?;
    Ok(Outcome::Whole)
}

/// The events are taken by `next_event`.
pub fn by_next_event<T: Input + Drop>(
    alloc: Global,
    parser: &mut Parser<'_, T>,
    lines: &[String],
) -> Result<Outcome, Difference> {
    match take_left(alloc, parser, lines)? {
        Outcome::Whole => is_ended(alloc, parser, last(lines)),
        Outcome::Refused => is_ended_by_memory(alloc, parser),
    }
}

/// Each event is shown by `peek`, twice, before `next_event` gives it. Where only the copy of a fault of the
/// text is refused, `next_event` gives lack of memory, and that is kept.
pub fn by_peek<T: Input>(
    alloc: Global,
    parser: &mut Parser<'_, T>,
    lines: &[String],
) -> Result<Outcome, Difference> {
    let mut expected = Expected::new(alloc, lines);
    peek_lines(alloc, parser, lines, &mut expected)
}

fn peek_lines<T: Input>(
    alloc: Global,
    parser: &mut Parser<'_, T>,
    lines: &[String],
    expected: &mut Expected<'_>,
) -> Result<Outcome, Difference> {
    for line in lines {
        if shows_want(parser) {
            return give_want(alloc, parser);
        }
        if !pass_shown(parser, expected)? {
            return refuse_copy(alloc, parser, line);
        }
    }
    expected.is_next(None)?;
    is_ended(alloc, parser, last(lines))
}

// The next line is shown, and then given. Where lack of memory is given it is not.
fn pass_shown<T: Input>(
    parser: &mut Parser<'_, T>,
    expected: &mut Expected<'_>,
) -> Result<bool, Difference> {
    expected.is_next(parser.peek())?;
    pass_item(parser.next_event(), expected)
}

// Memory runs out where what was shown is given: that is the copy of a fault.
fn refuse_copy<T: Input>(
    alloc: Global,
    parser: &mut Parser<'_, T>,
    line: &String,
) -> Result<Outcome, Difference> {
    if is_fault(line) {
        return is_ended_by_memory(alloc, parser);
    }
    Err(Difference::new(
        alloc,
        "`next_event` finds no memory for an event that was shown",
    ))
}

fn shows_want<T: Input>(parser: &mut Parser<'_, T>) -> bool {
    matches!(parser.peek(), Some(Err(Fault::OutOfMemory)))
}

/// What `next_event` gave.
#[derive(Clone, Copy)]
pub enum Kind {
    Nothing,
    Want,
    Other,
}

/// Takes what `next_event` gives, and passes over it.
pub fn next_kind<T: Input>(parser: &mut Parser<'_, T>) -> Kind {
    let item = parser.next_event();
    let kind = kind_of(&item);
    drop(item);
    kind
}

fn kind_of(item: &Option<Result<(Event<'_>, Span), Fault>>) -> Kind {
    match item {
        None => Kind::Nothing,
        Some(Err(Fault::OutOfMemory)) => Kind::Want,
        Some(_) => Kind::Other,
    }
}

/// Lack of memory is shown until it is given, and then nothing is left.
pub fn give_want<T: Input>(
    alloc: Global,
    parser: &mut Parser<'_, T>,
) -> Result<Outcome, Difference> {
    if !(shows_want(parser) && shows_want(parser)) {
        return Err(Difference::new(alloc, "`peek` doesn't show lack of memory"));
    }
    if !matches!(next_kind(parser), Kind::Want) {
        return Err(Difference::new(alloc, "`next_event` doesn't give what is shown"));
    }
    is_ended_by_memory(alloc, parser)
}
