//! Clones of a parser, of events and of faults.
use crate::refused_memory::ended::is_ended_by_memory;
use crate::refused_memory::outcome::Outcome;
use crate::refused_memory::ways::{Kind, next_kind, pass_item, take_left};
use saphyr_parser::{CloneInput, Event, Fault, Input, Parser, Span};
use std::alloc::{AllocError, Global};
use test_events::{Difference, Expected};

/// How many places of a text a parser is cloned at, about.
const MOST_PLACES: usize = 24;

/// The parser is cloned at many places. A refused clone leaves it as it was, and so does a clone that finds
/// no memory for what it reads.
pub fn by_clones<T: CloneInput>(
    alloc: Global,
    parser: &mut Parser<'_, T>,
    lines: &[String],
) -> Result<Outcome, Difference> {
    let stride = lines.len() / MOST_PLACES + 1;
    for place in 0..lines.len() {
        let left = lines.get(place..).unwrap_or(&[]);
        let is_due = place % stride == 0;
        if is_due && take_clone(alloc, parser, left)? == Outcome::Refused {
            return is_untouched(alloc, parser, left);
        }
        if matches!(next_kind(parser), Kind::Want) {
            return is_ended_by_memory(alloc, parser);
        }
    }
    Ok(Outcome::Whole)
}

// A clone gives what is left, or there is no memory for it or for what it reads.
fn take_clone<T: CloneInput>(
    alloc: Global,
    parser: &Parser<'_, T>,
    left: &[String],
) -> Result<Outcome, Difference> {
    match parser.try_clone() {
        Ok(mut clone) => take_left(alloc, &mut clone, left),
        Err(_) => Ok(Outcome::Refused),
    }
}

// All is left that was left before a clone was refused.
fn is_untouched<T: CloneInput>(
    alloc: Global,
    parser: &mut Parser<'_, T>,
    left: &[String],
) -> Result<Outcome, Difference> {
    match take_left(alloc, parser, left)? {
        Outcome::Whole => Ok(Outcome::Refused),
        Outcome::Refused => Err(Difference::new(alloc, "a clone changes the original")),
    }
}

/// Each event is copied, and so is the fault after them.
pub fn by_copies<T: Input>(
    alloc: Global,
    parser: &mut Parser<'_, T>,
    lines: &[String],
) -> Result<Outcome, Difference> {
    let mut expected = Expected::new(alloc, lines);
    copy_lines(alloc, parser, &mut expected)
}

fn copy_lines<T: Input>(
    alloc: Global,
    parser: &mut Parser<'_, T>,
    expected: &mut Expected<'_>,
) -> Result<Outcome, Difference> {
    let mut outcome = Outcome::Whole;
    for _ in expected.left() {
        match copy_line(alloc, parser.next_event(), expected)? {
            Some(Outcome::Whole) => {}
            Some(Outcome::Refused) => outcome = Outcome::Refused,
            None => return is_ended_by_memory(alloc, parser),
        }
    }
    Ok(outcome)
}

// What was handed out is copied, and is the next line; none where it is lack of memory.
fn copy_line(
    alloc: Global,
    item: Option<Result<(Event<'_>, Span), Fault>>,
    expected: &mut Expected<'_>,
) -> Result<Option<Outcome>, Difference> {
    let copied = copy_item(&item);
    if !pass_item(item, expected)? {
        return Ok(None);
    }
    match copied {
        Some(outcome) => Ok(Some(outcome)),
        None => Err(Difference::new(alloc, "a copy differs")),
    }
}

// The copy of what was handed out equals it, or there is no memory for it; none where it differs.
fn copy_item(item: &Option<Result<(Event<'_>, Span), Fault>>) -> Option<Outcome> {
    let is_equal = match item {
        None => Ok(true),
        Some(Ok((event, _))) => has_copy(event),
        Some(Err(fault)) => has_fault_copy(fault),
    };
    match is_equal {
        Ok(true) => Some(Outcome::Whole),
        Ok(false) => None,
        Err(_) => Some(Outcome::Refused),
    }
}

fn has_copy(event: &Event<'_>) -> Result<bool, AllocError> {
    let copy = event.try_clone()?;
    let is_equal = copy == *event;
    drop(copy);
    Ok(is_equal)
}

fn has_fault_copy(fault: &Fault) -> Result<bool, AllocError> {
    let copy = fault.try_clone()?;
    let is_equal = copy == *fault;
    drop(copy);
    Ok(is_equal)
}
