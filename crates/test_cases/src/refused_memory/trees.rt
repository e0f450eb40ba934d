//! The documents of a text as trees.
use crate::limits::WIDE;
use crate::refused_memory::ended::{is_ended, is_ended_by_memory};
use crate::refused_memory::outcome::Outcome;
use crate::refused_memory::parts::is_last;
use crate::refused_memory::ways::{is_want, last, take_left};
use crate::trees::has_event;
use crate::ways::gives_one;
use saphyr_parser::{CloneInput, Event, Fault, Input, Parser, Span};
use std::alloc::{AllocError, Global};
use test_events::{Difference, Expected, events_of};
use yaml_tree::{Document, TreeFault, load_document, load_documents};

/// How loading ends.
#[derive(Clone, Copy)]
pub enum Loaded {
    /// With all documents, or with the fault of the text.
    Whole,
    /// There was no memory for the trees.
    TreesRefused,
    /// There was none for the parser.
    EventsRefused,
}

/// The documents are loaded, one at a time or all at once. Where there is no memory for the trees, the parser
/// gives what comes after the event that could not be taken.
pub fn by_load_documents<T: CloneInput>(
    alloc: Global,
    parser: &mut Parser<'_, T>,
    lines: &[String],
    each: bool,
) -> Result<Outcome, Difference> {
    match load_lines(alloc, parser, lines, each)? {
        Loaded::Whole => is_ended(alloc, parser, last(lines)),
        Loaded::TreesRefused => goes_on(alloc, parser, lines),
        Loaded::EventsRefused => is_ended_by_memory(alloc, parser),
    }
}

// The documents have the events of the lines, or the fault is their last.
fn load_lines<T: CloneInput>(
    alloc: Global,
    parser: &mut Parser<'_, T>,
    lines: &[String],
    each: bool,
) -> Result<Loaded, Difference> {
    let mut again = parser.try_clone()?;
    let loaded = load(alloc, parser, each);
    let judged = judge(alloc, &loaded, &mut again, lines);
    drop(loaded);
    judged
}

fn load<T: Input>(
    alloc: Global,
    parser: &mut Parser<'_, T>,
    each: bool,
) -> Result<Vec<Document>, TreeFault> {
    if each {
        return load_each(alloc, parser);
    }
    load_documents(alloc, parser, WIDE)
}

fn load_each<T: Input>(
    alloc: Global,
    parser: &mut Parser<'_, T>,
) -> Result<Vec<Document>, TreeFault> {
    let mut documents = Vec::new(alloc);
    while let Some(document) = load_document(alloc, parser, WIDE)? {
        documents.push(document)?;
    }
    Ok(documents)
}

fn judge<T: Input>(
    alloc: Global,
    loaded: &Result<Vec<Document>, TreeFault>,
    again: &mut Parser<'_, T>,
    lines: &[String],
) -> Result<Loaded, Difference> {
    match loaded {
        Ok(documents) => have_events(alloc, documents.as_slice(), again, lines),
        Err(fault) => judge_fault(alloc, fault, last(lines)),
    }
}

/// The fault is that of the last line, or lack of memory.
pub fn judge_fault(
    alloc: Global,
    fault: &TreeFault,
    last: &[String],
) -> Result<Loaded, Difference> {
    match fault {
        TreeFault::OutOfMemory => Ok(Loaded::TreesRefused),
        TreeFault::Parse(Fault::OutOfMemory) => Ok(Loaded::EventsRefused),
        TreeFault::Parse(fault) => {
            is_last(alloc, fault, last)?;
            Ok(Loaded::Whole)
        }
        fault => Err(Difference::described(format!(in alloc; "{fault}"))),
    }
}

// The documents have the events that a parser gives, which are the lines.
fn have_events<T: Input>(
    alloc: Global,
    documents: &[Document],
    parser: &mut Parser<'_, T>,
    lines: &[String],
) -> Result<Loaded, Difference> {
    let events = events_of(alloc, documents)?;
    let mut expected = Expected::new(alloc, lines);
    pass_events(alloc, events.as_slice(), parser, &mut expected)
}

fn pass_events<T: Input>(
    alloc: Global,
    events: &[Event<'_>],
    parser: &mut Parser<'_, T>,
    expected: &mut Expected<'_>,
) -> Result<Loaded, Difference> {
    for event in events {
        pass_event(alloc, event, parser, expected)?;
    }
    expected.is_next(None)?;
    Ok(Loaded::Whole)
}

// A parser gives this event, which is the next line.
fn pass_event<T: Input>(
    alloc: Global,
    event: &Event<'_>,
    parser: &mut Parser<'_, T>,
    expected: &mut Expected<'_>,
) -> Result<(), Difference> {
    let item = parser.next_event();
    let passed = is_event(alloc, &item, event, expected);
    drop(item);
    passed
}

fn is_event(
    alloc: Global,
    item: &Option<Result<(Event<'_>, Span), Fault>>,
    event: &Event<'_>,
    expected: &mut Expected<'_>,
) -> Result<(), Difference> {
    if has_event(item, event) {
        return expected.pass_item(item);
    }
    if is_want(item) {
        return Err(Difference::OutOfMemory(AllocError));
    }
    Err(Difference::new(alloc, "a tree has other events"))
}

// What a parser still gives is the last of the lines.
fn goes_on<T: CloneInput>(
    alloc: Global,
    parser: &mut Parser<'_, T>,
    lines: &[String],
) -> Result<Outcome, Difference> {
    let count = count_left(&mut parser.try_clone()?, lines.len());
    let (_, left) = lines.split_at(lines.len().saturating_sub(count));
    if left.len() < lines.len() && take_left(alloc, parser, left)? == Outcome::Whole {
        return Ok(Outcome::Refused);
    }
    Err(Difference::new(alloc, "the parser does not go on"))
}

// How many items a parser still gives, and so many at most.
fn count_left<T: Input>(parser: &mut Parser<'_, T>, most: usize) -> usize {
    for count in 0..most {
        if !gives_one(parser) {
            return count;
        }
    }
    most
}
