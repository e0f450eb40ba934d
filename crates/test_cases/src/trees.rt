//! The documents of a text as trees, within limits.

use crate::inputs::parser_of;
use crate::limits::{WIDE, Wanted, first_beyond, needed};
use crate::ways::{gives_one, is_left, is_left_to_clone};
use saphyr_parser::{CloneInput, Event, Fault, Input, Parser, ScanError, Span};
use std::alloc::{AllocError, Global};
use test_events::{Case, Difference, events_of, is_fault};
use yaml_tree::{Document, Limits, TreeFault, load_documents};

/// Compares the trees of a text with the events that its parser gives: within limits as wide as the text
/// needs, within limits of one less and of nothing, and on a parser that is not new.
pub fn compare(alloc: Global, case: &Case) -> Result<(), Difference> {
    compare_trees(alloc, &parser_of(alloc, case), case.lines.as_slice())
}

fn compare_trees<T: CloneInput>(
    alloc: Global,
    parser: &Parser<'_, T>,
    lines: &[String],
) -> Result<(), Difference> {
    is_left_to_clone(alloc, parser, lines)?;
    load_clone(alloc, parser, lines)?;
    load_near(alloc, parser, lines)?;
    load_again(alloc, parser)?;
    load_late(alloc, parser, lines)
}

fn load_clone<T: CloneInput>(
    alloc: Global,
    parser: &Parser<'_, T>,
    lines: &[String],
) -> Result<(), Difference> {
    let mut clone = parser.try_clone()?;
    load_all(alloc, &mut clone, parser, lines, WIDE)
}

// Within limits as wide as the text needs, of one less and of nothing.
fn load_near<T: CloneInput>(
    alloc: Global,
    parser: &Parser<'_, T>,
    lines: &[String],
) -> Result<(), Difference> {
    let needed = needed(lines);
    for nodes in [0, needed.nodes.saturating_sub(1), needed.nodes] {
        for depth in [0, needed.depth.saturating_sub(1), needed.depth] {
            let limits = Limits { nodes, depth };
            let loaded = load_within(alloc, parser, lines, limits);
            found_within(alloc, limits, loaded)?;
        }
    }
    Ok(())
}

// What was found, with the limits within which it was.
fn found_within(
    alloc: Global,
    limits: Limits,
    found: Result<(), Difference>,
) -> Result<(), Difference> {
    let Limits { nodes, depth } = limits;
    let place = format!(in alloc; "{nodes} nodes, {depth} open collections")?;
    Difference::found_in(alloc, place.as_str(), found)
}

// The answer within limits, and what is left after it.
fn load_within<T: CloneInput>(
    alloc: Global,
    parser: &Parser<'_, T>,
    lines: &[String],
    limits: Limits,
) -> Result<(), Difference> {
    let mut clone = parser.try_clone()?;
    match first_beyond(lines, limits) {
        Some((place, wanted)) => {
            let left = lines.get(place..).unwrap_or(&[]);
            is_refused(alloc, &mut clone, limits, wanted, left)
        }
        None => load_all(alloc, &mut clone, parser, lines, limits),
    }
}

// All documents have the events of the fresh parser, or the fault of the text comes, and nothing is left.
fn load_all<T: CloneInput>(
    alloc: Global,
    parser: &mut Parser<'_, T>,
    fresh: &Parser<'_, T>,
    lines: &[String],
    limits: Limits,
) -> Result<(), Difference> {
    let answer = load_documents(alloc, parser, limits);
    let loaded = is_loaded(alloc, &answer, fresh, lines);
    drop(answer);
    loaded?;
    is_left(alloc, parser, &[])
}

// A parser that has ended is not new.
fn load_again<T: CloneInput>(alloc: Global, parser: &Parser<'_, T>) -> Result<(), Difference> {
    let mut clone = parser.try_clone()?;
    drop(load_documents(alloc, &mut clone, WIDE));
    is_late(alloc, &mut clone, &[])
}

// After the first event nothing is passed, unless a fault comes next.
fn load_late<T: CloneInput>(
    alloc: Global,
    parser: &Parser<'_, T>,
    lines: &[String],
) -> Result<(), Difference> {
    let mut clone = parser.try_clone()?;
    let _ = gives_one(&mut clone);
    load_rest(alloc, &mut clone, parser, lines)
}

fn load_rest<T: CloneInput>(
    alloc: Global,
    parser: &mut Parser<'_, T>,
    fresh: &Parser<'_, T>,
    lines: &[String],
) -> Result<(), Difference> {
    let rest = lines.get(1..).unwrap_or(&[]);
    if begins_with_fault(rest) {
        return load_all(alloc, parser, fresh, lines, WIDE);
    }
    is_late(alloc, parser, rest)
}

fn begins_with_fault(lines: &[String]) -> bool {
    matches!(lines.first(), Some(line) if is_fault(line.as_str()))
}

/// Whether the last of some lines is that of a fault.
pub fn ends_with_fault(lines: &[String]) -> bool {
    matches!(lines.last(), Some(line) if is_fault(line.as_str()))
}

// The parser is not new, and what it has left are the lines.
fn is_late<T: Input + Drop>(
    alloc: Global,
    parser: &mut Parser<'_, T>,
    lines: &[String],
) -> Result<(), Difference> {
    is_refused(alloc, parser, WIDE, Wanted::NotFresh, lines)
}

// Within these limits this fault is answered, and these lines are left.
fn is_refused<T: Input + Drop>(
    alloc: Global,
    parser: &mut Parser<'_, T>,
    limits: Limits,
    wanted: Wanted<'_>,
    left: &[String],
) -> Result<(), Difference> {
    let answer = load_documents(alloc, parser, limits);
    let refused = is_wanted(alloc, &answer, wanted);
    drop(answer);
    refused?;
    is_left(alloc, parser, left)
}

fn is_wanted(
    alloc: Global,
    answer: &Result<Vec<Document>, TreeFault>,
    wanted: Wanted<'_>,
) -> Result<(), Difference> {
    match answer {
        Err(fault) => is_wanted_fault(alloc, fault, wanted),
        Ok(_) => Err(Difference::new(alloc, "documents in place of a fault")),
    }
}

fn is_wanted_fault(alloc: Global, fault: &TreeFault, wanted: Wanted<'_>) -> Result<(), Difference> {
    if wanted.is(alloc, fault)? {
        return Ok(());
    }
    let name = wanted.name();
    Err(Difference::described(format!(in alloc; "{fault} in place of {name}")))
}

// The answer is all documents or, where a fault ends the events, that fault.
fn is_loaded<T: CloneInput>(
    alloc: Global,
    answer: &Result<Vec<Document>, TreeFault>,
    fresh: &Parser<'_, T>,
    lines: &[String],
) -> Result<(), Difference> {
    match answer {
        Ok(documents) => has_loaded(alloc, documents.as_slice(), fresh, lines),
        Err(TreeFault::Parse(Fault::Scan(error))) => is_ended(alloc, error, lines),
        Err(fault) => Err(Difference::described(format!(in alloc; "{fault}"))),
    }
}

// A fault of the text ends the lines, and it is this one.
fn is_ended(alloc: Global, error: &ScanError, lines: &[String]) -> Result<(), Difference> {
    let line = format!(in alloc; "! {error}")?;
    match lines.last() {
        Some(wanted) if *wanted == line => Ok(()),
        _ => Err(Difference::new(alloc, line.as_str())),
    }
}

// No fault ends the lines, and the documents have the events of the parser.
fn has_loaded<T: CloneInput>(
    alloc: Global,
    documents: &[Document],
    fresh: &Parser<'_, T>,
    lines: &[String],
) -> Result<(), Difference> {
    if ends_with_fault(lines) {
        return Err(Difference::new(alloc, "documents in place of a fault"));
    }
    are_all(alloc, documents, fresh)?;
    have_copies(alloc, documents)
}

fn are_all<T: CloneInput>(
    alloc: Global,
    documents: &[Document],
    fresh: &Parser<'_, T>,
) -> Result<(), Difference> {
    let events = events_of(alloc, documents)?;
    gives_clone(alloc, fresh, events.as_slice())
}

fn gives_clone<T: CloneInput>(
    alloc: Global,
    parser: &Parser<'_, T>,
    events: &[Event<'_>],
) -> Result<(), Difference> {
    let mut clone = parser.try_clone()?;
    gives_all(alloc, &mut clone, events)
}

// A parser gives these events, and no more.
fn gives_all<T: Input>(
    alloc: Global,
    parser: &mut Parser<'_, T>,
    events: &[Event<'_>],
) -> Result<(), Difference> {
    for event in events {
        is_given(alloc, parser.next_event(), event)?;
    }
    if gives_one(parser) {
        return Err(Difference::new(alloc, "events are missing"));
    }
    Ok(())
}

fn is_given(
    alloc: Global,
    item: Option<Result<(Event<'_>, Span), Fault>>,
    event: &Event<'_>,
) -> Result<(), Difference> {
    let is_same = has_event(&item, event);
    drop(item);
    if is_same {
        return Ok(());
    }
    Err(Difference::described(format!(in alloc; "{event:?} in place of another")))
}

/// Whether this event was handed out.
pub fn has_event(item: &Option<Result<(Event<'_>, Span), Fault>>, event: &Event<'_>) -> bool {
    matches!(item, Some(Ok((given, _))) if *given == *event)
}

// The documents have copies that equal them.
fn have_copies(alloc: Global, documents: &[Document]) -> Result<(), Difference> {
    for document in documents {
        if !has_copy(document)? {
            return Err(Difference::new(alloc, "a copy differs"));
        }
    }
    Ok(())
}

fn has_copy(document: &Document) -> Result<bool, AllocError> {
    let copy = document.try_clone()?;
    let is_equal = copy == *document;
    drop(copy);
    Ok(is_equal)
}
