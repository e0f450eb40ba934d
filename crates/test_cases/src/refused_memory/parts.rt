//! What else takes memory: `dump`, a parser over an iterator, and an error of one's own.
use crate::refused_memory::ended::{is_ended, is_ended_by_memory};
use crate::refused_memory::outcome::Outcome;
use crate::refused_memory::ways::{by_next_event, last};
use crate::writing::WHOLE;
use saphyr_parser::{DumpFault, Fault, Input, Marker, Parser, ScanError, dump, lists_characters};
use std::alloc::{AllocError, Global};
use test_events::{Case, Difference, Expected, KeepingWriter};

/// `dump` writes whole lines, and where it answers lack of memory, nothing is left.
pub fn by_dump<T: Input>(
    alloc: Global,
    parser: &mut Parser<'_, T>,
    lines: &[String],
    text: &str,
) -> Result<Outcome, Difference> {
    match dump_lines(alloc, parser, last(lines), text)? {
        Outcome::Whole => is_ended(alloc, parser, last(lines)),
        Outcome::Refused => is_ended_by_memory(alloc, parser),
    }
}

// `dump` writes all lines, or whole ones up to lack of memory.
fn dump_lines<T: Input>(
    alloc: Global,
    parser: &mut Parser<'_, T>,
    last: &[String],
    text: &str,
) -> Result<Outcome, Difference> {
    let mut writer = KeepingWriter::new(alloc, WHOLE);
    let answer = dump(parser, &mut writer);
    let dumped = has_dumped(alloc, &writer, &answer, last, text);
    drop(answer);
    dumped
}

fn has_dumped(
    alloc: Global,
    writer: &KeepingWriter,
    answer: &Result<(), DumpFault>,
    last: &[String],
    text: &str,
) -> Result<Outcome, Difference> {
    let Some(rest) = writer.rest_of(text) else {
        return Err(Difference::new(alloc, "other bytes are written"));
    };
    match answer {
        Ok(()) => is_whole(alloc, rest),
        Err(DumpFault::Parse(fault)) => is_whole_up_to(alloc, fault, last, text, rest),
        Err(DumpFault::Write) => Err(write_failure(alloc, writer)),
    }
}

// No line is missing.
fn is_whole(alloc: Global, rest: &[u8]) -> Result<Outcome, Difference> {
    if rest.is_empty() {
        return Ok(Outcome::Whole);
    }
    Err(Difference::new(alloc, "lines are missing"))
}

// No line is missing before the fault, which is the last line, or the lines are whole up to lack of memory.
fn is_whole_up_to(
    alloc: Global,
    fault: &Fault,
    last: &[String],
    text: &str,
    rest: &[u8],
) -> Result<Outcome, Difference> {
    if matches!(fault, Fault::OutOfMemory) {
        return ends_line(alloc, text, rest);
    }
    is_last(alloc, fault, last)?;
    is_whole(alloc, rest)
}

/// The fault is that of the last line.
pub fn is_last(alloc: Global, fault: &Fault, last: &[String]) -> Result<(), Difference> {
    let mut expected = Expected::new(alloc, last);
    expected.is_next(Some(Err(fault)))
}

// The lines before the rest are whole.
fn ends_line(alloc: Global, text: &str, rest: &[u8]) -> Result<Outcome, Difference> {
    let count = text.len().saturating_sub(rest.len());
    match text.as_bytes().get(..count).unwrap_or(&[]) {
        [] | [.., b'\n'] => Ok(Outcome::Refused),
        _ => Err(Difference::new(alloc, "a line is cut")),
    }
}

// Why a write fails: the writer keeps what it takes.
fn write_failure(alloc: Global, writer: &KeepingWriter) -> Difference {
    if writer.has_failed() {
        return Difference::OutOfMemory(AllocError);
    }
    Difference::new(alloc, "no write has failed")
}

/// The events are taken of a parser over an iterator, whose window on the characters takes memory.
pub fn by_iterator(alloc: Global, case: &Case) -> Result<Outcome, Difference> {
    let iter = case.text.as_str().chars();
    lists_characters(&iter);
    match Parser::new_from_iter(alloc, iter) {
        Ok(parser) => by_next_event(
            alloc,
            &mut parser.keep_tags(case.keeps_tags),
            case.lines.as_slice(),
        ),
        Err(_) => Ok(Outcome::Refused),
    }
}

/// An error is made of a text.
pub fn by_error(alloc: Global, text: &str) -> Result<Outcome, Difference> {
    let mark = Marker::new(3, 1, 3);
    match ScanError::new_str(alloc, mark, text) {
        Ok(error) if error.info() == text && *error.marker() == mark => Ok(Outcome::Whole),
        Ok(_) => Err(Difference::new(alloc, "an error says something else")),
        Err(_) => Ok(Outcome::Refused),
    }
}
