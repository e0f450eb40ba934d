//! Texts that are long or deep.

use crate::failing;
use crate::inputs::{Comparison, compare_inputs};
use crate::writing::{WHOLE, is_dumped};
use saphyr_parser::{CloneInput, Parser};
use std::alloc::{AllocError, Global};
use test_events::Difference;

/// Compares what `dump` writes of each text.
pub fn compare(alloc: Global) -> Result<(), Difference> {
    Difference::found_in(alloc, "deep flow mappings", nest_flow(alloc))?;
    Difference::found_in(alloc, "deep block sequences", nest_block(alloc))?;
    Difference::found_in(alloc, "a long key", take_key(alloc))
}

// A colon may not be before a brace, at the first of 10,000.
fn nest_flow(alloc: Global) -> Result<(), Difference> {
    let mut text = String::new(alloc);
    push_many(&mut text, "{a:", 10_000)?;
    push_many(&mut text, "}", 10_000)?;
    let fault = "! ':' may not precede any of `[{` in flow mapping at byte 2 line 1 column 3";
    is_dump_of(alloc, text.as_str(), Some(fault), "+STR\n")
}

// Block collections may be nested as deep as one likes.
fn nest_block(alloc: Global) -> Result<(), Difference> {
    let text = between(alloc, "", "- ", 10_000, "a")?;
    let lines = nested_lines(alloc)?;
    is_dump_of(alloc, text.as_str(), None, lines.as_str())
}

// The lines of 10,000 nested sequences.
fn nested_lines(alloc: Global) -> Result<String, AllocError> {
    let mut lines = between(alloc, "+STR\n+DOC\n", "+SEQ\n", 10_000, "=VAL :a\n")?;
    push_many(&mut lines, "-SEQ\n", 10_000)?;
    lines.push_str("-DOC\n-STR\n")?;
    Ok(lines)
}

// A key inside a flow collection may be as long as one likes.
fn take_key(alloc: Global) -> Result<(), Difference> {
    let text = between(alloc, "[", "a", 100_000, ": b]")?;
    let begin = "+STR\n+DOC\n+SEQ\n+MAP\n=VAL :";
    let lines = between(
        alloc,
        begin,
        "a",
        100_000,
        "\n=VAL :b\n-MAP\n-SEQ\n-DOC\n-STR\n",
    )?;
    is_dump_of(alloc, text.as_str(), None, lines.as_str())
}

// The text gives these lines, and this fault or none.
fn is_dump_of(
    alloc: Global,
    text: &str,
    fault: Option<&str>,
    lines: &str,
) -> Result<(), Difference> {
    let dumped = Dumped {
        alloc,
        lines,
        fault,
    };
    compare_inputs(alloc, text, &dumped)?;
    failing::compare(alloc, text, lines, fault)
}

// A piece, so many times, between two others.
fn between(
    alloc: Global,
    front: &str,
    piece: &str,
    count: usize,
    back: &str,
) -> Result<String, AllocError> {
    let mut text = String::from_str(alloc, front)?;
    push_many(&mut text, piece, count)?;
    text.push_str(back)?;
    Ok(text)
}

fn push_many(text: &mut String, piece: &str, count: usize) -> Result<(), AllocError> {
    for _ in 0..count {
        text.push_str(piece)?;
    }
    Ok(())
}

/// What `dump` is to write and to answer.
#[derive(Clone, Copy)]
struct Dumped<'a> {
    alloc: Global,
    lines: &'a str,
    fault: Option<&'a str>,
}

impl Comparison for Dumped<'_> {
    fn compare<T: CloneInput>(&self, parser: Parser<'_, T>) -> Result<(), Difference> {
        if is_dumped(self.alloc, parser, self.lines, self.fault, WHOLE)? {
            return Err(Difference::new(self.alloc, "a writer that takes all fails"));
        }
        Ok(())
    }
}
