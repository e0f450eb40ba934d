//! What a reader of scalars tells of the text that it is at, as a line. Few functions then hold what is
//! read, which is dear to prove where it is dropped, and a test is a table of texts and lines. What calls a reader is
//! generic over its input, and is called for a text in one place, since each call at a type is dear.
//!
//! A line has what was read, `@` and the places that belong to it, and but for a block scalar `>` and the place that is
//! reached, with `blank` where only blanks come before that on its line. Or it has `!`, a fault, and its place. A
//! place is an index, a line and a column.
//!
//! A row of a table is one text, since a table is dearer to prove the more fields its rows have: the first column
//! right of the enclosing block collection, a space, the text that is read, ` => `, and the line.
//!
//! Where memory is lacking a piece of the line is missing, so that it is not the one that a test wants.

use crate::helpers::expect;
use saphyr_input::StrInput;
use saphyr_input::input::{Input, SkipTabs};
use saphyr_scalar::values::{BlockStyle, Quote};
use saphyr_scalar::{
    BlockScalar, Directive, DirectiveLine, Marker, PlainEnd, Reader, Refusal, Stop,
};
use std::alloc::Global;
use std::process::Abort;

fn push_parts(line: &mut String, directive: &Directive) {
    let _ = match directive {
        Directive::Version(major, minor) => write!(line, "YAML {major}.{minor}"),
        Directive::TagPrefix(handle, prefix) => write!(line, "TAG {handle} {prefix}"),
        Directive::Reserved(name) => line.push_str(name.as_str()),
    };
}

/// Adds a text.
pub(crate) fn push(line: &mut String, text: &str) {
    let _ = line.push_str(text);
}

/// Adds a place after a sign.
pub(crate) fn push_place(line: &mut String, sign: &str, place: Marker) {
    let _ = write!(line, "{sign}{},{},{}", place.index, place.line, place.col);
}

fn push_refusal(line: &mut String, refusal: Refusal) {
    let _ = write!(line, "! {:?}", refusal.text);
    push_place(line, " @ ", refusal.mark);
}

/// Adds a fault and its place. Nothing was read.
pub(crate) fn push_stop(line: &mut String, stop: Stop) -> bool {
    match stop {
        Stop::Refused(refusal) => push_refusal(line, refusal),
        Stop::OutOfMemory => push(line, "out of memory"),
    }
    false
}

// Adds what is told of a quoted scalar, or of the name of an anchor or an alias. Returns whether it is told where the
// reader is after that.
fn push_text(line: &mut String, text: &str, read: Result<(), Stop>) -> bool {
    match read {
        Ok(()) => {
            push(line, text);
            true
        }
        Err(stop) => push_stop(line, stop),
    }
}

fn push_tag(line: &mut String, text: &str, read: Result<usize, Stop>) -> bool {
    match read {
        Ok(handle) => {
            push(line, text.get(..handle).unwrap_or("?"));
            push(line, "|");
            push(line, text.get(handle..).unwrap_or("?"));
            true
        }
        Err(stop) => push_stop(line, stop),
    }
}

fn push_plain(line: &mut String, text: &str, read: Result<PlainEnd, Stop>) -> bool {
    match read {
        Ok(plain) => {
            push(line, text);
            push_place(line, " @ ", plain.end);
            if let Some(comment) = plain.comment {
                push_place(line, " # ", comment);
            }
            true
        }
        Err(stop) => push_stop(line, stop),
    }
}

fn push_block(line: &mut String, read: Result<BlockScalar, Stop>) -> bool {
    match read {
        Ok(block) => {
            push(line, block.text.as_str());
            push_place(line, " @ ", block.span.start);
            push_place(line, " ", block.span.end);
            false
        }
        Err(stop) => push_stop(line, stop),
    }
}

fn push_directive(line: &mut String, read: Result<DirectiveLine, Stop>) -> bool {
    match read {
        Ok(found) => {
            push_parts(line, &found.directive);
            push_place(line, " @ ", found.end);
            true
        }
        Err(stop) => push_stop(line, stop),
    }
}

// Adds what is told of what a reader is at, by the character that it begins with. Returns whether it is told where
// the reader is after that.
fn push_found<T: Input>(
    line: &mut String,
    alloc: Global,
    reader: &mut Reader<T>,
    in_flow: bool,
    indent: usize,
) -> bool {
    let mut text = String::new(alloc);
    match reader.look() {
        '!' => {
            let read = reader.read_tag_onto(in_flow, &mut text);
            push_tag(line, text.as_str(), read)
        }
        '&' | '*' => {
            let read = reader.read_anchor_onto(&mut text);
            push_text(line, text.as_str(), read)
        }
        '%' => push_directive(line, reader.read_directive(alloc)),
        '"' => {
            let read = reader.read_quoted_onto(Quote::Double, indent, &mut text);
            push_text(line, text.as_str(), read)
        }
        '\'' => {
            let read = reader.read_quoted_onto(Quote::Single, indent, &mut text);
            push_text(line, text.as_str(), read)
        }
        '|' => push_block(
            line,
            reader.read_block_scalar(alloc, BlockStyle::Literal, indent),
        ),
        '>' => push_block(
            line,
            reader.read_block_scalar(alloc, BlockStyle::Folded, indent),
        ),
        _ => {
            let read = reader.read_plain_onto(in_flow, indent, &mut text);
            push_plain(line, text.as_str(), read)
        }
    }
}

// Adds what is told of a text, after the blanks with which it begins.
fn push_shown<T: Input + Drop>(
    line: &mut String,
    alloc: Global,
    input: T,
    in_flow: bool,
    indent: usize,
) {
    let mut reader = Reader::new(input);
    let _ = reader.skip_ws_to_eol(SkipTabs::Yes);
    if push_found(line, alloc, &mut reader, in_flow, indent) {
        push_place(line, " > ", reader.mark());
        push(line, if reader.blank_so_far() { " blank" } else { "" });
    }
}

// A row: the first column right of the enclosing block collection, a text, and the line that is told of it.
fn parts_of(row: &str) -> Option<(usize, &str, &str)> {
    let (indent, row) = row.split_once(" ")?;
    let (text, line) = row.split_once(" => ")?;
    let indent = indent.parse::<usize>().ok()?;
    Some((indent, text, line))
}

fn is_shown(alloc: Global, in_flow: bool, row: &str) -> bool {
    let Some((indent, text, wanted)) = parts_of(row) else {
        return false;
    };
    let mut line = String::new(alloc);
    push_shown(&mut line, alloc, StrInput::new(text), in_flow, indent);
    line.as_str() == wanted
}

/// Stops the test where another line is told than a row has, inside flow or outside.
pub(crate) fn expect_shown(rt: &impl Abort, alloc: Global, in_flow: bool, rows: &[&str]) {
    for &row in rows {
        expect(rt, is_shown(alloc, in_flow, row), row);
    }
}
