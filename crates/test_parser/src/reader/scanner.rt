//! Small texts: where the stream ends, which faults there are and where, and what comes before a key.

use crate::helpers::expect;
use crate::reader::shown::{push_place, push_stop};
use saphyr_input::StrInput;
use saphyr_input::input::Input;
use saphyr_scalar::{Marker, Span};
use saphyr_scanner::{Scanner, TokenKind};
use std::alloc::Global;
use std::process::Abort;

// The most characters that a text may have, a text, and the line of its tokens: how each is printed, where the stream
// ends, or a fault and its place.
type Row<'a> = (usize, &'a str, &'a str);

// Adds the text of a token, if it has one.
fn push_word(line: &mut String, text: &str) {
    if !text.is_empty() {
        let _ = write!(line, "{text} ");
    }
}

// Adds what is told of the next token. Whether there is one.
fn push_next<T: Input>(line: &mut String, alloc: Global, scanner: &mut Scanner<T>) -> bool {
    let Ok(next) = scanner.peek() else {
        return push_stop(line, scanner.stop());
    };
    let Some(kind) = next else {
        return false;
    };
    let mut span = Span::empty(Marker::new(0, 0, 0));
    scanner.span_into(&mut span);
    let mut text = String::new(alloc);
    if scanner.take_text_into(&mut text).is_err() {
        return push_stop(line, scanner.stop());
    }
    let _ = write!(line, "{kind:?} ");
    push_word(line, &text);
    if kind == TokenKind::StreamEnd {
        push_place(line, "@ ", span.start);
        push_place(line, " ", span.end);
    }
    true
}

// Adds what is told of all tokens.
fn push_tokens<T: Input>(line: &mut String, alloc: Global, scanner: &mut Scanner<T>) {
    for _ in 0..usize::MAX {
        if !push_next(line, alloc, scanner) {
            break;
        }
    }
}

fn push_all<T: Input + Drop>(line: &mut String, alloc: Global, input: T, limit: usize) {
    let mut scanner = Scanner::new(alloc, input, limit);
    push_tokens(line, alloc, &mut scanner);
    drop(scanner);
}

fn has_tokens(alloc: Global, text: &str, limit: usize, wanted: &str) -> bool {
    let mut line = String::new(alloc);
    push_all(&mut line, alloc, StrInput::new(text), limit);
    line.as_str() == wanted
}

fn expect_tokens(rt: &impl Abort, alloc: Global, rows: &[Row]) {
    for &(limit, text, line) in rows {
        expect(rt, has_tokens(alloc, text, limit, line), text);
    }
}

const ROWS: &[Row] = &[
    // Where streams end.
    (100, "", "StreamStart StreamEnd @ 0,1,0 0,1,0"),
    (100, "# c", "StreamStart StreamEnd @ 3,2,0 3,2,0"),
    (100, " \t# c\r\n\n", "StreamStart StreamEnd @ 8,3,0 8,3,0"),
    // Where texts are refused.
    (100, "\0", "StreamStart ! UnprintableCharacter @ 0,1,0"),
    (
        100,
        " \u{FEFF}",
        "StreamStart ! MisplacedByteOrderMark @ 1,1,1",
    ),
    (4, "# abc", "StreamStart ! TextTooLong @ 5,1,5"),
    (100, "\n]", "StreamStart ! MisplacedBracket @ 1,2,0"),
    (
        100,
        "# c\n @",
        "StreamStart ! UnexpectedCharacter('@') @ 5,2,1",
    ),
    // A key comes before its token.
    (
        100,
        "*a : [*b : ]",
        "StreamStart BlockMappingStart Key Alias a Value FlowSequenceStart FlowMappingStart Key Alias b \
         Value FlowMappingEnd FlowSequenceEnd BlockEnd StreamEnd @ 12,2,0 12,2,0",
    ),
];

#[test]
fn shows_tokens(rt: HostRuntime) {
    expect_tokens(&rt, rt.alloc(), ROWS);
}
