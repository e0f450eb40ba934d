//! What `dump` writes and answers, also where a writer fails, and the texts of its faults.
use crate::helpers::{expect, is_text};
use crate::writer::{Keeping, Manner, WHOLE};
use saphyr_parser::{DumpFault, Fault, Input, Marker, Parser, ScanError, dump};
use std::alloc::Global;

// A fault prints this.
fn prints(alloc: Global, fault: DumpFault, text: &str) -> bool {
    let printed = fault.to_string(alloc);
    drop(fault);
    is_text(printed, text)
}

// `dump` answers so, the text of its fault or nothing, and the writer has then taken these lines.
fn is_dumped<T: Input + Drop>(
    alloc: Global,
    parser: &mut Parser<'_, T>,
    out: &mut Keeping,
    answer: &str,
    lines: &str,
) -> bool {
    let is_answer = match dump(parser, out) {
        Ok(()) => answer.is_empty(),
        Err(fault) => prints(alloc, fault, answer),
    };
    is_answer && out.has_taken(lines)
}

// `dump` answers so, call by call, and after each the writer has taken these lines.
fn are_dumped<T: Input + Drop>(
    alloc: Global,
    mut parser: Parser<'_, T>,
    out: &mut Keeping,
    answers: &[&str],
    lines: &str,
) -> bool {
    let mut holds = true;
    for answer in answers {
        holds = is_dumped(alloc, &mut parser, out, answer, lines) && holds;
    }
    drop(parser);
    holds
}

// Whether a text is dumped so by a writer that has taken nothing.
fn dumps(alloc: Global, text: &str, manner: Manner, answers: &[&str], lines: &str) -> bool {
    let mut out = Keeping::new(alloc, manner);
    let parser = Parser::new_from_str(alloc, text);
    let holds = are_dumped(alloc, parser, &mut out, answers, lines);
    drop(out);
    holds
}

// A second call finds nothing to write where the first ended.
#[test]
fn prints_through_a_writer_that_takes_little(rt: HostRuntime) {
    let text = "# c";
    for at_a_time in 1..4usize {
        let manner = Manner { at_a_time, ..WHOLE };
        let holds = dumps(rt.alloc(), text, manner, &["", ""], "+STR\n-STR\n");
        expect(&rt, holds, text);
    }
}

// A writer with too little room for the lines of an empty text is filled, and `dump` says that it can't write.
fn is_filled(alloc: Global, room: usize, is_silent: bool) -> bool {
    let manner = Manner {
        at_a_time: 3,
        room,
        is_silent,
        ..WHOLE
    };
    let lines = "+STR\n-STR\n".get(..room).unwrap_or("");
    dumps(alloc, "", manner, &["can't write"], lines)
}

#[test]
fn stops_where_the_writer_fails(rt: HostRuntime) {
    for room in 0..10usize {
        let holds = is_filled(rt.alloc(), room, false) && is_filled(rt.alloc(), room, true);
        assert!(rt; holds, "{room}");
    }
}

// A second call has nothing to tell after a fault.
#[test]
fn stops_at_a_fault(rt: HostRuntime) {
    let answers = &["found unprintable character at byte 0 line 1 column 1", ""];
    let holds = dumps(rt.alloc(), "\0", WHOLE, answers, "+STR\n");
    expect(&rt, holds, "\0");
}

// The fault of a text that is refused there prints this.
fn prints_refusal(alloc: Global, mark: Marker, text: &str) -> bool {
    match ScanError::new_str(alloc, mark, "x") {
        Ok(error) => prints(alloc, DumpFault::Parse(Fault::Scan(error)), text),
        Err(_) => false,
    }
}

#[test]
fn says_why_lines_are_missing(rt: HostRuntime) {
    let alloc = rt.alloc();
    let holds = prints_refusal(alloc, Marker::new(3, 1, 3), "x at byte 3 line 1 column 4")
        && prints(alloc, DumpFault::Parse(Fault::OutOfMemory), "out of memory")
        && prints(alloc, DumpFault::Write, "can't write");
    assert!(rt; holds);
}
