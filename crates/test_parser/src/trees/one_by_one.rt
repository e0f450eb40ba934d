//! What call after call on one parser answers, above all of one document at a time.
//!
//! What calls a parser is generic over its input, and is called for a text in one place, since each call at a type is
//! dear to prove.

use crate::helpers::is_text;
use crate::trees::loaded::limits;
use saphyr_parser::{Input, Parser};
use std::alloc::{AllocError, Global};
use yaml_tree::{Limits, TreeFault, load_document, load_documents};

/// Which documents a call loads.
#[derive(Clone, Copy)]
pub(crate) enum Call {
    All,
    Next,
}

// All documents, as they print, or the fault.
fn all_documents<T: Input>(
    alloc: Global,
    parser: &mut Parser<'_, T>,
    limits: Limits,
) -> Result<String, AllocError> {
    match load_documents(alloc, parser, limits) {
        Ok(documents) => {
            let text = format!(in alloc; "{documents:?}");
            drop(documents);
            text
        }
        Err(fault) => {
            let text = format!(in alloc; "{fault}");
            drop(fault);
            text
        }
    }
}

// The lines of the next document, or of the fault in its place.
fn next_document<T: Input>(
    alloc: Global,
    parser: &mut Parser<'_, T>,
    limits: Limits,
) -> Result<String, AllocError> {
    match load_document(alloc, parser, limits) {
        Ok(document) => {
            let text = format!(in alloc; "{document:?}");
            drop(document);
            text
        }
        Err(fault) => {
            let text = format!(in alloc; "{fault}");
            drop(fault);
            text
        }
    }
}

// Whether a call answers what is printed so.
fn is_answer<T: Input>(
    alloc: Global,
    parser: &mut Parser<'_, T>,
    call: Call,
    limits: Limits,
    wanted: &str,
) -> bool {
    let answer = match call {
        Call::All => all_documents(alloc, parser, limits),
        Call::Next => next_document(alloc, parser, limits),
    };
    is_text(answer, wanted)
}

// Whether the next calls answer what is printed so.
fn are_next_answers<T: Input>(
    alloc: Global,
    parser: &mut Parser<'_, T>,
    call: Call,
    limits: Limits,
    wanted: &[&str],
) -> bool {
    for answer in wanted {
        if !is_answer(alloc, parser, call, limits, answer) {
            return false;
        }
    }
    true
}

// Takes so many events.
fn pass<T: Input>(parser: &mut Parser<'_, T>, events: usize) {
    for _ in 0..events {
        drop(parser.next_event());
    }
}

// Whether the calls after so many events answer what is printed so.
fn are_later_answers<T: Input + Drop>(
    alloc: Global,
    mut parser: Parser<'_, T>,
    events: usize,
    call: Call,
    limits: Limits,
    wanted: &[&str],
) -> bool {
    pass(&mut parser, events);
    let holds = are_next_answers(alloc, &mut parser, call, limits, wanted);
    drop(parser);
    holds
}

/// Whether a text gives these answers.
pub(crate) fn are_answers(
    alloc: Global,
    (text, events): (&str, usize),
    call: Call,
    limits: Limits,
    wanted: &[&str],
) -> bool {
    let parser = Parser::new_from_str(alloc, text);
    are_later_answers(alloc, parser, events, call, limits, wanted)
}

const A: &str = "Some(Document { explicit: false, root: Scalar(\"a\", Plain, 0, None) })";

const B: &str =
    "Some(Document { explicit: true, root: Seq(0, None, [Scalar(\"b\", Plain, 0, None)]) })";

const EMPTY: &str = "Some(Document { explicit: true, root: Scalar(\"\", Plain, 0, None) })";

pub(crate) const LATE: &str = "the parser has handed out events";

const THREE: &str = "a\n--- [b]\n---\n";

const WRONG: &str = "a\n---\nscalar\nkey: v\n";

const FAULT: &str = "mapping values are not allowed in this context at byte 16 line 4 column 4";

const TWO: &str = "a\n--- [b]\n";

const GROWING: &str = "--- [b]\n--- [b]\n--- [[]]\n";

const DEEP: &str = "more than 1 open collections at byte 21 line 3 column 6";

const MANY: &str = "more than 1 nodes at byte 5 line 1 column 6";

// Texts with the events that are taken first, the most nodes and open collections, and the answers.
const ANSWERS: &[((&str, usize), (usize, usize), &[&str])] = &[
    // Few documents.
    (("", 0), (9, 9), &["None", "None"]),
    (("a", 0), (9, 9), &[A, "None", "None"]),
    ((THREE, 0), (9, 9), &[A, B, EMPTY, "None", "None"]),
    // A fault comes after the documents before it.
    ((WRONG, 0), (9, 9), &[A, FAULT, "None"]),
    // Parsers between documents, and inside.
    ((TWO, 1), (9, 9), &[A, B]),
    ((TWO, 2), (9, 9), &[LATE, LATE]),
    ((TWO, 3), (9, 9), &[LATE, LATE]),
    ((TWO, 4), (9, 9), &[B, "None"]),
    // Limits are on each document.
    ((GROWING, 0), (2, 1), &[B, B, DEEP, LATE]),
    ((GROWING, 0), (1, 1), &[MANY, LATE]),
];

#[test]
fn what_calls_answer(rt: HostRuntime) {
    for &((text, events), (nodes, depth), wanted) in ANSWERS {
        let limits = limits(nodes, depth);
        assert!(rt;
            are_answers(rt.alloc(), (text, events), Call::Next, limits, wanted),
            "{text:?}"
        );
    }
}

// How many documents of a text a `---` begins.
fn count_explicit(alloc: Global, text: &str, limits: Limits) -> Result<usize, TreeFault> {
    let mut parser = Parser::new_from_str(alloc, text);
    let mut count = 0usize;
    while let Some(document) = load_document(alloc, &mut parser, limits)? {
        if document.explicit {
            count = count.saturating_add(1);
        }
    }
    Ok(count)
}

fn are_two_explicit(alloc: Global, text: &str) -> bool {
    match count_explicit(alloc, text, limits(9, 9)) {
        Ok(count) => count == 2,
        Err(fault) => {
            drop(fault);
            false
        }
    }
}

#[test]
fn a_loop_over_documents(rt: HostRuntime) {
    assert!(rt; are_two_explicit(rt.alloc(), THREE));
}
