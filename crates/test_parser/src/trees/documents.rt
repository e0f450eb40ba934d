//! What no clause says: that calls succeed while there is memory, which fault a text gets, the printed texts,
//! that a deep tree is dropped on a small stack, and how much memory a node takes.

use crate::trees::loaded::{limits, load};
use crate::trees::one_by_one::{Call, LATE, are_answers};
use crate::trees::questions::{Asked, Question, expect_answers};
use std::alloc::Global;
use std::mem::size_of;
use yaml_tree::{Document, Limits, Node};

const TWO_DOCUMENTS: &str = "? {}\n--- &r\na:\n";

// Texts with the events that are taken first, the most nodes and open collections, and what loading gives.
const LOADED: &[((&str, usize), (usize, usize), &str)] = &[
    (("", 0), (0, 0), "[]"),
    (
        ("[&a x, *a]", 0),
        (3, 1),
        "[Document { explicit: false, root: \
        Seq(0, None, [Scalar(\"x\", Plain, 1, None), Alias(1)]) }]",
    ),
    (
        (TWO_DOCUMENTS, 0),
        (6, 2),
        "[Document { explicit: false, root: \
        Map(0, None, [(Map(0, None, []), Scalar(\"\", Plain, 0, None))]) }, \
        Document { explicit: true, root: \
        Map(1, None, [(Scalar(\"a\", Plain, 0, None), Scalar(\"\", Plain, 0, None))]) }]",
    ),
    // Limits.
    (
        ("[&a x, *a]", 0),
        (2, 1),
        "more than 2 nodes at byte 7 line 1 column 8",
    ),
    (
        ("[[a]]", 0),
        (9, 1),
        "more than 1 open collections at byte 1 line 1 column 2",
    ),
    (
        ("[[a]]", 0),
        (0, 0),
        "more than 0 nodes at byte 0 line 1 column 1",
    ),
    (
        ("- a", 0),
        (9, 0),
        "more than 0 open collections at byte 0 line 1 column 1",
    ),
    // A fault of the text.
    (
        ("\n# syntax error\nscalar\nkey: [1, 2]]\nkey1:a2\n", 0),
        (100, 100),
        "mapping values are not allowed in this context at byte 26 line 4 column 4",
    ),
    // Parsers that are not new.
    (("{\"a\":[1,true]}", 1), (9, 9), LATE),
    (("", 1), (9, 9), LATE),
];

#[test]
fn what_loading_gives(rt: HostRuntime) {
    for &((text, events), (nodes, depth), wanted) in LOADED {
        let limits = limits(nodes, depth);
        assert!(rt;
            are_answers(rt.alloc(), (text, events), Call::All, limits, &[wanted]),
            "{text:?}"
        );
    }
}

pub(crate) fn has_copy(document: &Document) -> bool {
    match document.try_clone() {
        Ok(copy) => {
            let is_same = copy == *document;
            drop(copy);
            is_same
        }
        Err(_) => false,
    }
}

const ASKED: &[Asked] = &[
    (TWO_DOCUMENTS, 0, Question::Copy),
    (TWO_DOCUMENTS, 1, Question::Copy),
];

#[test]
fn documents_have_copies(rt: HostRuntime) {
    expect_answers(&rt, rt.alloc(), ASKED);
}

#[test]
fn bytes_of_a_node(rt: HostRuntime) {
    assert!(rt; size_of::<Node>() == 104);
    assert!(rt; size_of::<(Node, Node)>() == 208);
}

fn is_one_document(alloc: Global, text: &str, limits: Limits) -> bool {
    match load(alloc, text, limits) {
        Ok(documents) => {
            let is_one = documents.len() == 1;
            drop(documents);
            is_one
        }
        Err(fault) => {
            drop(fault);
            false
        }
    }
}

// Whether so many times this is a text of one document with so many nodes at most.
fn is_deep_document(alloc: Global, part: &str, nodes: usize) -> bool {
    match part.repeat(alloc, 100_000) {
        Ok(text) => is_one_document(alloc, text.as_str(), limits(nodes, 100_000)),
        Err(_) => false,
    }
}

#[test]
fn deep_trees(rt: HostRuntime) {
    assert!(rt; is_deep_document(rt.alloc(), "- ", 100_001));
    assert!(rt; is_deep_document(rt.alloc(), "? ", 200_001));
}
