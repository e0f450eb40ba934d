//! How many nodes documents have once their aliases are expanded.

use crate::trees::loaded::WIDE;
use crate::trees::questions::{Asked, Question, ask, expect_answers};
use std::alloc::{AllocError, Global};
use yaml_tree::Document;

pub(crate) fn is_small_once_expanded(
    alloc: Global,
    document: &Document,
) -> Result<bool, AllocError> {
    Ok(document.expanded_nodes(alloc)? <= 10_000)
}

const SMALL_AND_ENDLESS: &str = "- [&a x, *a]\n---\n&a [*a]";

const ASKED: &[Asked] = &[
    (SMALL_AND_ENDLESS, 0, Question::Small(true)),
    (SMALL_AND_ENDLESS, 1, Question::Small(false)),
    // Each alias counts as its node.
    ("{a: [b, c]}", 0, Question::Expanded(5)),
    ("[&a x, *a]", 0, Question::Expanded(3)),
    ("[&a [x, y], *a, {*a : *a}]", 0, Question::Expanded(14)),
    (
        "[&a [x], &b [*a, *a], *b, &a y, *a]",
        0,
        Question::Expanded(15),
    ),
    // An alias inside its own node has no end.
    ("&a [*a]", 0, Question::Expanded(u64::MAX)),
    ("[x, &a {k: [*a]}, *a]", 0, Question::Expanded(u64::MAX)),
];

#[test]
fn expanded_documents(rt: HostRuntime) {
    expect_answers(&rt, rt.alloc(), ASKED);
}

const FIRST: &str = "- &a x\n- &b [*a, *a, *a, *a, *a, *a, *a, *a, *a, *a]\n";

// Two lines, each a sequence of ten aliases for that of the line before.
const LAUGHS: &str = "\
- &a [*b, *b, *b, *b, *b, *b, *b, *b, *b, *b]
- &b [*a, *a, *a, *a, *a, *a, *a, *a, *a, *a]
";

// A text with so many times those two lines.
fn laughs(alloc: Global, times: usize) -> Result<String, AllocError> {
    let laughs = LAUGHS.repeat(alloc, times)?;
    format!(in alloc; "{FIRST}{laughs}")
}

// Whether that has so many nodes.
fn laughs_expand_to(alloc: Global, times: usize, nodes: u64) -> bool {
    match laughs(alloc, times) {
        Ok(text) => ask(alloc, text.as_str(), WIDE, 0, Question::Expanded(nodes)),
        Err(_) => false,
    }
}

#[test]
fn a_billion_laughs(rt: HostRuntime) {
    assert!(rt; laughs_expand_to(rt.alloc(), 4, 1_234_567_901));
    assert!(rt; laughs_expand_to(rt.alloc(), 15, u64::MAX));
}
