//! Paths to nodes: where a wrong value is.

use crate::trees::questions::{Asked, Question, expect_answers};
use saphyr_parser::Span;
use std::alloc::{AllocError, Global};
use yaml_tree::{Node, Step, Visit, Walk};

// The text of the key with this index.
fn key_of(node: &Node, index: usize) -> Option<&str> {
    node.follow(&[Step::Key(index)])?.as_str()
}

// Adds a step from a node in words: to a value by the text of its key, to a key by its number.
fn push_word(words: &mut String, node: &Node, step: Step) {
    let _ = match step {
        Step::Index(index) => write!(words, "[{index}]"),
        Step::Key(index) => write!(words, "?{index}"),
        Step::Value(index) => {
            let key = key_of(node, index).unwrap_or("?");
            write!(words, ".{key}")
        }
    };
}

// A path in words, as `.servers[2].port`. Where memory is lacking a word is missing.
fn words_of(alloc: Global, root: &Node, path: &[Step]) -> String {
    let mut words = String::new(alloc);
    let mut node = root;
    for step in path {
        push_word(&mut words, node, *step);
        match node.follow(&[*step]) {
            Some(part) => node = part,
            None => return words,
        }
    }
    words
}

// The path to the first scalar of a tree that is this one.
fn path_to(
    alloc: Global,
    root: &Node,
    spans: &[Span],
    scalar: &str,
) -> Result<Option<Vec<Step>>, AllocError> {
    let mut walk = Walk::new(alloc, root, spans);
    while let Some(visit) = walk.next() {
        if visit?.node.as_str() == Some(scalar) {
            return Ok(Some(walk.path(alloc)?));
        }
    }
    Ok(None)
}

// Whether that is this in words, or there is none.
pub(crate) fn is_path_to(
    alloc: Global,
    root: &Node,
    spans: &[Span],
    scalar: &str,
    wanted: Option<&str>,
) -> bool {
    match path_to(alloc, root, spans, scalar) {
        Ok(Some(path)) => {
            let words = words_of(alloc, root, path.as_slice());
            drop(path);
            wanted == Some(words.as_str())
        }
        Ok(None) => wanted.is_none(),
        Err(_) => false,
    }
}

// Whether the path of a walk leads from the root to the node that it visits.
fn leads_to(alloc: Global, root: &Node, walk: &Walk<'_>, visit: Visit<'_>) -> bool {
    match walk.path(alloc) {
        Ok(path) => {
            let node = root.follow(path.as_slice());
            let leads = path.len() == visit.depth && node == Some(visit.node);
            drop(path);
            leads
        }
        Err(_) => false,
    }
}

// How many nodes a walk visits, where each path leads to its node.
pub(crate) fn count_visits(alloc: Global, root: &Node, spans: &[Span]) -> Option<usize> {
    let mut visits = 0usize;
    let mut walk = Walk::new(alloc, root, spans);
    while let Some(visit) = walk.next() {
        match visit {
            Ok(visit) if leads_to(alloc, root, &walk, visit) => visits = visits.saturating_add(1),
            _ => return None,
        }
    }
    Some(visits)
}

const SERVERS: &str = "name: x\nservers:\n- port: 80\n- []\n- {host: y, port: '8O'}\n";

const COLLECTIONS: &str = "- ? [a, b]\n  : c\n";

const PAIR: &str = "{a: [b]}";

const ASKED: &[Asked] = &[
    (SERVERS, 0, Question::Path("8O", Some(".servers[2].port"))),
    (COLLECTIONS, 0, Question::Path("b", Some("[0]?0[1]"))),
    (COLLECTIONS, 0, Question::Path("c", Some("[0].?"))),
    ("a", 0, Question::Path("a", Some(""))),
    (SERVERS, 0, Question::Path("z", None)),
    ("[a, {b: [], ? {} : c}, [[d], e]]", 0, Question::Paths(11)),
    (
        PAIR,
        0,
        Question::Leads(&[Step::Value(0), Step::Index(0)], true),
    ),
    (
        PAIR,
        0,
        Question::Leads(&[Step::Value(0), Step::Index(1)], false),
    ),
    (
        PAIR,
        0,
        Question::Leads(&[Step::Key(0), Step::Index(0)], false),
    ),
    (PAIR, 0, Question::Leads(&[Step::Index(0)], false)),
];

#[test]
fn where_paths_lead(rt: HostRuntime) {
    expect_answers(&rt, rt.alloc(), ASKED);
}
