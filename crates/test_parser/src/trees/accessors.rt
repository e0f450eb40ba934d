//! What nodes tell of themselves, and how a loader of one's own takes events by `?`.

use crate::trees::questions::{Asked, Question, expect_answers};
use saphyr_parser::{Event, Fault, Input, Parser, ScalarStyle, Span};
use std::alloc::{AllocError, Global};
use yaml_tree::{Document, Node, TreeFault};

fn port_of(document: &Document) -> Option<&str> {
    document.root.get("server")?.get("port")?.as_str()
}

// Whether this is a mapping of so many pairs, and no sequence.
fn has_pairs(node: &Node, count: usize) -> bool {
    match node.pairs() {
        Some(pairs) => node.is_mapping() && node.items().is_none() && pairs.len() == count,
        None => false,
    }
}

// Whether a document has a server with this port and so many pairs, and no port of its own.
pub(crate) fn has_server(document: &Document, port: &str, pairs: usize) -> bool {
    match document.root.get("server") {
        Some(server) => {
            port_of(document) == Some(port)
                && document.root.get("port").is_none()
                && has_pairs(server, pairs)
        }
        None => false,
    }
}

fn is_bare_sequence(node: &Node) -> bool {
    node.is_sequence() && node.anchor().is_none() && node.tag().is_none()
}

// Whether this is an alias of the anchor with this id, and nothing else.
fn is_bare_alias(node: &Node, id: usize) -> bool {
    node.is_alias()
        && node.as_alias() == Some(id)
        && node.anchor().is_none()
        && node.as_str().is_none()
}

// Whether this is a scalar in single quotes, whose anchor has this id.
fn is_anchored_scalar(node: &Node, id: usize) -> bool {
    node.is_scalar()
        && node.style() == Some(ScalarStyle::SingleQuoted)
        && node.anchor() == Some(id)
        && node.as_alias().is_none()
}

fn has_suffix(node: &Node, suffix: &str) -> bool {
    match node.tag() {
        Some(tag) => tag.suffix.as_str() == suffix,
        None => false,
    }
}

// Whether this is a sequence of a scalar with an anchor and a tag, an alias of that, and more.
pub(crate) fn has_nodes(root: &Node) -> bool {
    match root.items() {
        Some([first, second, ..]) => {
            is_bare_sequence(root)
                && is_anchored_scalar(first, 1)
                && has_suffix(first, "t")
                && is_bare_alias(second, 1)
        }
        _ => false,
    }
}

// The node that another stands for, where that is an alias.
fn followed<'a>(
    alloc: Global,
    document: &'a Document,
    node: &'a Node,
) -> Result<Option<&'a Node>, AllocError> {
    match node.as_alias() {
        Some(id) => document.node_of_anchor(alloc, id),
        None => Ok(Some(node)),
    }
}

fn item_of(node: &Node, index: usize) -> Option<&Node> {
    node.items()?.get(index)
}

// Whether an item of a sequence stands for a mapping with this anchor.
pub(crate) fn is_mapping_behind(
    alloc: Global,
    document: &Document,
    index: usize,
    id: usize,
) -> bool {
    match item_of(&document.root, index) {
        Some(item) => match followed(alloc, document, item) {
            Ok(Some(node)) => node.is_mapping() && node.anchor() == Some(id),
            _ => false,
        },
        None => false,
    }
}

// Whether the node with this anchor is a sequence, or isn't, or there is none.
pub(crate) fn is_sequence_at(
    alloc: Global,
    document: &Document,
    id: usize,
    wanted: Option<bool>,
) -> bool {
    match document.node_of_anchor(alloc, id) {
        Ok(Some(node)) => wanted == Some(node.is_sequence()),
        Ok(None) => wanted.is_none(),
        Err(_) => false,
    }
}

const SERVER: &str = "server:\n  ? [port]\n  : 1\n  port: 8080\n  'port': 9\n";

const ALIASES: &str = "[&a x, &b {k: &c [*a]}, *b, *a]";

const ASKED: &[Asked] = &[
    (SERVER, 0, Question::Server("8080", 3)),
    ("[&a !t 'x', *a, [], y]", 0, Question::Nodes),
    (ALIASES, 0, Question::MappingBehind(2, 2)),
    (ALIASES, 0, Question::SequenceAt(0, None)),
    (ALIASES, 0, Question::SequenceAt(3, Some(true))),
    (ALIASES, 0, Question::SequenceAt(4, None)),
];

#[test]
fn what_nodes_show(rt: HostRuntime) {
    expect_answers(&rt, rt.alloc(), ASKED);
}

// How many scalars an item of a parser is.
fn scalars_of(item: Result<(Event<'_>, Span), Fault>) -> Result<usize, TreeFault> {
    let (event, _span) = item?;
    let is_scalar = matches!(&event, Event::Scalar(..));
    drop(event);
    Ok(usize::from(is_scalar))
}

// How many scalars are among so many events of a parser.
fn count_scalars<T: Input>(parser: &mut Parser<'_, T>, events: usize) -> Result<usize, TreeFault> {
    let mut count = 0usize;
    for _ in 0..events {
        if let Some(item) = parser.next_event() {
            count = count.saturating_add(scalars_of(item)?);
        }
    }
    Ok(count)
}

// Whether a parser gives so many scalars, or, where none is given, its fault comes through.
fn has_scalars<T: Input + Drop>(mut parser: Parser<'_, T>, scalars: Option<usize>) -> bool {
    let counted = count_scalars(&mut parser, 9);
    drop(parser);
    match counted {
        Ok(count) => scalars == Some(count),
        Err(fault) => {
            let is_parsers = matches!(&fault, TreeFault::Parse(_));
            drop(fault);
            is_parsers && scalars.is_none()
        }
    }
}

// Whether a text has so many scalars, or is refused.
fn counts(alloc: Global, text: &str, scalars: Option<usize>) -> bool {
    has_scalars(Parser::new_from_str(alloc, text), scalars)
}

#[test]
fn faults_by_the_question_mark(rt: HostRuntime) {
    assert!(rt; counts(rt.alloc(), "[a, b]", Some(2)));
    assert!(rt; counts(rt.alloc(), "[a", None));
}
