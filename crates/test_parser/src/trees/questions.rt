//! What is asked of a document. One function loads a text, asks and lets go, since functions that hold trees are dear
//! to prove: a test is a table of texts and questions.

use crate::trees::accessors::{has_nodes, has_server, is_mapping_behind, is_sequence_at};
use crate::trees::documents::has_copy;
use crate::trees::expanding::is_small_once_expanded;
use crate::trees::loaded::{WIDE, limits, load_with_spans};
use crate::trees::paths::{count_visits, is_path_to};
use crate::trees::places::{Place, last_depth, makes_visits};
use saphyr_parser::Span;
use std::alloc::Global;
use std::process::Abort;
use yaml_tree::{Document, Limits, SpannedDocuments, Step};

/// A question with the answer that is wanted.
#[derive(Clone, Copy)]
pub(crate) enum Question {
    /// Is a copy equal to it?
    Copy,
    /// Has it a server with this port and so many pairs, and no port of its own?
    Server(&'static str, usize),
    /// Is it a sequence of a scalar with an anchor and a tag, an alias of that, and more?
    Nodes,
    /// Does the item with this index stand for a mapping with this anchor?
    MappingBehind(usize, usize),
    /// Is the node with this anchor a sequence, where there is one?
    SequenceAt(usize, Option<bool>),
    /// Is it small, once its aliases are expanded?
    Small(bool),
    /// Has it so many nodes then?
    Expanded(u64),
    /// Is this the path to a scalar, in words, where there is one?
    Path(&'static str, Option<&'static str>),
    /// Does a walk visit so many nodes, and each path lead to its node?
    Paths(usize),
    /// Does this path lead to a node?
    Leads(&'static [Step], bool),
    /// Does a walk visit nodes at these places?
    Visits(&'static [Place]),
    /// Are there so many spans?
    Spans(usize),
    /// Is its last node so deep?
    LastDepth(usize),
}

// Whether the answer is that.
fn is_so(alloc: Global, document: &Document, spans: &[Span], question: Question) -> bool {
    let root = &document.root;
    match question {
        Question::Copy => has_copy(document),
        Question::Server(port, pairs) => has_server(document, port, pairs),
        Question::Nodes => has_nodes(root),
        Question::MappingBehind(index, id) => is_mapping_behind(alloc, document, index, id),
        Question::SequenceAt(id, wanted) => is_sequence_at(alloc, document, id, wanted),
        Question::Small(is_small) => is_small_once_expanded(alloc, document) == Ok(is_small),
        Question::Expanded(nodes) => document.expanded_nodes(alloc) == Ok(nodes),
        Question::Path(scalar, words) => is_path_to(alloc, root, spans, scalar, words),
        Question::Paths(nodes) => count_visits(alloc, root, spans) == Some(nodes),
        Question::Leads(path, leads) => root.follow(path).is_some() == leads,
        Question::Visits(wanted) => makes_visits(alloc, root, spans, wanted),
        Question::Spans(count) => spans.len() == count,
        Question::LastDepth(depth) => last_depth(alloc, root, spans) == depth,
    }
}

// Whether the document with this index, where there is one, answers so.
fn is_so_at(alloc: Global, loaded: &SpannedDocuments, index: usize, question: Question) -> bool {
    match (loaded.documents.get(index), loaded.spans.get(index)) {
        (Some(document), Some(spans)) => {
            is_so(alloc, document, spans.nodes.as_slice(), question)
        }
        _ => false,
    }
}

/// Whether the document of a text answers so.
pub(crate) fn ask(
    alloc: Global,
    text: &str,
    limits: Limits,
    index: usize,
    question: Question,
) -> bool {
    match load_with_spans(alloc, text, limits) {
        Ok(loaded) => {
            let is_so = is_so_at(alloc, &loaded, index, question);
            drop(loaded);
            is_so
        }
        Err(fault) => {
            drop(fault);
            false
        }
    }
}

/// A text, the index of one of its documents, and what is asked of that.
pub(crate) type Asked = (&'static str, usize, Question);

/// Stops the test unless each answer is as wanted.
pub(crate) fn expect_answers(rt: &impl Abort, alloc: Global, asked: &[Asked]) {
    for &(text, index, question) in asked {
        assert!(rt; ask(alloc, text, WIDE, index, question), "{text:?}");
    }
}

fn is_so_of_a_deep_tree(alloc: Global, question: Question) -> bool {
    match "- ".repeat(alloc, 100_000) {
        Ok(text) => ask(alloc, text.as_str(), limits(100_001, 100_000), 0, question),
        Err(_) => false,
    }
}

const OF_A_DEEP_TREE: &[Question] = &[
    Question::Spans(200_001),
    Question::LastDepth(100_000),
    Question::Expanded(100_001),
];

#[test]
fn deep_trees_take_no_stack(rt: HostRuntime) {
    for question in OF_A_DEEP_TREE {
        assert!(rt; is_so_of_a_deep_tree(rt.alloc(), *question));
    }
}
