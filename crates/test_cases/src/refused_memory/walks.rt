//! The nodes of trees, with their places and the paths to them.
use crate::limits::WIDE;
use crate::refused_memory::outcome::Outcome;
use crate::refused_memory::trees::{Loaded, judge_fault};
use crate::refused_memory::ways::last;
use saphyr_parser::{Input, Parser, Span};
use std::alloc::{AllocError, Global};
use test_events::Difference;
use yaml_tree::{Document, DocumentSpans, Node, TreeFault, Walk, load_documents_with_spans};

/// The documents are loaded with their places, their nodes are counted, and the path to each node leads there. Where
/// there is no memory for any of it, that is the answer.
pub fn by_walks<T: Input>(
    alloc: Global,
    parser: &mut Parser<'_, T>,
    lines: &[String],
) -> Result<Outcome, Difference> {
    match walk_all(alloc, parser) {
        Ok(true) => Ok(Outcome::Whole),
        Ok(false) => Err(Difference::new(alloc, "a path does not lead to its node")),
        Err(fault) => end_walks(alloc, fault, last(lines)),
    }
}

fn end_walks(alloc: Global, fault: TreeFault, last: &[String]) -> Result<Outcome, Difference> {
    let judged = judge_fault(alloc, &fault, last);
    drop(fault);
    match judged {
        Ok(Loaded::Whole) => Ok(Outcome::Whole),
        Ok(_) => Ok(Outcome::Refused),
        Err(difference) => Err(difference),
    }
}

fn walk_all<T: Input>(alloc: Global, parser: &mut Parser<'_, T>) -> Result<bool, TreeFault> {
    let loaded = load_documents_with_spans(alloc, parser, WIDE)?;
    let walked = walk_documents(alloc, loaded.documents.as_slice(), loaded.spans.as_slice());
    drop(loaded);
    Ok(walked?)
}

fn walk_documents(
    alloc: Global,
    documents: &[Document],
    spans: &[DocumentSpans],
) -> Result<bool, AllocError> {
    for (document, spans) in documents.iter().zip(spans.iter()) {
        document.expanded_nodes(alloc)?;
        if !leads_to_each(alloc, &document.root, spans.nodes.as_slice())? {
            return Ok(false);
        }
    }
    Ok(true)
}

// The path to each node of a tree leads there.
fn leads_to_each(alloc: Global, root: &Node, spans: &[Span]) -> Result<bool, AllocError> {
    let mut walk = Walk::new(alloc, root, spans);
    while let Some(visit) = walk.next() {
        let visit = visit?;
        let path = walk.path(alloc)?;
        if root.follow(path.as_slice()) != Some(visit.node) {
            return Ok(false);
        }
    }
    Ok(true)
}
