//! The documents of a text, within limits.

use saphyr_parser::Parser;
use std::alloc::Global;
use yaml_tree::{
    Document, Limits, SpannedDocuments, TreeFault, load_documents, load_documents_with_spans,
};

/// Limits that no small text reaches.
pub(crate) const WIDE: Limits = Limits {
    nodes: 200_001,
    depth: 100_000,
};

pub(crate) fn limits(nodes: usize, depth: usize) -> Limits {
    Limits { nodes, depth }
}

pub(crate) fn load(alloc: Global, text: &str, limits: Limits) -> Result<Vec<Document>, TreeFault> {
    let mut parser = Parser::new_from_str(alloc, text);
    load_documents(alloc, &mut parser, limits)
}

/// Loads the documents of a text with the spans of their nodes.
pub(crate) fn load_with_spans(
    alloc: Global,
    text: &str,
    limits: Limits,
) -> Result<SpannedDocuments, TreeFault> {
    let mut parser = Parser::new_from_str(alloc, text);
    load_documents_with_spans(alloc, &mut parser, limits)
}
