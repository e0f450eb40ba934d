//! What is printed of a file: errors, warnings and notes.
use crate::finding::Severity;
use saphyr_parser::Span;

/// The form of what is told.
#[derive(Clone, Copy, Debug)]
pub enum Format {
    /// Lines as those of gcc, each with the line of the text and a caret.
    Text,
    /// Objects of JSON, one a line.
    Json,
}

/// One thing that is told.
#[derive(Clone, Copy, Debug)]
pub(crate) struct Told<'a> {
    pub(crate) span: Span,
    pub(crate) severity: Severity,
    pub(crate) rule: &'a str,
    pub(crate) message: &'a str,
}

/// A file of which something is told.
#[derive(Clone, Copy, Debug)]
pub(crate) struct Source<'a> {
    pub(crate) format: Format,
    /// As it is printed.
    pub(crate) name: &'a str,
    pub(crate) text: &'a [char],
}
