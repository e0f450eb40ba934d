//! Loads the documents of a YAML text as trees, from the events of `saphyr_parser` (YAML 1.2.2, 3.1.2).
#![tactic(auto)]

mod accessors;
mod anchors;
mod builder;
mod cloning;
mod document;
mod document_loading;
mod expanding;
mod fault;
mod growing;
mod keeping;
mod law;
mod loading;
mod node;
mod open;
mod paths;
mod sizes;
mod spanned_document;
mod spanned_loading;
mod spans;
mod table;
mod table_loading;
mod tally;
mod walk;

pub use document::Document;
pub use document_loading::load_document;
pub use fault::TreeFault;
pub use law::{loads_new_parsers, loads_one_by_one};
pub use loading::load_documents;
pub use node::Node;
pub use paths::Step;
pub use spanned_document::load_document_with_spans;
pub use spanned_loading::load_documents_with_spans;
pub use spans::{DocumentSpans, SpannedDocuments};
pub use table::{Content, Entry, Mark, NodeTable, Root, Row, TagRows};
pub use table_loading::{Grower, load_next_table, load_table};
pub use tally::Limits;
pub use walk::{Visit, Walk};
