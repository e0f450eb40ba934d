//! Documents and the spans of their events (YAML 1.2.2, 3.1.2).
ghost use Rattle.std.specs.Prelude.{◌≡◌, map, IfOk};
ghost use Rattle.saphyr_parser.specs.Cursor.{to_come};
ghost use Rattle.yaml_tree.specs.BuilderSeen.{Finishes};
ghost use Rattle.yaml_tree.specs.Spanning.{IsSpannedStream, all_spans};
ghost use Rattle.yaml_tree.specs.KeeperSeen.{HandsOutLast, kept_spans, documents_of};
ghost use Rattle.yaml_tree.specs.Loading.{LoadsDocuments};
ghost use Rattle.yaml_tree.specs.Leaving.{LeavesParser};

use crate::document::Document;
use crate::fault::TreeFault;
use crate::loading::{Loader, is_at_start};
use crate::spans::{DocumentSpans, SpanKeeper, SpannedDocuments};
use crate::tally::Limits;
use saphyr_parser::{Input, Parser};
use std::alloc::Global;

/// Loads all documents of a text as `load_documents` does, and keeps the place of each node.
///
/// The spans of a document are those of its events, so each collection has two. Each takes 48 bytes, and at most as
/// much again as room to grow.
pub fn load_documents_with_spans<'input, T: Input>(
    alloc: Global,
    parser: &mut Parser<'input, T>,
    limits: Limits,
) -> Result<SpannedDocuments, TreeFault>
    ensures loads { LoadsDocuments limits (documents_of result)
        (to_come parser.old) (to_come parser.new) }
    ensures spans { IfOk result (λ spanned. IsSpannedStream spanned.documents.items
        (map all_spans spanned.spans.items) (to_come parser.old).events) }
    ensures leaves { LeavesParser result parser.old parser.new }
{
    if !is_at_start(parser) {
        return Err(TreeFault::NotFresh);
    }
    let mut loader = Loader::new(alloc, limits, SpanKeeper::new(alloc));
    match loader.take_events(parser, true) {
        Ok(_) => finish(loader),
        Err(fault) => {
            drop(loader);
            Err(fault)
        }
    }
}

// The document that has ended last and its spans, or none if the stream has ended.
pub(crate) fn last_document(
    mut loader: Loader<SpanKeeper>,
) -> Result<Option<(Document, DocumentSpans)>, TreeFault>
    ensures { HandsOutLast result loader }
{
    match loader.builder.last_document() {
        Ok(Some(document)) => match loader.keeper.ended.pop() {
            Some(spans) => Ok(Some((document, spans))),
            None => Err(TreeFault::NotFresh),
        },
        Ok(None) => Ok(None),
        Err(fault) => Err(fault),
    }
}

// The documents of a stream that has ended.
fn finish(loader: Loader<SpanKeeper>) -> Result<SpannedDocuments, TreeFault>
    ensures finishes { Finishes (documents_of result) loader.builder }
    ensures spans { IfOk result (λ spanned. map all_spans spanned.spans.items
        ≡ (kept_spans loader.keeper).ended) }
{
    let documents = loader.builder.finish()?;
    Ok(SpannedDocuments {
        documents,
        spans: loader.keeper.ended,
    })
}
