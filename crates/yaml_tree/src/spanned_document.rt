//! The next document of a parser, and the spans of its events (YAML 1.2.2, 3.1.2).
ghost use Rattle.std.specs.Prelude.{List, []};
ghost use Rattle.saphyr_parser.specs.Events.{Happening, StreamStart};
ghost use Rattle.saphyr_parser.specs.Cursor.{to_come};
ghost use Rattle.yaml_tree.specs.LoaderSeen.{HasTaken};
ghost use Rattle.yaml_tree.specs.DocumentLoading.{AtMost, LoadsDocument, LeavesLess, LeavesBehindLook, LeavesBehindDocument};
ghost use Rattle.yaml_tree.specs.DocumentSeen.{GoesOnBehind};
ghost use Rattle.yaml_tree.specs.KeeperSeen.{AreKept, HasSpans, document_of};

use crate::document::Document;
use crate::document_loading::{Place, find_place};
use crate::fault::TreeFault;
use crate::loading::Loader;
use crate::spanned_loading::last_document;
use crate::spans::{DocumentSpans, SpanKeeper};
use crate::tally::Limits;
use saphyr_parser::{Input, Parser};
use std::alloc::Global;

/// Loads the next document as `load_document` does, and keeps the place of each node.
pub fn load_document_with_spans<'input, T: Input>(
    alloc: Global,
    parser: &mut Parser<'input, T>,
    limits: Limits,
) -> Result<Option<(Document, DocumentSpans)>, TreeFault>
    ensures loads { LoadsDocument limits (document_of result)
        (to_come parser.old) (to_come parser.new) }
    ensures spans { HasSpans result (to_come parser.old) (to_come parser.new) }
    ensures shrinks { LeavesLess (document_of result) (to_come parser.old) (to_come parser.new) }
    ensures leaves { LeavesBehindDocument (document_of result) parser.old parser.new }
{
    match find_place(parser) {
        Place::BeforeStream => next_document(
            Loader::new(alloc, limits, SpanKeeper::new(alloc)),
            parser,
        ),
        Place::Between => next_document(
            Loader::in_stream(alloc, limits, SpanKeeper::new(alloc)),
            parser,
        ),
        Place::Inside => Err(TreeFault::NotFresh),
    }
}

// Loads the next document by a loader that has taken what comes before it.
fn next_document<'input, T: Input>(
    mut loader: Loader<SpanKeeper>,
    parser: &mut Parser<'input, T>,
) -> Result<Option<(Document, DocumentSpans)>, TreeFault>
    ensures loads { (limits : Limits) (before : List Happening)
        → HasTaken AreKept limits before [] loader
        → AtMost StreamStart before → GoesOnBehind before (to_come parser.old)
        → LoadsDocument limits (document_of result) (to_come parser.old) (to_come parser.new) }
    ensures spans { (limits : Limits) (before : List Happening)
        → HasTaken AreKept limits before [] loader
        → AtMost StreamStart before → GoesOnBehind before (to_come parser.old)
        → HasSpans result (to_come parser.old) (to_come parser.new) }
    ensures leaves { (limits : Limits) (before : List Happening)
        → HasTaken AreKept limits before [] loader
        → AtMost StreamStart before → GoesOnBehind before (to_come parser.old)
        → LeavesBehindLook (document_of result) parser.old parser.new }
{
    match loader.take_events(parser, false) {
        Ok(_) => last_document(loader),
        Err(fault) => {
            drop(loader);
            Err(fault)
        }
    }
}
