//! The next document of a parser (YAML 1.2.2, 3.1.2).
ghost use Rattle.std.specs.Prelude.{List, []};
ghost use Rattle.saphyr_parser.specs.Events.{Happening, StreamStart};
ghost use Rattle.saphyr_parser.specs.Cursor.{to_come};
ghost use Rattle.saphyr_parser.specs.Calls.{Looks};
ghost use Rattle.yaml_tree.specs.LoaderSeen.{HasTaken};
ghost use Rattle.yaml_tree.specs.KeeperSeen.{AreUnkept};
ghost use Rattle.yaml_tree.specs.DocumentLoading.{AtMost, LoadsDocument, LeavesLess, LeavesBehindLook, LeavesBehindDocument};
ghost use Rattle.yaml_tree.specs.DocumentSeen.{FindsPlace, GoesOnBehind};

use crate::document::Document;
use crate::fault::TreeFault;
use crate::loading::Loader;
use crate::spans::NoSpans;
use crate::tally::Limits;
use saphyr_parser::{Event, Input, Parser};
use std::alloc::Global;

/// Loads the next document, from a parser before the stream or between documents. After the last one it returns
/// `Ok(None)`, and so does each later call.
///
/// It reads up to the end of the document, so a later call returns a fault in a later document. The limits are
/// for this document alone. If a fault ends the events before the document's end, the call returns it, and the
/// parser is at its end. After `TooManyNodes`, `TooDeep` and `OutOfMemory` the parser is after the event that
/// could not be taken, and gives the events that follow. Inside a document the call returns `NotFresh`, and
/// passes no event.
pub fn load_document<'input, T: Input>(
    alloc: Global,
    parser: &mut Parser<'input, T>,
    limits: Limits,
) -> Result<Option<Document>, TreeFault>
    ensures loads { LoadsDocument limits result (to_come parser.old) (to_come parser.new) }
    ensures shrinks { LeavesLess result (to_come parser.old) (to_come parser.new) }
    ensures leaves { LeavesBehindDocument result parser.old parser.new }
{
    match find_place(parser) {
        Place::BeforeStream => next_document(Loader::new(alloc, limits, NoSpans), parser),
        Place::Between => next_document(Loader::in_stream(alloc, limits, NoSpans), parser),
        Place::Inside => Err(TreeFault::NotFresh),
    }
}

// The place of a parser.
pub(crate) enum Place {
    // The stream's start comes next.
    BeforeStream,
    // A document comes next, or the stream's end, or a fault, or nothing.
    Between,
    // The next event is inside a document.
    Inside,
}

pub(crate) fn find_place<'input, T: Input>(parser: &mut Parser<'input, T>) -> Place
    ensures stands { FindsPlace result (to_come parser.old) (to_come parser.new) }
    ensures looks { Looks parser.old parser.new }
{
    match parser.peek() {
        Some(Ok((Event::StreamStart, _))) => Place::BeforeStream,
        Some(Ok((Event::DocumentStart(_), _))) => Place::Between,
        Some(Ok((Event::StreamEnd, _))) => Place::Between,
        Some(Ok(_)) => Place::Inside,
        _ => Place::Between,
    }
}

// Loads the next document by a loader that has taken what comes before it.
fn next_document<'input, T: Input>(
    mut loader: Loader<NoSpans>,
    parser: &mut Parser<'input, T>,
) -> Result<Option<Document>, TreeFault>
    ensures loads { (limits : Limits) (before : List Happening)
        → HasTaken AreUnkept limits before [] loader
        → AtMost StreamStart before → GoesOnBehind before (to_come parser.old)
        → LoadsDocument limits result (to_come parser.old) (to_come parser.new) }
    ensures leaves { (limits : Limits) (before : List Happening)
        → HasTaken AreUnkept limits before [] loader
        → AtMost StreamStart before → GoesOnBehind before (to_come parser.old)
        → LeavesBehindLook result parser.old parser.new }
{
    match loader.take_events(parser, false) {
        Ok(_) => loader.builder.last_document(),
        Err(fault) => {
            drop(loader);
            Err(fault)
        }
    }
}
