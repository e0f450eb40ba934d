//! Documents from the events of a parser (YAML 1.2.2, 3.1.2).
ghost use Rattle.std.specs.Prelude.{◌≡◌, ◌↔◌, false, List, [], ◌∷◌, ◌++◌, IsTrue};
ghost use Rattle.saphyr_parser.specs.Events.{Happening, StreamStart, DocumentEnd};
ghost use Rattle.saphyr_parser.specs.Views.Events.{happening};
ghost use Rattle.saphyr_parser.specs.Cursor.{to_come};
ghost use Rattle.saphyr_parser.specs.Calls.{Looks};
ghost use Rattle.yaml_tree.specs.Loading.{LoadsDocuments, BeginsSo};
ghost use Rattle.yaml_tree.specs.Leaving.{LeavesParser};
ghost use Rattle.yaml_tree.specs.DocumentSeen.{LeavesPart};
ghost use Rattle.yaml_tree.specs.Tables.{Event as Given};

use crate::builder::Builder;
use crate::document::Document;
use crate::fault::TreeFault;
use crate::spans::{Keep, NoSpans};
use crate::tally::{Limits, Tally};
use saphyr_parser::law::hands_out_what_comes;
use saphyr_parser::{Event, Input, Parser, Span};
use std::alloc::Global;

/// Loads all documents of a text, from a parser that has handed out no event.
///
/// It reads up to the end of the stream. If a fault ends the events, the call returns it, and the parser is at
/// its end. After `TooManyNodes`, `TooDeep` and `OutOfMemory` the parser is after the event that could not be
/// taken, and gives the events that follow. `NotFresh` passes no event.
pub fn load_documents<'input, T: Input>(
    alloc: Global,
    parser: &mut Parser<'input, T>,
    limits: Limits,
) -> Result<Vec<Document>, TreeFault>
    ensures loads { LoadsDocuments limits result (to_come parser.old) (to_come parser.new) }
    ensures leaves { LeavesParser result parser.old parser.new }
{
    if !is_at_start(parser) {
        return Err(TreeFault::NotFresh);
    }
    let mut loader = Loader::new(alloc, limits, NoSpans);
    match loader.take_events(parser, true) {
        Ok(_) => loader.builder.finish(),
        Err(fault) => {
            drop(loader);
            Err(fault)
        }
    }
}

// Whether the stream's start comes next, or a fault.
pub(crate) fn is_at_start<'input, T: Input>(parser: &mut Parser<'input, T>) -> bool
    ensures begins { BeginsSo result (to_come parser.old) (to_come parser.new) }
    ensures looks { Looks parser.old parser.new }
{
    match parser.peek() {
        Some(Ok((Event::StreamStart, _))) => true,
        Some(Err(_)) => true,
        _ => false,
    }
}

// Whether no event behind this one is wanted: all are, or those up to the end of a document.
pub(crate) fn is_last(event: &Event, all: bool) -> bool
    ensures { IsTrue result ↔ (all ≡ false) × (happening event.now ≡ DocumentEnd) }
{
    !all && matches!(event, Event::DocumentEnd)
}

// Trees that grow within limits, and the spans of their events where these are kept.
#[derive(Drop)]
pub(crate) struct Loader<K> {
    tally: Tally,
    pub(crate) builder: Builder,
    pub(crate) keeper: K,
}

impl<K: Keep> Loader<K> {
    ghost use Rattle.yaml_tree.specs.LoaderSeen.{HasTaken, LoaderTakes, TakesLast};

    pub(crate) fn new(alloc: Global, limits: Limits, keeper: K) -> Loader<K>
        ensures { K.HasKept [] keeper → HasTaken K.HasKept limits [] [] result }
    {
        Loader {
            tally: Tally::new(limits),
            builder: Builder::new(alloc),
            keeper,
        }
    }

    // A loader that has taken the stream's start, of which no span is kept.
    pub(crate) fn in_stream(alloc: Global, limits: Limits, keeper: K) -> Loader<K>
        ensures { K.HasKept [] keeper → HasTaken K.HasKept limits (StreamStart ∷ []) [] result }
    {
        Loader {
            tally: Tally::new(limits),
            builder: Builder::in_stream(alloc),
            keeper,
        }
    }

    // Takes all events, or those up to the end of a document. Returns whether a document ended there.
    pub(crate) fn take_events<'input, T: Input>(
        &mut self,
        parser: &mut Parser<'input, T>,
        all: bool,
    ) -> Result<bool, TreeFault>
        ensures takes { (limits : Limits) (before : List Happening)
            → HasTaken K.HasKept limits before [] self.old → LoaderTakes K.HasKept all limits before
            result (to_come parser.old) (to_come parser.new) self.new }
        ensures leaves { (limits : Limits) (before : List Happening)
            → HasTaken K.HasKept limits before [] self.old → LeavesPart result parser.old parser.new }
    {
        hands_out_what_comes();
        while let Some(read) = parser.next_event() {
            match read {
                Ok((event, span)) => {
                    let last = is_last(&event, all);
                    self.take(event, span)?;
                    if last {
                        return Ok(true);
                    }
                }
                Err(fault) => return Err(TreeFault::Parse(fault)),
            }
        }
        Ok(false)
    }

    // Takes an event with its span. Checks the limits first.
    fn take(&mut self, event: Event, span: Span) -> Result<(), TreeFault>
        ensures { (limits : Limits) (before : List Happening) (es : List Given)
            → HasTaken K.HasKept limits before es self.old → TakesLast K.HasKept result limits before
            (es ++ (happening event.entry, span) ∷ []) span.start self.new }
    {
        match self.tally.count(&event, span.start) {
            Ok(()) => match self.keeper.keep(&event, span) {
                Ok(()) => self.builder.take(event),
                Err(_) => {
                    drop(event);
                    Err(TreeFault::OutOfMemory)
                }
            },
            Err(fault) => {
                drop(event);
                Err(fault)
            }
        }
    }
}
