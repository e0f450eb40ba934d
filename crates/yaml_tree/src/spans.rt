//! The spans of documents: those of their events (YAML 1.2.2, 3.1).
ghost use Rattle.std.specs.Prelude.{◌≡◌, List, [], ◌∷◌, ◌++◌, OnOk};
ghost use Rattle.saphyr_parser.specs.Events.{DocumentEnd};
ghost use Rattle.saphyr_parser.specs.Views.Events.{happening};
ghost use Rattle.yaml_tree.specs.Spanning.{kept_behind, with_node_span};
ghost use Rattle.yaml_tree.specs.Tables.{Event as Given};

use crate::document::Document;
use saphyr_parser::{Event, Marker, Span};
use std::alloc::{AllocError, Global};
use std::mem;

/// The spans of a document's events, in the order of the text.
#[derive(Debug, PartialEq, Eq, Drop)]
pub struct DocumentSpans {
    pub start: Span,
    /// The spans of its nodes' events. A collection has two: that of its start and, after those of its parts, that
    /// of its end.
    pub nodes: Vec<Span>,
    pub end: Span,
}

/// The documents of a text, and the spans of each of them, in the same order.
#[derive(Debug, PartialEq, Eq, Drop)]
pub struct SpannedDocuments {
    pub documents: Vec<Document>,
    pub spans: Vec<DocumentSpans>,
}

/// What keeps the spans of events, where they are wanted.
pub(crate) trait Keep {
    ghost HasKept: { List Given → Self → Type 0 };

    // Keeps the span of an event. After an error no more may be kept.
    fn keep(&mut self, event: &Event, span: Span) -> Result<(), AllocError>
        ensures { (es : List Given) → HasKept es self.old
            → OnOk result (HasKept (es ++ (happening event.now, span) ∷ []) self.new) };
}

/// No spans are wanted.
#[derive(Drop)]
pub(crate) struct NoSpans;

impl Keep for NoSpans {
    ghost use Rattle.yaml_tree.specs.KeeperSeen.{AreUnkept};

    ghost HasKept = { AreUnkept };

    #[inline(always)]
    fn keep(&mut self, _event: &Event, _span: Span) -> Result<(), AllocError> {
        Ok(())
    }
}

/// The spans of the documents that ended, and those so far of the document that is open.
#[derive(Drop)]
pub(crate) struct SpanKeeper {
    alloc: Global,
    pub(crate) ended: Vec<DocumentSpans>,
    start: Span,
    nodes: Vec<Span>,
}

impl SpanKeeper {
    ghost use Rattle.yaml_tree.specs.KeeperSeen.{AreKept, kept_spans};

    pub(crate) fn new(alloc: Global) -> SpanKeeper
        ensures { AreKept [] result }
    {
        SpanKeeper {
            alloc,
            ended: Vec::new(alloc),
            start: Span::empty(Marker::new(0, 0, 0)),
            nodes: Vec::new(alloc),
        }
    }

    fn keep_event(&mut self, event: &Event, span: Span) -> Result<(), AllocError>
        ensures { OnOk result (kept_spans self.new
            ≡ kept_behind (happening event.now) span (kept_spans self.old)) }
    {
        match event {
            Event::Nothing => Ok(()),
            Event::StreamStart => Ok(()),
            Event::StreamEnd => Ok(()),
            Event::DocumentStart(_) => {
                self.start = span;
                Ok(())
            }
            Event::DocumentEnd => self.keep_end(span),
            Event::Alias(_) => self.keep_node(span),
            Event::Scalar(_, _, _, _) => self.keep_node(span),
            Event::SequenceStart(_, _) => self.keep_node(span),
            Event::SequenceEnd => self.keep_node(span),
            Event::MappingStart(_, _) => self.keep_node(span),
            Event::MappingEnd => self.keep_node(span),
        }
    }

    fn keep_node(&mut self, span: Span) -> Result<(), AllocError>
        ensures { OnOk result (kept_spans self.new ≡ with_node_span span (kept_spans self.old)) }
    {
        self.nodes.push(span)?;
        Ok(())
    }

    fn keep_end(&mut self, end: Span) -> Result<(), AllocError>
        ensures { OnOk result (kept_spans self.new
            ≡ kept_behind DocumentEnd end (kept_spans self.old)) }
    {
        let spans = DocumentSpans {
            start: self.start,
            nodes: mem::replace(&mut self.nodes, Vec::new(self.alloc)),
            end,
        };
        self.ended.push(spans)?;
        Ok(())
    }
}

impl Keep for SpanKeeper {
    ghost use Rattle.yaml_tree.specs.KeeperSeen.{AreKept};

    ghost HasKept = { AreKept };

    fn keep(&mut self, event: &Event, span: Span) -> Result<(), AllocError> {
        self.keep_event(event, span)
    }
}
