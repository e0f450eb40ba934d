//! What the parser says of the next node. Its events decide where the grammar has a choice. Nothing is claimed of
//! them: a wrong hint leads to a refusal, and never to a wrong derivation.

use crate::front::front_before;
use crate::goal::{Goal, Kind};
use crate::refused::last_fault;
use crate::strict::{Part, first_unprintable};
use saphyr_parser::{
    Event, Fault, Marker, Parser, Progress, ScalarStyle, Span, StrInput, no_event,
};
use std::alloc::{AllocError, Global};

/// What the next event is of.
#[derive(Clone, Copy)]
pub(crate) enum HintKind {
    /// The stream or a document, which begins or ends.
    Document,
    /// The end of a collection.
    End(Kind),
    Alias,
    /// A plain scalar without a text.
    Empty,
    Plain,
    Quoted,
    /// A literal or folded scalar.
    Block,
    Collection(Kind),
    /// No event: the stream is over, the parser refuses the text, or memory ran out.
    Fault,
}

/// The next event, without its texts.
#[derive(Clone, Copy)]
pub(crate) struct Hint {
    pub kind: HintKind,
    /// Whether the node has an anchor or a tag.
    pub has_properties: bool,
    /// How many characters its span covers.
    pub covered: usize,
}

impl Hint {
    /// No event.
    const NONE: Hint = Hint {
        kind: HintKind::Fault,
        has_properties: false,
        covered: 0,
    };

    /// Whether it is a node that is left out.
    pub(crate) fn is_left_out(&self) -> bool {
        matches!(self.kind, HintKind::Empty) && !self.has_properties
    }

    /// Whether it is the end of a collection.
    pub(crate) fn is_end(&self) -> bool {
        matches!(self.kind, HintKind::End(_))
    }

    /// Whether it begins at its text. A node without one may be told of on a later line.
    pub(crate) fn is_at_text(&self) -> bool {
        match self.kind {
            HintKind::End(_) => false,
            HintKind::Block => self.covered > 0,
            _ => !self.is_left_out(),
        }
    }

    /// Whether it is the start of a collection.
    pub(crate) fn is_collection(&self) -> bool {
        matches!(self.kind, HintKind::Collection(_))
    }

    /// The kind of the collection that it is the start of.
    pub(crate) fn collection(&self) -> Option<Kind> {
        match self.kind {
            HintKind::Collection(kind) => Some(kind),
            _ => None,
        }
    }
}

/// A parser of the text, one event ahead.
#[derive(Drop)]
pub(crate) struct Guide<'a> {
    parser: Parser<'a, StrInput<'a>>,
    next: (Event<'a>, Span),
    fault: Fault,
    is_refused: bool,
    hint: Hint,
    /// How many collections are open before the next event.
    pub depth: usize,
    /// What is open where the text can't be read on.
    pub open: Vec<Goal<'a>>,
    /// Whether each character of the text is printable, in quotes too.
    pub is_printable: bool,
    /// The parts of the text where a character that isn't printable is not told, in their order.
    parts: Vec<Part>,
}

impl<'a> Guide<'a> {
    /// The first event of the text is the next.
    pub(crate) fn new(alloc: Global, text: &'a str) -> Guide<'a> {
        let mut guide = Guide {
            parser: Parser::new_from_str(alloc, text),
            next: no_event(),
            fault: Fault::OutOfMemory,
            is_refused: false,
            hint: Hint::NONE,
            depth: 0,
            open: Vec::new(alloc),
            is_printable: first_unprintable(text, &[], &mut 0).is_none(),
            parts: Vec::new(alloc),
        };
        guide.pass();
        guide
    }

    /// Leaves a part of the text out, from `start` up to `end`, if some character in it isn't printable.
    pub(crate) fn leave_out(&mut self, start: &str, end: &str) -> Result<(), AllocError> {
        let part = front_before(start, end).unwrap_or("");
        if first_unprintable(part, &[], &mut 0).is_some() {
            self.parts.push(Part {
                start: start.len(),
                end: end.len(),
            })?;
        }
        Ok(())
    }

    /// What follows some place of the text, from the first character on that isn't printable and is in no part that was
    /// left out. The parts before `next` end earlier.
    pub(crate) fn next_unprintable<'b>(&self, text: &'b str, next: &mut usize) -> Option<&'b str> {
        if self.is_printable {
            return None;
        }
        first_unprintable(text, self.parts.as_slice(), next)
    }

    /// What the next event is.
    pub(crate) fn hint(&self) -> Hint {
        self.hint
    }

    /// Where the next event begins.
    pub(crate) fn start(&self) -> Marker {
        self.next.1.start
    }

    /// Where the next event ends.
    pub(crate) fn end(&self) -> Marker {
        self.next.1.end
    }

    /// Goes on to the event after it.
    pub(crate) fn pass(&mut self) {
        self.depth = match self.hint.kind {
            HintKind::Collection(_) => self.depth.saturating_add(1),
            HintKind::End(_) => self.depth.saturating_sub(1),
            _ => self.depth,
        };
        self.hint = match self.parser.next_event_into(&mut self.next, &mut self.fault) {
            Progress::Event => hint_of(&self.next.0, self.next.1),
            Progress::Fault => {
                self.is_refused = true;
                Hint::NONE
            }
            Progress::Over => Hint::NONE,
        };
    }

    /// Whether memory ran out for the events.
    pub(crate) fn ran_out(&self) -> bool {
        self.is_refused && matches!(self.fault, Fault::OutOfMemory)
    }

    /// Goes on to the end: the fault that ends the events, if one does.
    pub(crate) fn into_fault(self) -> Option<Fault> {
        let Guide {
            mut parser,
            mut next,
            fault,
            is_refused,
            hint: _hint,
            depth: _depth,
            open,
            is_printable: _is_printable,
            parts,
        } = self;
        let last = if is_refused {
            Some(fault)
        } else {
            drop(fault);
            last_fault(&mut parser, &mut next)
        };
        drop((parser, next, open, parts));
        last
    }
}

/// What an event says.
fn hint_of(event: &Event<'_>, span: Span) -> Hint {
    let kind = match event {
        Event::Alias(_) => HintKind::Alias,
        Event::Scalar(text, style, _, _) => kind_of(text.is_empty(), *style),
        Event::SequenceStart(..) => HintKind::Collection(Kind::Sequence),
        Event::MappingStart(..) => HintKind::Collection(Kind::Mapping),
        Event::SequenceEnd => HintKind::End(Kind::Sequence),
        Event::MappingEnd => HintKind::End(Kind::Mapping),
        _ => HintKind::Document,
    };
    Hint {
        kind,
        has_properties: event.anchor_id().is_some() || event.tag().is_some(),
        covered: span.end.index.saturating_sub(span.start.index),
    }
}

/// What a scalar is.
fn kind_of(is_empty: bool, style: ScalarStyle) -> HintKind {
    match style {
        ScalarStyle::Plain if is_empty => HintKind::Empty,
        ScalarStyle::Plain => HintKind::Plain,
        ScalarStyle::SingleQuoted | ScalarStyle::DoubleQuoted => HintKind::Quoted,
        ScalarStyle::Literal | ScalarStyle::Folded => HintKind::Block,
    }
}
