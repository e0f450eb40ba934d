//! What is open where the events end.
ghost use Rattle.std.specs.Prelude.{◌≡◌, OnOk};
ghost use Rattle.saphyr_parser.specs.Views.Events.{happening};
ghost use Rattle.yaml_check.specs.Opened as spec;

use saphyr_parser::{Event, Marker, Span};
use std::alloc::{AllocError, Global};

/// What kind of collection one is.
#[derive(Clone, Copy, Debug)]
pub(crate) enum Shape {
    Sequence,
    Mapping,
}

/// The start of a collection.
#[derive(Clone, Copy, Debug)]
pub(crate) struct Start {
    pub(crate) shape: Shape,
    pub(crate) span: Span,
}

/// The collections that are open.
#[derive(Drop)]
pub(crate) struct Open {
    /// The innermost last.
    starts: Vec<Start>,
    /// Where the last event ends.
    behind: Marker,
}

impl Open {
    ghost use Rattle.yaml_check.specs.OpenSeen.{open_of};

    pub(crate) fn new(alloc: Global) -> Open
        ensures { open_of result ≡ spec.nothing_open }
    {
        Open {
            starts: Vec::new(alloc),
            behind: Marker::new(0, 1, 0),
        }
    }

    /// Takes an event with its span.
    pub(crate) fn take(&mut self, event: &Event, span: &Span) -> Result<(), AllocError>
        ensures { OnOk result (open_of self.new
            ≡ spec.opened_behind (happening event.now) span.now (open_of self.old)) }
    {
        self.behind = span.end;
        match event {
            Event::SequenceStart(..) => self.open(Shape::Sequence, *span),
            Event::MappingStart(..) => self.open(Shape::Mapping, *span),
            Event::SequenceEnd | Event::MappingEnd => {
                self.starts.pop();
                Ok(())
            }
            _ => Ok(()),
        }
    }

    /// A collection begins.
    fn open(&mut self, shape: Shape, span: Span) -> Result<(), AllocError>
        ensures { OnOk result (open_of self.new
            ≡ spec.with_start shape span (open_of self.old)) }
    {
        self.starts.push(Start { shape, span })?;
        Ok(())
    }

    /// Where the last event ends.
    pub(crate) fn behind(&self) -> Marker
        ensures { result ≡ (open_of self.now).behind }
    {
        self.behind
    }

    /// The innermost collection.
    pub(crate) fn innermost(&self) -> Option<Start>
        ensures { result ≡ spec.innermost (open_of self.now).starts }
    {
        self.starts.last().copied()
    }

    /// The innermost collection that a bracket begins.
    pub(crate) fn bracket(&self, text: &[char]) -> Option<Start>
        ensures { result ≡ spec.innermost_bracket text.now (open_of self.now).starts }
    {
        let mut count = self.starts.len();
        while count > 0 {
            count -= 1;
            let start = self.starts[count];
            if begins_with_bracket(text, start) {
                return Some(start);
            }
        }
        None
    }
}

/// Whether a collection begins with its bracket.
fn begins_with_bracket(text: &[char], start: Start) -> bool
    ensures { result ≡ spec.begins_with_bracket text.now start }
{
    let bracket = match start.shape {
        Shape::Sequence => '[',
        Shape::Mapping => '{',
    };
    let at = start.span.start.index;
    at < start.span.end.index && at < text.len() && text[at] == bracket
}
