//! Documents without content.
ghost use Rattle.std.specs.Prelude.{◌≡◌};
ghost use Rattle.saphyr_parser.specs.Views.Events.{happening};
ghost use Rattle.yaml_check.specs.Contents as spec;

use crate::warning::{PlacedWarning, Warning};
use saphyr_parser::{Event, ScalarStyle, Span};

/// Looks for documents without content.
#[derive(Clone, Copy)]
pub(crate) struct Content {
    /// The start of a document, right after it.
    begun: Option<Span>,
}

impl Content {
    pub(crate) fn new() -> Content
        ensures { result.begun ≡ spec.no_document }
    {
        Content { begun: None }
    }

    /// Takes an event with its span, and warns of a root that is left out.
    pub(crate) fn take(&mut self, event: &Event, span: &Span) -> Option<PlacedWarning>
        ensures told { result ≡ spec.content_warning self.old.begun (happening event.now) }
        ensures behind { self.new.begun ≡ spec.begun_behind (happening event.now) span.now }
    {
        if let Event::DocumentStart(_) = event {
            self.begun = Some(*span);
            return None;
        }
        let span = self.begun?;
        self.begun = None;
        let warning = Warning::EmptyDocument;
        if is_empty_node(event) {
            Some(PlacedWarning { span, warning })
        } else {
            None
        }
    }
}

/// Whether a node is left out: it has no text, no anchor and no tag.
fn is_empty_node(event: &Event) -> bool
    ensures { result ≡ spec.is_empty_node (happening event.now) }
{
    match event {
        Event::Scalar(text, ScalarStyle::Plain, 0, None) => text.is_empty(),
        _ => false,
    }
}
