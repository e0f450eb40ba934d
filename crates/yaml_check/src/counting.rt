//! How many nodes a text has.
ghost use Rattle.std.specs.Prelude.{◌≡◌};
ghost use Rattle.saphyr_parser.specs.Views.Events.{happening};
ghost use Rattle.yaml_check.specs.Counting as spec;

use crate::warning::{PlacedWarning, Warning};
use saphyr_parser::{Event, Span};

/// Looks for the first node over the limit.
#[derive(Clone, Copy)]
pub(crate) struct Count {
    /// How many nodes there may be.
    most: usize,
    /// How many more there may be. `None` once there were too many.
    left: Option<usize>,
}

impl Count {
    pub(crate) fn new(most: usize) -> Count
        ensures most { result.most ≡ most }
        ensures left { result.left ≡ spec.all_left most }
    {
        Count {
            most,
            left: Some(most),
        }
    }

    /// Takes an event with its span, and warns of the first node over the limit.
    pub(crate) fn take(&mut self, event: &Event, span: &Span) -> Option<PlacedWarning>
        ensures told { result ≡ spec.node_warning
            self.old.most self.old.left (happening event.now) span.now }
        ensures behind { self.new.left ≡ spec.left_behind (happening event.now) self.old.left }
        ensures most { self.new.most ≡ self.old.most }
    {
        if !is_node(event) {
            return None;
        }
        let left = self.left?;
        self.left = left.checked_sub(1);
        if left > 0 {
            return None;
        }
        Some(PlacedWarning {
            span: *span,
            warning: Warning::TooManyNodes(self.most),
        })
    }
}

/// Whether a node begins here. An alias is one.
fn is_node(event: &Event) -> bool
    ensures { result ≡ spec.is_node (happening event.now) }
{
    matches!(
        event,
        Event::Alias(_) | Event::Scalar(..) | Event::SequenceStart(..) | Event::MappingStart(..)
    )
}
