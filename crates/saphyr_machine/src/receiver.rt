//! The traits of receivers, to which `load` hands events, with or without their spans.

ghost use Rattle.saphyr_machine.specs.Views.Events.{happening};

use crate::event::Event;
use saphyr_scalar::Span;
use std::alloc::{AllocError, AllocFailed};

/// A receiver returns this if it takes no more events.
#[derive(Clone, Copy, Debug, PartialEq, Eq)]
pub struct Refused;

/// By this a receiver that stores events can use `?`, as in `self.events.push(event)?`. It refuses the event if memory
/// runs out.
impl From<AllocError> for Refused {
    ghost from_gives = { λ _ _. Unit {0} };

    fn from(_e: AllocError) -> Refused {
        Refused
    }
}

impl<X: Drop> From<AllocFailed<X>> for Refused {
    ghost from_gives = { λ _ _. Unit {0} };

    fn from(_e: AllocFailed<X>) -> Refused {
        Refused
    }
}

/// A receiver of events, which come one after the other.
pub trait EventReceiver<'input> {
    ghost use Rattle.std.specs.Prelude.{Result};
    ghost use Rattle.saphyr_machine.specs.Events.{Happening};
    ghost use Rattle.saphyr_machine.specs.declared.receiver.Refused.{Refused};

    /// Relates the receiver before, the event, the result and the receiver after.
    ghost takes: { Self → Happening → Result (Unit {0}) Refused → Self → Type 0 };

    /// Takes an event, or refuses it, for example if there is no memory to store it.
    fn on_event(&mut self, ev: Event<'input>) -> Result<(), Refused>
        ensures { takes self.old (happening ev.entry) result self.new };
}

/// A receiver of events with their places in the text.
pub trait SpannedEventReceiver<'input> {
    ghost use Rattle.std.specs.Prelude.{Result};
    ghost use Rattle.saphyr_scalar.specs.declared.scalar.position.Span.{Span};
    ghost use Rattle.saphyr_machine.specs.Events.{Happening};
    ghost use Rattle.saphyr_machine.specs.declared.receiver.Refused.{Refused};

    /// Relates the receiver before, the event with its span, the result and the receiver after.
    ghost receives: { Self → Happening × Span → Result (Unit {0}) Refused → Self → Type 0 };

    /// Takes an event, or refuses it, for example if there is no memory to store it.
    fn on_event(&mut self, ev: Event<'input>, span: Span) -> Result<(), Refused>
        ensures { receives self.old (happening ev.entry, span) result self.new };
}

/// Each receiver of events is also one of events with spans, and ignores the spans.
impl<'input, R: EventReceiver<'input>> SpannedEventReceiver<'input> for R {
    ghost receives = { λ s e r t. R.takes s e.0 r t };

    fn on_event(&mut self, ev: Event<'input>, _span: Span) -> Result<(), Refused> {
        EventReceiver::on_event(self, ev)
    }
}
