//! Receivers, to which the parser's `load` hands events.
use saphyr_parser::{Event, EventReceiver, Refused, Span, SpannedEventReceiver};

/// Counts the scalars among the events that it gets.
#[derive(Drop)]
pub struct ScalarCounter {
    pub scalars: usize,
}

impl<'input> EventReceiver<'input> for ScalarCounter {
    ghost use Rattle.std.specs.Prelude.{⊤};

    ghost takes = { λ _ _ _ _. ⊤ };

    fn on_event(&mut self, ev: Event<'input>) -> Result<(), Refused> {
        if let Event::Scalar(..) = ev {
            self.scalars = self.scalars.checked_add(1).ok_or(Refused)?;
        }
        Ok(())
    }
}

/// The furthest index that an event reaches.
#[derive(Drop)]
pub struct Reach {
    pub index: usize,
}

impl<'input> SpannedEventReceiver<'input> for Reach {
    ghost use Rattle.std.specs.Prelude.{⊤};

    ghost receives = { λ _ _ _ _. ⊤ };

    fn on_event(&mut self, _ev: Event<'input>, span: Span) -> Result<(), Refused> {
        self.index = self.index.max(span.end.index());
        Ok(())
    }
}
