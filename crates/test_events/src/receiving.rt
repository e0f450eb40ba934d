//! A receiver of events.

use crate::difference::Difference;
use crate::expected::Expected;
use saphyr_parser::{Event, Fault, Refused, Span, SpannedEventReceiver};
use std::alloc::Global;

/// Compares events with lines, and refuses one after so many.
pub struct ComparingReceiver<'a> {
    expected: Expected<'a>,
    before_refusal: usize,
    // What came first that isn't as expected.
    found: Option<Difference>,
}

impl Drop for ComparingReceiver<'_> {
    fn drop(self) {
        let ComparingReceiver {
            expected: _expected,
            before_refusal: _before_refusal,
            found: _found,
        } = self;
    }
}

impl<'a> ComparingReceiver<'a> {
    /// One that refuses nothing.
    pub fn new(alloc: Global, lines: &'a [String]) -> Self {
        ComparingReceiver::refusing(alloc, lines, usize::MAX)
    }

    pub fn refusing(alloc: Global, lines: &'a [String], before_refusal: usize) -> Self {
        ComparingReceiver {
            expected: Expected::new(alloc, lines),
            before_refusal,
            found: None,
        }
    }

    /// The lines that haven't come.
    pub fn left(&self) -> &'a [String] {
        self.expected.left()
    }

    // Passes the line of an event, unless that is refused or differs.
    fn take(&mut self, event: &(Event<'_>, Span)) -> Result<(), Refused> {
        if self.before_refusal == 0 {
            return Err(Refused);
        }
        self.before_refusal -= 1;
        match self.expected.pass(Some(Ok(event))) {
            Ok(()) => Ok(()),
            Err(difference) => {
                self.found = Some(difference);
                Err(Refused)
            }
        }
    }

    /// What has come is as expected. What differed is told once.
    pub fn check(&mut self) -> Result<(), Difference> {
        match self.found.take() {
            Some(difference) => Err(difference),
            None => Ok(()),
        }
    }

    /// What has come is as expected, and no line is left.
    pub fn check_end(&mut self) -> Result<(), Difference> {
        self.check()?;
        self.expected.is_next(None)
    }

    /// What has come is as expected, and where `load` answered a fault, its line is the next one.
    pub fn check_answer(&mut self, answer: Result<(), Fault>) -> Result<(), Difference> {
        match answer {
            Ok(()) => self.check(),
            Err(fault) => {
                let passed = self.check_fault(&fault);
                drop(fault);
                passed
            }
        }
    }

    // What has come is as expected, and the line of a fault is the next one.
    fn check_fault(&mut self, fault: &Fault) -> Result<(), Difference> {
        self.check()?;
        self.expected.pass(Some(Err(fault)))
    }
}

impl<'input> SpannedEventReceiver<'input> for ComparingReceiver<'_> {
    ghost use Rattle.std.specs.Prelude.{⊤};

    ghost receives = { λ _ _ _ _. ⊤ };

    fn on_event(&mut self, ev: Event<'input>, span: Span) -> Result<(), Refused> {
        let event = (ev, span);
        let taken = self.take(&event);
        drop(event);
        taken
    }
}
