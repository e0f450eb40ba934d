//! The lines that a parser is to give.

use crate::difference::Difference;
use crate::printing::push_item;
use saphyr_parser::{Event, Fault, Span};
use std::alloc::Global;

/// The lines that are still to come.
pub struct Expected<'a> {
    alloc: Global,
    lines: &'a [String],
    // The line of what came last.
    shown: String,
}

impl Drop for Expected<'_> {
    fn drop(self) {
        let Expected {
            alloc: _alloc,
            lines: _lines,
            shown: _shown,
        } = self;
    }
}

impl<'a> Expected<'a> {
    pub fn new(alloc: Global, lines: &'a [String]) -> Self {
        Expected {
            alloc,
            lines,
            shown: String::new(alloc),
        }
    }

    /// The lines that haven't come.
    pub fn left(&self) -> &'a [String] {
        self.lines
    }

    /// What comes is the next line, or nothing where no line is left.
    pub fn is_next(
        &mut self,
        item: Option<Result<&(Event<'_>, Span), &Fault>>,
    ) -> Result<(), Difference> {
        let Some(item) = item else {
            return self.ends();
        };
        self.shown.clear();
        push_item(&mut self.shown, item)?;
        is_first(self.alloc, &self.shown, self.lines)
    }

    /// Compares the next line, which has then come.
    pub fn pass(
        &mut self,
        item: Option<Result<&(Event<'_>, Span), &Fault>>,
    ) -> Result<(), Difference> {
        let passed = self.is_next(item);
        if passed.is_ok() {
            self.lines = self.lines.get(1..).unwrap_or(&[]);
        }
        passed
    }

    /// Compares the next line with what was handed out.
    pub fn pass_given(
        &mut self,
        item: Option<Result<(Event<'_>, Span), Fault>>,
    ) -> Result<(), Difference> {
        let passed = self.pass_item(&item);
        drop(item);
        passed
    }

    /// Compares the next line with what is kept.
    pub fn pass_item(
        &mut self,
        item: &Option<Result<(Event<'_>, Span), Fault>>,
    ) -> Result<(), Difference> {
        match item {
            Some(item) => self.pass(Some(item.as_ref())),
            None => self.pass(None),
        }
    }

    // No line is left.
    fn ends(&self) -> Result<(), Difference> {
        match self.lines.first() {
            None => Ok(()),
            Some(wanted) => Err(Difference::described(format!(in self.alloc;
                "{wanted:?} is missing"
            ))),
        }
    }
}

// The line is the first of these.
fn is_first(alloc: Global, line: &String, lines: &[String]) -> Result<(), Difference> {
    match lines.first() {
        Some(wanted) if *wanted == *line => Ok(()),
        Some(wanted) => {
            let text = format!(in alloc; "{line:?} in place of {wanted:?}");
            Err(Difference::described(text))
        }
        None => Err(Difference::described(format!(in alloc; "{line:?} is too much"))),
    }
}
