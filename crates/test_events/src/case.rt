//! The cases of a file.

use crate::escape::unescaped;
use std::alloc::{AllocError, Global};

/// A text and the list of its events, as lines.
pub struct Case {
    pub name: String,
    pub keeps_tags: bool,
    pub text: String,
    pub lines: Vec<String>,
}

impl Drop for Case {
    fn drop(self) {
        let Case {
            name: _name,
            keeps_tags: _keeps_tags,
            text: _text,
            lines: _lines,
        } = self;
    }
}

/// The cases of a file.
pub fn parse_cases(alloc: Global, text: &str) -> Result<Vec<Case>, AllocError> {
    let mut cases = Vec::new(alloc);
    for line in text.lines() {
        parse_line(alloc, &mut cases, line)?;
    }
    Ok(cases)
}

// Takes the next line of a file.
fn parse_line(alloc: Global, cases: &mut Vec<Case>, line: &str) -> Result<(), AllocError> {
    if let Some(title) = line.strip_prefix("= ") {
        cases.push(Case::new(alloc, title)?)?;
    } else if let Some(case) = cases.last_mut() {
        case.take_line(alloc, line)?;
    }
    Ok(())
}

/// Whether a line is that of a fault.
pub fn is_fault(line: &str) -> bool {
    line.starts_with("! ")
}

impl Case {
    /// The line of the fault that ends the events, where one does.
    pub fn fault_line(&self) -> Option<&str> {
        let line = self.lines.last()?.as_str();
        if is_fault(line) { Some(line) } else { None }
    }

    // The case that a line `= TITLE` begins.
    fn new(alloc: Global, title: &str) -> Result<Case, AllocError> {
        let name = title.strip_suffix(" keep_tags");
        Ok(Case {
            name: String::from_str(alloc, name.unwrap_or(title))?,
            keeps_tags: name.is_some(),
            text: String::new(alloc),
            lines: Vec::new(alloc),
        })
    }

    // Takes the next line of the case.
    fn take_line(&mut self, alloc: Global, line: &str) -> Result<(), AllocError> {
        match line.strip_prefix("< ") {
            Some(text) => self.text = unescaped(alloc, text)?,
            None => self.lines.push(unescaped(alloc, line)?)?,
        }
        Ok(())
    }
}
