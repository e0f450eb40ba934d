//! How the answers of a parser differ from a list.

use std::alloc::{AllocError, Global};

/// Why a comparison ended early.
pub enum Difference {
    OutOfMemory(AllocError),
    Found(String),
}

// Written out here and below, so that each place where such a value is dropped is one call.
impl Drop for Difference {
    fn drop(self) {
        match self {
            Difference::OutOfMemory(_error) => {}
            Difference::Found(_text) => {}
        }
    }
}

impl From<AllocError> for Difference {
    fn from(error: AllocError) -> Self {
        Difference::OutOfMemory(error)
    }
}

impl Difference {
    /// A difference, or that there is no memory for its text.
    pub fn new(alloc: Global, text: &str) -> Self {
        Difference::described(String::from_str(alloc, text))
    }

    /// A difference with a text, or that there was no memory for it.
    pub fn described(text: Result<String, AllocError>) -> Self {
        match text {
            Ok(text) => Difference::Found(text),
            Err(error) => Difference::OutOfMemory(error),
        }
    }

    /// The text of the difference, or that there was no memory for the comparison.
    pub fn text(self) -> Result<String, AllocError> {
        match self {
            Difference::OutOfMemory(error) => Err(error),
            Difference::Found(text) => Ok(text),
        }
    }

    /// What was found, with where that was.
    pub fn found_in(alloc: Global, place: &str, found: Result<(), Self>) -> Result<(), Self> {
        match found {
            Ok(()) => Ok(()),
            Err(difference) => Err(difference.within(alloc, place)),
        }
    }

    /// The difference, with where it was found.
    pub fn within(self, alloc: Global, place: &str) -> Self {
        match self {
            Difference::Found(text) => Difference::described(format!(in alloc; "{place}: {text}")),
            Difference::OutOfMemory(error) => Difference::OutOfMemory(error),
        }
    }
}
