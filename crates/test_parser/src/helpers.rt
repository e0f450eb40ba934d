//! What several tests share. A small function reads, compares and lets go, so that no test holds what owns memory.
use saphyr_parser::Marker;
use std::alloc::{AllocError, Global};
use std::process::Abort;

/// An index, a line and a column.
pub type Place = (usize, usize, usize);

/// The marker of a place.
pub fn marker((index, line, col): Place) -> Marker {
    Marker::new(index, line, col)
}

/// Stops the test unless this holds, and names the text that it holds of.
pub fn expect(rt: &impl Abort, holds: bool, text: &str) {
    assert!(rt; holds, "{text:?}");
}

/// An owned text, or an empty one where memory is lacking.
pub fn owned(alloc: Global, text: &str) -> String {
    match String::from_str(alloc, text) {
        Ok(text) => text,
        Err(_) => String::new(alloc),
    }
}

/// Whether a text was made, and is this one.
pub fn is_text(made: Result<String, AllocError>, text: &str) -> bool {
    match made {
        Ok(made) => made.as_str() == text,
        Err(_) => false,
    }
}

/// A text made of pieces, each so many times. Where memory is lacking a piece is missing.
pub fn repeated(alloc: Global, pieces: &[(&str, usize)]) -> String {
    let mut text = String::new(alloc);
    for (piece, count) in pieces {
        for _ in 0..*count {
            let _ = text.push_str(piece);
        }
    }
    text
}
