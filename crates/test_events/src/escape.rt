//! The escapes in a line of a case.

use std::alloc::{AllocError, Global};

/// A line with the characters that its escapes stand for.
pub fn unescaped(alloc: Global, line: &str) -> Result<String, AllocError> {
    let mut text = String::new(alloc);
    let mut escape = Escape::None;
    for c in line.chars() {
        let (given, next) = escape.read(c);
        if let Some(c) = given {
            text.push(c)?;
        }
        escape = next;
    }
    Ok(text)
}

// How much of an escape has been read.
#[derive(Clone, Copy)]
pub enum Escape {
    None,
    Begun,
    Number(u32),
}

impl Escape {
    // The character that is there once the next one is read, and how much has then been read.
    fn read(self, c: char) -> (Option<char>, Escape) {
        match self {
            Escape::None if c == '\\' => (None, Escape::Begun),
            Escape::None => (Some(c), Escape::None),
            Escape::Begun if c == 'u' => (None, Escape::Number(0)),
            Escape::Begun => (Some(named(c)), Escape::None),
            Escape::Number(code) if c == '}' => (Some(char_of(code)), Escape::None),
            Escape::Number(code) => (None, Escape::Number(with_digit(code, c))),
        }
    }
}

// The character that a backslash and this one stand for.
fn named(c: char) -> char {
    match c {
        'n' => '\n',
        'r' => '\r',
        't' => '\t',
        _ => c,
    }
}

// The character with this number.
fn char_of(code: u32) -> char {
    char::from_u32(code).unwrap_or('\u{fffd}')
}

// A number with a further hexadecimal digit. A brace adds nothing.
fn with_digit(number: u32, c: char) -> u32 {
    match c.to_digit(16) {
        Some(digit) => number.wrapping_mul(16).wrapping_add(digit),
        None => number,
    }
}
