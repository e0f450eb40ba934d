//! What `dump` is to write, and a writer that is to take it.

use std::alloc::{AllocError, Global};
use std::io;
use std::io::{ErrorKind, Write};

/// The lines that `dump` writes for the lines of a case: the events, without the places and without what
/// begins a document.
pub fn printed(alloc: Global, lines: &[String]) -> Result<String, AllocError> {
    let mut text = String::new(alloc);
    for line in lines {
        if let Some(event) = line.strip_prefix("> ") {
            text.push_str(shown(event))?;
            text.push('\n')?;
        }
    }
    Ok(text)
}

// An event without its place.
fn shown(event: &str) -> &str {
    let (event, _) = event.rsplit_once(" @ ").unwrap_or((event, ""));
    if event == "+DOC ---" { "+DOC" } else { event }
}

/// How a writer takes bytes.
#[derive(Clone, Copy)]
pub struct Manner {
    /// How many bytes it takes at most at a time.
    pub at_a_time: usize,
    /// How many writes there are before one fails.
    pub before_failure: usize,
    /// Whether it takes nothing where it fails, and else answers an error.
    pub is_silent: bool,
}

/// Keeps the bytes that it takes.
pub struct KeepingWriter {
    manner: Manner,
    taken: Vec<u8>,
    has_failed: bool,
}

impl Drop for KeepingWriter {
    fn drop(self) {
        let KeepingWriter {
            manner: _manner,
            taken: _taken,
            has_failed: _has_failed,
        } = self;
    }
}

impl KeepingWriter {
    pub fn new(alloc: Global, manner: Manner) -> Self {
        KeepingWriter {
            manner,
            taken: Vec::new(alloc),
            has_failed: false,
        }
    }

    /// What is left of a text after the bytes that came, where they are its beginning.
    pub fn rest_of<'a>(&self, text: &'a str) -> Option<&'a [u8]> {
        text.as_bytes().strip_prefix(self.taken.as_slice())
    }

    /// Whether a write has failed.
    pub fn has_failed(&self) -> bool {
        self.has_failed
    }
}

impl Write for KeepingWriter {
    fn write(&mut self, buf: &[u8]) -> io::Result<usize> {
        if self.manner.before_failure == 0 {
            self.has_failed = true;
            if self.manner.is_silent {
                return Ok(0);
            }
            return Err(io::Error::from(ErrorKind::StorageFull));
        }
        self.manner.before_failure -= 1;
        let count = buf.len().min(self.manner.at_a_time);
        let answer = self.taken.write(&buf[..count]);
        self.has_failed = answer.is_err();
        answer
    }

    fn flush(&mut self) -> io::Result<()> {
        Ok(())
    }
}
