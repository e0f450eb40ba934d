//! A writer and a reader that fail where a test has them fail.
use std::alloc::Global;
use std::io;
use std::io::{ErrorKind, Read, Write};

/// How a writer takes bytes, and how many.
#[derive(Clone, Copy)]
pub struct Manner {
    pub at_a_time: usize,
    pub room: usize,
    /// Whether it takes nothing where there is no room, and else answers an error.
    pub is_silent: bool,
    /// Whether it can't pass on what it holds.
    pub is_stuck: bool,
}

/// All of it, at once.
pub const WHOLE: Manner = Manner {
    at_a_time: usize::MAX,
    room: usize::MAX,
    is_silent: false,
    is_stuck: false,
};

/// Keeps what it takes.
#[derive(Drop)]
pub struct Keeping {
    taken: Vec<u8>,
    manner: Manner,
}

impl Keeping {
    pub fn new(alloc: Global, manner: Manner) -> Keeping {
        Keeping {
            taken: Vec::new(alloc),
            manner,
        }
    }

    /// It has taken exactly this text.
    pub fn has_taken(&self, text: &str) -> bool {
        self.taken.as_slice() == text.as_bytes()
    }
}

impl Write for Keeping {
    fn write(&mut self, buf: &[u8]) -> io::Result<usize> {
        let count = buf.len().min(self.manner.at_a_time).min(self.manner.room);
        if count == 0 && !self.manner.is_silent {
            return Err(io::Error::from(ErrorKind::StorageFull));
        }
        self.taken.extend_from_slice(&buf[..count])?;
        self.manner.room -= count;
        Ok(count)
    }

    fn flush(&mut self) -> io::Result<()> {
        if self.manner.is_stuck {
            return Err(io::Error::from(ErrorKind::BrokenPipe));
        }
        Ok(())
    }
}

/// Bytes, after which reading fails where it is broken.
#[derive(Clone, Copy)]
pub struct Source<'a> {
    pub rest: &'a [u8],
    pub is_broken: bool,
}

impl Read for Source<'_> {
    fn read(&mut self, buf: &mut [u8]) -> io::Result<usize> {
        if self.is_broken && self.rest.is_empty() {
            return Err(io::Error::from(ErrorKind::ConnectionReset));
        }
        self.rest.read(buf)
    }
}
