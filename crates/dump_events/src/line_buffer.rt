//! A buffer for lines, in front of a writer.

ghost use Rattle.std.specs.Prelude.{◌≡◌, ◌≤◌, ◌++◌, true, false, length, take, OnOk};
ghost use Rattle.std.specs.Io.KnownBytes.{Keeps, Appends};
ghost use Rattle.dump_events.specs.LineBuffers.{contents_of};

use std::io::{Error, ErrorKind, Result, Write};

/// How many bytes wait at most.
const ROOM: usize = 8192;

/// Gathers lines into large pieces, as a `BufWriter` does.
///
/// It is here for speed: the result of a write to a `BufWriter` has room for an error, which is cleared each time and
/// costs more than most lines. Here most writes are inlined and can't fail.
pub struct LineBuffer<W: Write + Drop> {
    out: W,
    room: [u8; ROOM],
    // How many bytes of the room wait.
    filled: usize,
}

// Writes bytes until all are written or the writer takes no more. Returns how many were written.
pub fn write_out<W: Write>(bytes: &[u8], out: &mut W) -> usize
    ensures bound { result ≤ length bytes.now }
    ensures bytes { Appends (W.contents out.old) (W.contents out.new) (take result bytes.now) }
{
    let mut written = 0;
    while written < bytes.len() {
        match out.write(&bytes[written..]) {
            Ok(0) | Err(_) => break,
            Ok(count) => written += count,
        }
    }
    written
}

impl<W: Write + Drop> LineBuffer<W> {
    /// An empty buffer in front of a writer.
    pub fn new(out: W) -> Self
        ensures out { result.out ≡ out }
        ensures empty { result.filled ≡ 0 }
    {
        LineBuffer {
            out,
            room: [0; ROOM],
            filled: 0,
        }
    }

    // Writes what waits, and returns whether all was written. If not, the rest still waits.
    #[inline(never)]
    fn flushes(&mut self) -> bool
        ensures bytes { Keeps (contents_of W.contents self.old) (contents_of W.contents self.new) }
        ensures empty { result ≡ true → self.new.filled ≡ 0 }
    {
        let filled = self.filled.min(ROOM);
        let written = write_out(&self.room[..filled], &mut self.out);
        self.room.copy_within(written..filled, 0);
        self.filled = filled - written;
        self.filled == 0
    }

    // Puts bytes behind those that wait, if there is room for all.
    #[inline(always)]
    fn gathers(&mut self, bytes: &[u8]) -> bool
        ensures out { self.new.out ≡ self.old.out }
        ensures gathered { result ≡ true → take self.new.filled self.new.room
            ≡ take self.old.filled self.old.room ++ bytes.now }
        ensures same { result ≡ false → self.new ≡ self.old }
    {
        let start = self.filled;
        if start > ROOM || bytes.len() > ROOM - start {
            return false;
        }
        let end = start + bytes.len();
        self.room[start..end].copy_from_slice(bytes);
        self.filled = end;
        true
    }

    // Writes what waits, and then takes as many bytes as there is room for. Returns how many.
    #[inline(never)]
    fn takes_some(&mut self, bytes: &[u8]) -> usize
        ensures bound { result ≤ length bytes.now }
        ensures bytes { Appends (contents_of W.contents self.old) (contents_of W.contents self.new)
            (take result bytes.now) }
    {
        if !self.flushes() {
            return 0;
        }
        let count = bytes.len().min(ROOM);
        if self.gathers(&bytes[..count]) {
            count
        } else {
            0
        }
    }
}

impl<W: Write + Drop> Write for LineBuffer<W> {
    ghost contents = { contents_of W.contents };

    #[inline(always)]
    fn write(&mut self, bytes: &[u8]) -> Result<usize> {
        if self.gathers(bytes) {
            return Ok(bytes.len());
        }
        // 0 says that the writer behind took none, or failed.
        Ok(self.takes_some(bytes))
    }

    fn flush(&mut self) -> Result<()>
        ensures bytes { Keeps (contents_of W.contents self.old) (contents_of W.contents self.new) }
        ensures empty { OnOk result (self.new.filled ≡ 0) }
    {
        if !self.flushes() {
            return Err(Error::from(ErrorKind::WriteZero));
        }
        self.out.flush()
    }
}

// What waits is not lost. What then fails can't be told.
impl<W: Write + Drop> Drop for LineBuffer<W> {
    fn drop(mut self) {
        let _ = self.flushes();
        let LineBuffer {
            out: _out,
            room: _,
            filled: _,
        } = self;
    }
}
