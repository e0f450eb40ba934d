//! What is said of a source that can't be read.

ghost use Rattle.std.specs.Prelude.{◌≡◌, ◌++◌, true, codes};
ghost use Rattle.std.specs.Io.KnownBytes.{Appends};
ghost use Rattle.saphyr_parser.specs.Runs.{TakesBeginning};

use crate::line_buffer::write_out;
use std::io::Write;

/// Says that a source can't be read, as `run_dump` does, and returns its status, 1. `name` names the source, whatever
/// bytes it has.
pub fn refuse_source<E: Write>(err: &mut E, name: &[u8]) -> u8
    ensures status { result ≡ 1 }
    ensures says { TakesBeginning (E.contents err.old) (E.contents err.new)
        (codes "dump_events: can't read " ++ (name.now ++ codes "\n")) }
{
    if !writes(b"dump_events: can't read ", err) {
        return 1;
    }
    if writes(name, err) {
        let _ = writes(b"\n", err);
    }
    1
}

// Writes bytes until all are written or the writer takes no more, and returns whether all were.
fn writes<W: Write>(bytes: &[u8], out: &mut W) -> bool
    ensures beginning { TakesBeginning (W.contents out.old) (W.contents out.new) bytes.now }
    ensures all { result ≡ true → Appends (W.contents out.old) (W.contents out.new) bytes.now }
{
    write_out(bytes, out) == bytes.len()
}
