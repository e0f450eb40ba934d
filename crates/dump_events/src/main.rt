//! Prints the events of a YAML text, a line for each.
//!
//!     dump_events [FILE]
//!
//! Reads the file, or standard input if none is named. The status is 0 if all events were printed, 1 if
//! the text is refused or can't be read or printed, and 2 if there is more than one argument.
#![tactic(auto)]

ghost use Rattle.std.specs.Prelude.{◌≡◌};
ghost use Rattle.std.specs.Process.{exit_status};

mod line_buffer;
mod refusal;

use line_buffer::LineBuffer;
use refusal::refuse_source;
use saphyr_parser::run_dump;
use std::env::{Env, FillError};
use std::fs::File;
use std::io::Read;
use std::process::ExitCode;

/// The most bytes of a path. Linux opens no longer one.
const LONGEST_PATH: usize = 4096;

/// The most bytes of an argument. Linux allows no longer one.
const LONGEST_ARGUMENT: usize = 131_072;

// The arguments are counted and read without requests for memory, so no request here can fail.
fn main(rt: HostRuntime) -> ExitCode {
    if !matches!(rt.arg(2, &mut []), Err(FillError::NotPresent)) {
        return usage(&rt);
    }
    let mut path = [0; LONGEST_PATH];
    let status = match rt.arg(1, &mut path) {
        Ok(count) => dump_named(&rt, &path[..count]),
        Err(FillError::NotPresent) => dump_from(&rt, "-", &mut rt.stdin()),
        Err(FillError::TooLong) => refuse_long(&rt),
    };
    ExitCode::from(status)
}

// Here is the room for an argument that is no path, which other runs need not clear.
#[inline(never)]
fn refuse_long(rt: &HostRuntime) -> u8 {
    let mut name = [0; LONGEST_ARGUMENT];
    match rt.arg(1, &mut name) {
        Ok(count) => refuse_source(&mut rt.stderr(), &name[..count]),
        Err(_) => refuse_source(&mut rt.stderr(), b"FILE"),
    }
}

fn usage(rt: &HostRuntime) -> ExitCode
    ensures { exit_status result ≡ 2 }
{
    let _ = eprintln!(rt; "usage: dump_events [FILE]");
    ExitCode::from(2)
}

// The kit opens no file whose name isn't UTF-8.
fn dump_named(rt: &HostRuntime, name: &[u8]) -> u8 {
    match str::from_utf8(name) {
        Ok(path) => dump_file(rt, path),
        Err(_) => refuse_source(&mut rt.stderr(), name),
    }
}

fn dump_file(rt: &HostRuntime, path: &str) -> u8 {
    match File::open(rt, path) {
        Ok(mut file) => dump_from(rt, path, &mut file),
        Err(_) => refuse_source(&mut rt.stderr(), path.as_bytes()),
    }
}

fn dump_from<R: Read>(rt: &HostRuntime, name: &str, source: &mut R) -> u8 {
    let mut out = LineBuffer::new(rt.stdout());
    run_dump(rt.alloc(), name, source, &mut out, &mut rt.stderr())
}
