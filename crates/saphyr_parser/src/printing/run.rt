//! A run of the program `dump_events`: what it reads and prints, its message and its status.

ghost use Rattle.std.specs.Prelude.{◌≡◌, ◌+◌, ◌++◌, codes, string_bytes};
ghost use Rattle.std.specs.Fmt.{decimal};
ghost use Rattle.std.specs.Io.KnownBytes.{Keeps};
ghost use Rattle.saphyr_scalar.specs.Faults.{error_text};
ghost use Rattle.saphyr_parser.specs.Written.{Takes};
ghost use Rattle.saphyr_parser.specs.Runs as spec;

use crate::cursor::Parser;
use crate::printing::dump;
use crate::printing::fault::DumpFault;
use crate::printing::writing::{Unwritten, write_all, write_number};
use saphyr_machine::Fault;
use saphyr_scalar::{Marker, ScanError};
use std::alloc::Global;
use std::io::{Read, Write};

/// Why a run failed.
#[derive(Drop)]
pub enum RunFault {
    CantRead,
    NotUtf8,
    Parse(Fault),
    CantWrite,
}

/// Reads all bytes of the source and prints the events of their text, as the program `dump_events` does.
///
/// Returns the program's status: 0 if all lines were written, otherwise 1. Then one line of `err` says
/// why, and `name` names the source in it. If that line can't be written, the status is still 1.
#[tactic(auto, using(crate::proofs::Printed::Running::says))]
pub fn run_dump<R: Read, W: Write, E: Write>(
    alloc: Global,
    name: &str,
    source: &mut R,
    out: &mut W,
    err: &mut E,
) -> u8
    ensures { spec.Runs result name.now (R.remaining source.old) (R.remaining source.new)
        (W.contents out.old) (W.contents out.new) (E.contents err.old) (E.contents err.new) }
{
    match print_source(alloc, source, out) {
        Ok(()) => 0,
        Err(fault) => {
            let _ = complain(err, name.as_bytes(), &fault);
            1
        }
    }
}

// Reads all bytes, and prints the events of their text.
fn print_source<R: Read, W: Write>(
    alloc: Global,
    source: &mut R,
    out: &mut W,
) -> Result<(), RunFault>
    ensures { spec.PrintsSource result (R.remaining source.old) (R.remaining source.new)
        (W.contents out.old) (W.contents out.new) }
{
    let mut bytes = Vec::new(alloc);
    if source.read_to_end(&mut bytes).is_err() {
        return Err(RunFault::CantRead);
    }
    match str::from_utf8(&bytes) {
        Ok(text) => print_text(alloc, text, out),
        Err(_) => Err(RunFault::NotUtf8),
    }
}

// Prints the events of a text.
fn print_text<W: Write>(alloc: Global, text: &str, out: &mut W) -> Result<(), RunFault>
    ensures { spec.PrintsText result (spec.answer_of_text text.now) (W.contents out.old)
        (W.contents out.new) }
{
    let dumped = dump_text(alloc, text, out);
    finish(dumped, out)
}

fn dump_text<W: Write>(alloc: Global, text: &str, out: &mut W) -> Result<(), DumpFault>
    ensures { spec.DumpsText result (spec.answer_of_text text.now) (W.contents out.old)
        (W.contents out.new) }
{
    let mut parser = Parser::new_from_str(alloc, text);
    dump(&mut parser, out)
}

// Flushes the writer, unless it failed before.
fn finish<W: Write>(dumped: Result<(), DumpFault>, out: &mut W) -> Result<(), RunFault>
    ensures becomes { spec.Becomes dumped result }
    ensures keeps { Keeps (W.contents out.old) (W.contents out.new) }
{
    match dumped {
        Ok(()) => match out.flush() {
            Ok(()) => Ok(()),
            Err(_) => Err(RunFault::CantWrite),
        },
        Err(DumpFault::Parse(fault)) => match out.flush() {
            Ok(()) => Err(RunFault::Parse(fault)),
            Err(_) => Err(RunFault::CantWrite),
        },
        Err(DumpFault::Write) => Err(RunFault::CantWrite),
    }
}

// Says why a run failed.
fn complain<E: Write>(err: &mut E, name: &[u8], fault: &RunFault) -> Result<(), Unwritten>
    ensures { Takes result (E.contents err.old) (E.contents err.new)
        (spec.message name.now fault.now) }
{
    match fault {
        RunFault::CantRead => write_named(err, b"dump_events: can't read ", name, b"\n"),
        RunFault::NotUtf8 => write_named(err, b"dump_events: ", name, b" is not UTF-8\n"),
        RunFault::Parse(fault) => write_fault(err, fault),
        RunFault::CantWrite => write_all(err, b"dump_events: can't write\n"),
    }
}

// Writes a name between two texts.
fn write_named<E: Write>(
    err: &mut E,
    before: &[u8],
    name: &[u8],
    behind: &[u8],
) -> Result<(), Unwritten>
    ensures { Takes result (E.contents err.old) (E.contents err.new)
        (before.now ++ (name.now ++ behind.now)) }
{
    write_all(err, before)?;
    write_all(err, name)?;
    write_all(err, behind)
}

// Writes the line of a fault.
fn write_fault<E: Write>(err: &mut E, fault: &Fault) -> Result<(), Unwritten>
    ensures { Takes result (E.contents err.old) (E.contents err.new) (spec.fault_line fault.now) }
{
    match fault {
        Fault::Scan(error) => write_error(err, error),
        Fault::OutOfMemory => write_all(err, b"out of memory\n"),
        Fault::Receiver => write_all(err, b"the receiver refused an event\n"),
        Fault::InsideDocument => write_all(err, b"load was called inside a document\n"),
    }
}

fn write_error<E: Write>(err: &mut E, error: &ScanError) -> Result<(), Unwritten>
    ensures { Takes result (E.contents err.old) (E.contents err.new)
        (error_text error.now ++ codes "\n") }
{
    write_all(err, error.info.as_bytes())?;
    write_place(err, error.mark)?;
    write_all(err, b"\n")
}

fn write_place<E: Write>(err: &mut E, mark: Marker) -> Result<(), Unwritten>
    ensures { Takes result (E.contents err.old) (E.contents err.new) (spec.place_text mark) }
{
    write_labelled(err, b" at byte ", mark.index as u128)?;
    write_labelled(err, b" line ", mark.line as u128)?;
    write_labelled(err, b" column ", mark.col as u128 + 1)
}

fn write_labelled<E: Write>(err: &mut E, label: &[u8], number: u128) -> Result<(), Unwritten>
    ensures { Takes result (E.contents err.old) (E.contents err.new) (label.now ++ decimal number) }
{
    write_all(err, label)?;
    write_number(err, number)
}
