//! The check of one file: reads it, checks it, and writes what is found.
ghost use Rattle.std.specs.Prelude.{◌≡◌, ◌≤◌, ◌↔◌, IfOk};
ghost use Rattle.saphyr_parser.specs.Runs.{answer_of_text, ReadsAll};
ghost use Rattle.yaml_check.specs.Statuses as status;
ghost use Rattle.yaml_check.specs.Statuses.{AllPass, OneUnchecked};
ghost use Rattle.yaml_check.specs.Checks.{Checks, Judges, JudgesBytes, JudgesOther, TellsUnread, WritesLines, WritesTold, events_asked, told_unless_quiet};

use crate::arguments::Options;
use crate::checking::check_text;
use crate::encoding::{not_utf8, text_before};
use crate::finding::Verdict;
use crate::telling::{report, report_unread};
use saphyr_parser::{DumpFault, Fault, Parser, dump};
use std::alloc::{AllocError, Global};
use std::io;
use std::io::{Read, Write};
use thiserror::Error;

/// The status of a program with these results for its files: 2 if one was not checked, 1 if one is wrong, or has
/// warnings and the call is strict, otherwise 0.
#[must_use]
pub fn status_of(answers: &[Result<Verdict, CheckFault>], strict: bool) -> u8
    ensures passed { (result ≡ 0) ↔ AllPass strict answers.now }
    ensures unchecked { (result ≡ 2) ↔ OneUnchecked answers.now }
    ensures else_wrong { result ≤ 2 }
{
    let mut status = 0;
    for answer in answers {
        status = status_of_one(*answer, strict).max(status);
    }
    status
}

/// The status if only this file is checked.
fn status_of_one(answer: Result<Verdict, CheckFault>, strict: bool) -> u8
    ensures { result ≡ status.status_of_one strict answer }
{
    match answer {
        Ok(Verdict::Right) => 0,
        Ok(Verdict::Warned) => u8::from(strict),
        Ok(Verdict::Wrong) => 1,
        Err(_) => 2,
    }
}

/// Why a file was not checked.
#[derive(Clone, Copy, Debug, Error)]
pub enum CheckFault {
    #[error("can't read: {0}")]
    CantRead(io::Error),
    #[error("can't write")]
    CantWrite,
    #[error("out of memory")]
    OutOfMemory,
}

impl From<AllocError> for CheckFault {
    ghost use Rattle.yaml_check.specs.declared.run.CheckFault.TheVariants.{OutOfMemory};

    ghost from_gives = { λ _ fault. fault ≡ OutOfMemory };

    fn from(_e: AllocError) -> CheckFault {
        CheckFault::OutOfMemory
    }
}

/// Writes why a file or a folder can't be read, as an error where it begins.
pub fn tell_unread<W: Write>(
    alloc: Global,
    name: &str,
    error: io::Error,
    options: Options,
    out: &mut W,
) -> Result<(), CheckFault>
    ensures { TellsUnread result name.now options (W.contents out.old) (W.contents out.new) }
{
    let message = format!(in alloc; "can't read: {error}")?;
    let reported = report_unread(alloc, name, message.as_str(), options.format);
    drop(message);
    let told = reported?;
    let written = write_unless_quiet(out, told.as_str(), options);
    drop(told);
    written
}

/// Reads all bytes of a source, and writes what is found in them under this name.
pub fn check_source<R: Read, W: Write>(
    alloc: Global,
    name: &str,
    source: &mut R,
    options: Options,
    out: &mut W,
) -> Result<Verdict, CheckFault>
    ensures { Checks result name.now options (R.remaining source.old) (R.remaining source.new)
        (W.contents out.old) (W.contents out.new) }
{
    match read_source(alloc, source) {
        Ok(bytes) => judge_bytes(alloc, name, &bytes, options, out),
        Err(error) => Err(CheckFault::CantRead(error)),
    }
}

/// All bytes of a source.
fn read_source<R: Read>(alloc: Global, source: &mut R) -> io::Result<Vec<u8>>
    ensures { IfOk result (λ bytes.
        ReadsAll (R.remaining source.old) (R.remaining source.new) bytes.items) }
{
    let mut bytes = Vec::new(alloc);
    match source.read_to_end(&mut bytes) {
        Ok(_count) => Ok(bytes),
        Err(error) => {
            drop(bytes);
            Err(error)
        }
    }
}

/// Checks bytes, and writes what is found.
fn judge_bytes<W: Write>(
    alloc: Global,
    name: &str,
    bytes: &[u8],
    options: Options,
    out: &mut W,
) -> Result<Verdict, CheckFault>
    ensures { JudgesBytes result name.now options bytes.now (W.contents out.old)
        (W.contents out.new) }
{
    match str::from_utf8(bytes) {
        Ok(text) => judge(alloc, name, text, options, out),
        Err(_) => tell_not_utf8(alloc, name, bytes, options, out),
    }
}

/// Tells of bytes that are not UTF-8, with the line of the text before the wrong one.
fn tell_not_utf8<W: Write>(
    alloc: Global,
    name: &str,
    bytes: &[u8],
    options: Options,
    out: &mut W,
) -> Result<Verdict, CheckFault>
    ensures { JudgesOther result name.now options bytes.now (W.contents out.old)
        (W.contents out.new) }
{
    let found = not_utf8(alloc, bytes)?;
    let reported = report(alloc, name, text_before(bytes), &found, options.format);
    drop(found);
    let told = reported?;
    let written = write_unless_quiet(out, told.as_str(), options);
    drop(told);
    written?;
    Ok(Verdict::Wrong)
}

/// Checks a text. Writes its events, if they are asked for, and what is found.
#[tactic(auto, using(crate::proofs::Judging::is_right))]
fn judge<W: Write>(
    alloc: Global,
    name: &str,
    text: &str,
    options: Options,
    out: &mut W,
) -> Result<Verdict, CheckFault>
    ensures { Judges result name.now options text.now (W.contents out.old) (W.contents out.new) }
{
    let found = check_text(alloc, text, options)?;
    let verdict = found.verdict;
    if verdict.is_right() {
        drop(found);
        write_events(alloc, text, options, out)?;
        return Ok(Verdict::Right);
    }
    let reported = report(alloc, name, text, &found, options.format);
    drop(found);
    let told = reported?;
    match write_events(alloc, text, options, out) {
        Ok(()) => {
            let written = write_unless_quiet(out, told.as_str(), options);
            drop(told);
            written?;
            Ok(verdict)
        }
        Err(fault) => {
            drop(told);
            Err(fault)
        }
    }
}

/// Writes what is found, unless the options forbid it.
fn write_unless_quiet<W: Write>(out: &mut W, told: &str, options: Options) -> Result<(), CheckFault>
    ensures { WritesTold result (told_unless_quiet options told.now) (W.contents out.old)
        (W.contents out.new) }
{
    if options.quiet {
        return Ok(());
    }
    write_bytes(out, told.as_bytes())
}

/// Writes all bytes, however few the writer takes at a time.
#[tactic(auto, using(saphyr_parser::proofs::Printed::Written::takes_all, crate::proofs::Judging::takes_none_more))]
fn write_bytes<W: Write>(out: &mut W, bytes: &[u8]) -> Result<(), CheckFault>
    ensures { WritesTold result bytes.now (W.contents out.old) (W.contents out.new) }
{
    let mut rest = bytes;
    while !rest.is_empty() {
        match out.write(rest) {
            Ok(0) | Err(_) => return Err(CheckFault::CantWrite),
            Ok(count) => rest = &rest[count..],
        }
    }
    Ok(())
}

/// If the options ask for the events, writes their lines as `dump_events` does.
fn write_events<W: Write>(
    alloc: Global,
    text: &str,
    options: Options,
    out: &mut W,
) -> Result<(), CheckFault>
    ensures { WritesLines result (events_asked options (answer_of_text text.now))
        (W.contents out.old) (W.contents out.new) }
{
    if !options.events {
        return Ok(());
    }
    let mut parser = Parser::new_from_str(alloc, text);
    let dumped = dump(&mut parser, out);
    drop(parser);
    match dumped {
        Ok(()) => Ok(()),
        Err(DumpFault::Parse(Fault::Scan(error))) => {
            drop(error);
            Ok(())
        }
        Err(DumpFault::Parse(fault)) => {
            drop(fault);
            Err(CheckFault::OutOfMemory)
        }
        Err(DumpFault::Write) => Err(CheckFault::CantWrite),
    }
}
