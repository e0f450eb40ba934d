//! The findings as they are told: for people with the place, the message, the line and a caret, for programs as JSON.
ghost use Rattle.std.specs.Prelude.{◌≡◌, ◌++◌, true, IfOk, OnOk, string_bytes};
ghost use Rattle.std.specs.Str.{chars};
ghost use Rattle.yaml_check.specs.Shown.{shown_text};
ghost use Rattle.yaml_check.specs.Texts.{name_and_place};
ghost use Rattle.yaml_check.specs.ToldSeen.{told_of};
ghost use Rattle.yaml_check.specs.Reports.{AddsAll, AddsFinding, AddsNote, AddsTold, AddsWithNotes, IsReport, name_in, told_line, unread};

use crate::finding::{Finding, Findings, Severity};
use crate::json::{push_escaped, push_object};
use crate::told::{Format, Source, Told};
use crate::view::{View, characters, push_visible};
use saphyr_parser::{Marker, Span};
use std::alloc::{AllocError, Global};

/// A text as it is shown, on one line: what breaks a line, steers a terminal or can't be seen is an escape.
pub fn visible(alloc: Global, text: &str) -> Result<String, AllocError>
    ensures { IfOk result (λ shown. string_bytes shown ≡ shown_text text.now) }
{
    let text = characters(alloc, text)?;
    let mut out = String::new(alloc);
    let pushed = push_visible(&mut out, &text);
    drop(text);
    match pushed {
        Ok(()) => Ok(out),
        Err(fault) => {
            drop(out);
            Err(fault)
        }
    }
}

/// What is printed for the findings in a text of this name.
pub fn report(
    alloc: Global,
    name: &str,
    text: &str,
    found: &Findings,
    format: Format,
) -> Result<String, AllocError>
    ensures { IfOk result (λ told. IsReport format (name_in format name.now) (chars text.now)
        found.now (string_bytes told)) }
{
    let name = printed_name(alloc, name, format)?;
    let told = report_as(alloc, name.as_str(), text, found, format);
    drop(name);
    told
}

/// What is printed of a file that can't be read.
pub(crate) fn report_unread(
    alloc: Global,
    name: &str,
    message: &str,
    format: Format,
) -> Result<String, AllocError>
    ensures { IfOk result (λ told. string_bytes told
        ≡ unread format (name_in format name.now) message.now) }
{
    let name = printed_name(alloc, name, format)?;
    let mut out = String::new(alloc);
    let source = Source {
        format,
        name: name.as_str(),
        text: &[],
    };
    let told = Told {
        span: Span::empty(Marker::new(0, 1, 0)),
        severity: Severity::Error,
        rule: "unreadable",
        message,
    };
    let done = tell(alloc, &mut out, &source, &told, false);
    drop(name);
    match done {
        Ok(()) => Ok(out),
        Err(full) => {
            drop(out);
            Err(full)
        }
    }
}

/// The name of a file as it is printed.
fn printed_name(alloc: Global, name: &str, format: Format) -> Result<String, AllocError>
    ensures { IfOk result (λ printed. string_bytes printed ≡ name_in format name.now) }
{
    match format {
        Format::Text => visible(alloc, name),
        Format::Json => {
            let mut out = String::new(alloc);
            match push_escaped(alloc, &mut out, name) {
                Ok(()) => Ok(out),
                Err(fault) => {
                    drop(out);
                    Err(fault)
                }
            }
        }
    }
}

/// The report of a file whose name is as it is printed.
fn report_as(
    alloc: Global,
    name: &str,
    text: &str,
    found: &Findings,
    format: Format,
) -> Result<String, AllocError>
    ensures { IfOk result (λ told. IsReport format name.now (chars text.now) found.now
        (string_bytes told)) }
{
    let text = characters(alloc, text)?;
    let mut out = String::new(alloc);
    let source = Source {
        format,
        name,
        text: &text,
    };
    let told = tell_all(alloc, &mut out, &source, found, &found.list);
    drop(text);
    match told {
        Ok(()) => Ok(out),
        Err(fault) => {
            drop(out);
            Err(fault)
        }
    }
}

/// Tells findings with their notes, one after the other.
fn tell_all(
    alloc: Global,
    out: &mut String,
    source: &Source,
    found: &Findings,
    list: &[Finding],
) -> Result<(), AllocError>
    ensures { OnOk result (AddsAll source.now.format source.now.name.now source.now.text.now
        found.now list.now (string_bytes out.old) (string_bytes out.new)) }
{
    for finding in list {
        tell_with_notes(alloc, out, source, found, *finding)?;
    }
    Ok(())
}

/// Tells a finding and the notes on it. The line of a note is left out where what was told before is at its place.
fn tell_with_notes(
    alloc: Global,
    out: &mut String,
    source: &Source,
    found: &Findings,
    finding: Finding,
) -> Result<(), AllocError>
    ensures { OnOk result (AddsWithNotes source.now.format source.now.name.now
        source.now.text.now found.now finding (string_bytes out.old) (string_bytes out.new)) }
{
    let notes = found.notes_on(finding);
    tell_finding(alloc, out, source, found, finding, true)?;
    tell_note(alloc, out, source, found, finding, notes.first)?;
    let before = notes.first.unwrap_or(finding);
    tell_note(alloc, out, source, found, before, notes.second)
}

/// Tells a note behind something else, if there is one.
fn tell_note(
    alloc: Global,
    out: &mut String,
    source: &Source,
    found: &Findings,
    before: Finding,
    note: Option<Finding>,
) -> Result<(), AllocError>
    ensures { OnOk result (AddsNote source.now.format source.now.name.now source.now.text.now
        found.now before note (string_bytes out.old) (string_bytes out.new)) }
{
    let Some(note) = note else {
        return Ok(());
    };
    let shows = note.span.start.index != before.span.start.index;
    tell_finding(alloc, out, source, found, note, shows)
}

/// Tells one finding, where people read it with its line or without.
fn tell_finding(
    alloc: Global,
    out: &mut String,
    source: &Source,
    found: &Findings,
    finding: Finding,
    shows: bool,
) -> Result<(), AllocError>
    ensures { OnOk result (AddsFinding source.now.format shows source.now.name.now
        source.now.text.now found.now finding (string_bytes out.old) (string_bytes out.new)) }
{
    let message = found.message(alloc, finding)?;
    let told = Told {
        span: finding.span,
        severity: finding.problem.severity(),
        rule: finding.problem.rule(),
        message: message.as_str(),
    };
    let done = tell(alloc, out, source, &told, shows);
    drop(message);
    done
}

/// Tells one thing, where people read it with its line or without.
fn tell(
    alloc: Global,
    out: &mut String,
    source: &Source,
    told: &Told,
    shows: bool,
) -> Result<(), AllocError>
    ensures { OnOk result (AddsTold source.now.format shows source.now.name.now
        source.now.text.now (told_of told.now) (string_bytes out.old) (string_bytes out.new)) }
{
    match source.format {
        Format::Json => push_object(alloc, out, source.name, told),
        Format::Text => {
            push_line(out, source.name, told)?;
            if shows {
                View::new(source.text, told.span.start).push_to(out)?;
            }
            Ok(())
        }
    }
}

/// Appends the line that tells of a place.
fn push_line(out: &mut String, name: &str, told: &Told) -> Result<(), AllocError>
    ensures { OnOk result (string_bytes out.new
        ≡ string_bytes out.old ++ told_line name.now (told_of told.now)) }
{
    push_place(out, name, told.span.start)?;
    let (severity, message) = (told.severity.word(), told.message);
    write!(out, "{severity}: {message}\n")
}

/// Appends the name of a text and a place in it.
fn push_place(out: &mut String, name: &str, place: Marker) -> Result<(), AllocError>
    ensures { OnOk result (string_bytes out.new
        ≡ string_bytes out.old ++ name_and_place name.now place) }
{
    write!(out, "{name}:{place}: ")
}
