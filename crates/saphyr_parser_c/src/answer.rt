//! Writes the next event, or the fault in its place, for C, with the status of the call.

ghost use Rattle.std.specs.Prelude.{◌≡◌};
ghost use Rattle.saphyr_parser.specs.Cursor.{event_of};
ghost use Rattle.saphyr_parser.specs.Views.Events.{happening};
ghost use Rattle.saphyr_parser_c.specs.Same.{IsSameFault};
ghost use Rattle.saphyr_parser_c.specs.Shown.{HasFields, HasNumbers, HasTextFields, TextsStand};
ghost use Rattle.saphyr_parser_c.specs.Shown.{no_fields, fields_of_event};
ghost use Rattle.saphyr_parser_c.specs.Shown.{WritesFault, WritesLent, WritesLentFault, WritesNumbers};

use crate::shown::{CEvent, bare, blank, explicit_code, kind_code, style_code};
use crate::status::Status;
use crate::texts::{keep_tag_of, keep_value, kept, lend_tag, lent};
use saphyr_parser::{Event, Fault, ScanError, Span};
use std::alloc::Global;

// A refusal with its place, without its text.
fn refused(error: &ScanError) -> CEvent
    ensures numbers { HasNumbers no_fields error.now.mark error.now.mark result }
    ensures texts { HasTextFields no_fields result }
{
    bare(0, error.mark, error.mark)
}

/// Writes an event that is kept.
#[inline(always)]
pub fn write_event(alloc: Global, given: &mut (Event<'static>, Span), out: &mut CEvent)
    ensures same { event_of given.new ≡ event_of given.old }
    ensures numbers { WritesNumbers given.new out.new }
    ensures stands { TextsStand given.new.0 out.new }
{
    *out = bare(kind_code(&given.0), given.1.start, given.1.end);
    match &given.0 {
        Event::DocumentStart(explicit) => out.is_explicit = explicit_code(*explicit),
        Event::Alias(id) => out.anchor = *id,
        Event::Scalar(_, style, id, tag) => {
            out.style = style_code(*style);
            out.anchor = *id;
            let is_tagged = tag.is_some();
            keep_value(alloc, &mut given.0, out);
            if is_tagged {
                keep_tag_of(alloc, &mut given.0, out);
            }
        }
        Event::SequenceStart(id, tag) | Event::MappingStart(id, tag) => {
            out.anchor = *id;
            if tag.is_some() {
                keep_tag_of(alloc, &mut given.0, out);
            }
        }
        Event::Nothing
        | Event::StreamStart
        | Event::StreamEnd
        | Event::DocumentEnd
        | Event::SequenceEnd
        | Event::MappingEnd => {}
    }
}

// Writes an event that is lent.
fn write_lent_event(event: &Event<'static>, span: Span, out: &mut CEvent)
    ensures { HasFields (fields_of_event (happening event.now)) span.start span.end out.new }
{
    *out = bare(kind_code(event), span.start, span.end);
    match event {
        Event::DocumentStart(explicit) => out.is_explicit = explicit_code(*explicit),
        Event::Alias(id) => out.anchor = *id,
        Event::Scalar(value, style, id, tag) => {
            out.style = style_code(*style);
            out.anchor = *id;
            out.value = lent(value);
            lend_tag(tag, out);
        }
        Event::SequenceStart(id, tag) | Event::MappingStart(id, tag) => {
            out.anchor = *id;
            lend_tag(tag, out);
        }
        Event::Nothing
        | Event::StreamStart
        | Event::StreamEnd
        | Event::DocumentEnd
        | Event::SequenceEnd
        | Event::MappingEnd => {}
    }
}

/// Writes a fault that is kept.
#[inline(never)]
pub fn write_fault(alloc: Global, fault: &mut Fault, out: &mut CEvent) -> Status
    ensures same { IsSameFault fault.old fault.new }
    ensures writes { WritesFault fault.new result out.new }
{
    match fault {
        Fault::Scan(error) => {
            *out = refused(error);
            out.value = kept(alloc, &mut error.info);
            Status::of_refusal(error.info.as_str())
        }
        Fault::OutOfMemory | Fault::Receiver | Fault::InsideDocument => {
            *out = blank();
            Status::NoMemory
        }
    }
}

// Writes a fault that is lent.
fn write_lent_fault(fault: &Fault, out: &mut CEvent) -> Status
    ensures { WritesLentFault fault.now result out.new }
{
    match fault {
        Fault::Scan(error) => {
            *out = refused(error);
            out.value = lent(error.info.as_str());
            Status::of_refusal(error.info.as_str())
        }
        Fault::OutOfMemory | Fault::Receiver | Fault::InsideDocument => {
            *out = blank();
            Status::NoMemory
        }
    }
}

/// Writes what the parser lends.
pub fn write_lent(
    shown: Option<Result<&(Event<'static>, Span), &Fault>>,
    out: &mut CEvent,
) -> Status
    ensures { WritesLent shown.entry result out.new }
{
    match shown {
        Some(Ok((event, span))) => {
            write_lent_event(event, *span, out);
            Status::Event
        }
        Some(Err(fault)) => write_lent_fault(fault, out),
        None => {
            *out = blank();
            Status::End
        }
    }
}
