//! The structure of an event or a fault for C, and its numbers.

ghost use Rattle.std.specs.Prelude.{◌≡◌, None};
ghost use Rattle.std.specs.Ptr.{null_ptr};
ghost use Rattle.saphyr_parser.specs.Views.Events.{happening};
ghost use Rattle.saphyr_parser_c.specs.Shown as spec;

use saphyr_parser::{Event, Marker, ScalarStyle};
use std::ptr::null;

/// A text that C may read until the next call with its parser. Null if there is none.
#[repr(C)]
#[derive(Drop)]
pub struct CText {
    pub at: *const u8,
    pub len: usize,
}

/// A place in the text.
#[repr(C)]
#[derive(Clone, Copy)]
pub struct CMarker {
    pub index: usize,
    pub line: usize,
    pub col: usize,
}

/// An event, or a fault.
#[repr(C)]
#[derive(Drop)]
pub struct CEvent {
    pub kind: i32,
    pub style: i32,
    pub is_explicit: i32,
    pub has_tag: i32,
    pub anchor: usize,
    pub start: CMarker,
    pub end: CMarker,
    pub value: CText,
    pub tag_handle: CText,
    pub tag_suffix: CText,
}

// A place of the text.
pub(crate) fn marker_of(mark: Marker) -> CMarker
    ensures { spec.IsMarkerOfC mark result }
{
    CMarker {
        index: mark.index,
        line: mark.line,
        col: mark.col,
    }
}

/// The number of a style in C.
pub fn style_code(style: ScalarStyle) -> i32
    ensures { result ≡ spec.style_code style }
{
    match style {
        ScalarStyle::Plain => 0,
        ScalarStyle::SingleQuoted => 1,
        ScalarStyle::DoubleQuoted => 2,
        ScalarStyle::Literal => 3,
        ScalarStyle::Folded => 4,
    }
}

/// Whether a document begins with a `---`, as a number.
pub fn explicit_code(explicit: bool) -> i32
    ensures { result ≡ spec.explicit_code explicit }
{
    if explicit { 1 } else { 0 }
}

// No address.
fn nowhere() -> *const u8
    ensures { result ≡ null_ptr }
{
    null()
}

// No text.
pub(crate) fn no_text() -> CText
    ensures { spec.HasText None result }
{
    CText {
        at: nowhere(),
        len: 0,
    }
}

/// An event of this kind between these places, with all other fields 0.
pub fn bare(kind: i32, start: Marker, end: Marker) -> CEvent
    ensures numbers { spec.HasNumbers (spec.fields_of_kind kind) start end result }
    ensures texts { spec.HasTextFields (spec.fields_of_kind kind) result }
{
    CEvent {
        kind,
        style: 0,
        is_explicit: 0,
        has_tag: 0,
        anchor: 0,
        start: marker_of(start),
        end: marker_of(end),
        value: no_text(),
        tag_handle: no_text(),
        tag_suffix: no_text(),
    }
}

/// No event.
pub fn blank() -> CEvent
    ensures { spec.HasFields spec.no_fields spec.nowhere spec.nowhere result }
{
    let start = Marker::new(0, 0, 0);
    bare(0, start, start)
}

/// The number of an event's kind in C.
pub fn kind_code(event: &Event<'static>) -> i32
    ensures { result ≡ (spec.fields_of_event (happening event.now)).kind }
{
    match event {
        Event::Nothing => 0,
        Event::StreamStart => 1,
        Event::StreamEnd => 2,
        Event::DocumentStart(_) => 3,
        Event::DocumentEnd => 4,
        Event::Alias(_) => 5,
        Event::Scalar(_, _, _, _) => 6,
        Event::SequenceStart(_, _) => 7,
        Event::SequenceEnd => 8,
        Event::MappingStart(_, _) => 9,
        Event::MappingEnd => 10,
    }
}
