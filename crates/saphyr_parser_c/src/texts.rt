//! The addresses of the texts of an event: those that the parser lends, and those that are kept for C.

ghost use Rattle.std.specs.Prelude.{◌≡◌, Some, None, option_map};
ghost use Rattle.std.specs.Cow.{cow_str_bytes};
ghost use Rattle.std.specs.Ptr.{as_ptr};
ghost use Rattle.std.specs.String.{string_vec};
ghost use Rattle.saphyr_parser.specs.Views.Events.{happening, resolved_tag};
ghost use Rattle.saphyr_parser_c.specs.Shown as spec;

use crate::shown::{CEvent, CText};
use saphyr_parser::{Event, Tag};
use std::alloc::Global;
use std::borrow::CowStr;
use std::mem;

// The address of the first byte. The contract gives no right to read it.
fn address(bytes: &[u8]) -> *const u8
    ensures { result ≡ as_ptr bytes.entry }
{
    bytes.as_ptr()
}

/// The address and the length of a text.
pub fn lent(text: &str) -> CText
    ensures { spec.HasText (Some text.now) result }
{
    lent_bytes(text.as_bytes())
}

/// The same of its bytes.
pub fn lent_bytes(text: &[u8]) -> CText
    ensures { spec.HasText (Some text.now) result }
{
    CText {
        at: address(text),
        len: text.len(),
    }
}

/// Writes whether there is a tag, and the addresses and lengths of its texts, where `out` has none.
pub fn lend_tag(tag: &Option<Tag>, out: &mut CEvent)
    ensures same { spec.IsSameButTag out.old out.new }
    ensures tag { spec.HasTag None out.old
        → spec.HasTag (option_map resolved_tag tag.now) out.new }
{
    if let Some(tag) = tag {
        out.has_tag = 1;
        out.tag_handle = lent(tag.handle.as_str());
        out.tag_suffix = lent(tag.suffix.as_str());
    }
}

/// The address and the number of the bytes of a text that is kept. For this they are taken out and put back.
pub fn kept(alloc: Global, text: &mut String) -> CText
    ensures stands { spec.BytesStand (string_vec text.new) result }
    ensures same { string_vec text.new ≡ string_vec text.old }
{
    let len = text.as_str().len();
    let bytes = mem::replace(text, String::new(alloc)).into_bytes();
    let at = bytes.as_ptr();
    *text = unsafe { String::from_utf8_unchecked(bytes) };
    CText { at, len }
}

// A text that may be borrowed, as C sees it.
fn kept_any(alloc: Global, text: &mut CowStr<'static>) -> CText
    ensures stands { spec.TextStands text.new result }
    ensures same { cow_str_bytes text.new ≡ cow_str_bytes text.old }
{
    match text {
        CowStr::Borrowed(text) => lent(text),
        CowStr::Owned(text) => kept(alloc, text),
    }
}

// Writes that there is a tag, and the addresses and lengths of its texts.
fn keep_tag(alloc: Global, tag: &mut Option<Tag>, out: &mut CEvent)
    ensures same { spec.IsSameButTag out.old out.new }
    ensures kept { option_map resolved_tag tag.new ≡ option_map resolved_tag tag.old }
    ensures writes { spec.HasTag None out.old → spec.WritesTag tag.new out.new }
{
    if let Some(tag) = tag {
        out.has_tag = 1;
        out.tag_handle = kept(alloc, &mut tag.handle);
        out.tag_suffix = kept(alloc, &mut tag.suffix);
    }
}

/// Writes the address and the length of the text of a scalar.
pub fn keep_value(alloc: Global, event: &mut Event<'static>, out: &mut CEvent)
    ensures same { spec.IsSameButValue out.old out.new }
    ensures tag { spec.tag_in event.new ≡ spec.tag_in event.old }
    ensures kept { happening event.new ≡ happening event.old }
    ensures stands { spec.HasText None out.old.value → spec.ValueStands event.new out.new }
{
    if let Event::Scalar(value, _, _, _) = event {
        out.value = kept_any(alloc, value);
    }
}

/// Writes that a node has a tag, and the addresses and lengths of the tag's texts.
pub fn keep_tag_of(alloc: Global, event: &mut Event<'static>, out: &mut CEvent)
    ensures same { spec.IsSameButTag out.old out.new }
    ensures value { spec.value_of event.new ≡ spec.value_of event.old }
    ensures kept { happening event.new ≡ happening event.old }
    ensures writes { spec.HasTag None out.old → spec.WritesTag (spec.tag_in event.new) out.new }
{
    match event {
        Event::Scalar(_, _, _, tag) => keep_tag(alloc, tag, out),
        Event::SequenceStart(_, tag) => keep_tag(alloc, tag, out),
        Event::MappingStart(_, tag) => keep_tag(alloc, tag, out),
        Event::Nothing
        | Event::StreamStart
        | Event::StreamEnd
        | Event::DocumentStart(_)
        | Event::DocumentEnd
        | Event::Alias(_)
        | Event::SequenceEnd
        | Event::MappingEnd => {}
    }
}
