//! What an event tells of itself, its node's anchor and tag, and whether something begins or ends, and equal copies.
use crate::helpers::expect;
use saphyr_parser::{Event, ScalarStyle, Tag};
use std::alloc::{AllocError, Global};
use std::borrow::CowStr;

// An event by its kind: a constant holds none.
#[derive(Clone, Copy)]
enum Kind {
    Nothing,
    StreamStart,
    StreamEnd,
    BareDocument,
    ExplicitDocument,
    DocumentEnd,
    Alias,
    Scalar,
    SequenceStart,
    SequenceEnd,
    MappingStart,
    MappingEnd,
}

// The handle and the suffix of a tag, where there is one.
type Parts<'a> = Option<(&'a str, &'a str)>;

// Of a kind of event, a number and a tag: what is told of it.
const TOLD: &[(Kind, usize, Parts, &str)] = &[
    (Kind::Nothing, 0, None, ""),
    (Kind::StreamStart, 0, None, "begins"),
    (Kind::StreamEnd, 0, None, "ends"),
    (Kind::BareDocument, 0, None, "begins"),
    (Kind::ExplicitDocument, 0, None, "begins"),
    (Kind::DocumentEnd, 0, None, "ends"),
    (Kind::Alias, 1, None, ""),
    (Kind::Scalar, 0, None, ""),
    (Kind::Scalar, 1, None, "&1"),
    (Kind::Scalar, 0, Some(("!", "x")), "!x"),
    (Kind::Scalar, 2, Some(("!", "x")), "&2!x"),
    (Kind::Scalar, 0, Some(("!", "foo")), "!foo"),
    (
        Kind::Scalar,
        0,
        Some(("tag:yaml.org,2002:", "str")),
        "tag:yaml.org,2002:str",
    ),
    (Kind::SequenceStart, 0, None, "begins"),
    (Kind::SequenceStart, 3, None, "begins&3"),
    (Kind::SequenceStart, 3, Some(("!", "seq")), "begins&3!seq"),
    (Kind::SequenceEnd, 0, None, "ends"),
    (Kind::MappingStart, 0, None, "begins"),
    (Kind::MappingStart, 0, Some(("!", "map")), "begins!map"),
    (Kind::MappingStart, 4, Some(("!", "")), "begins&4!"),
    (Kind::MappingEnd, 0, None, "ends"),
];

#[test]
fn shows_of_each_event(rt: HostRuntime) {
    for &(kind, id, parts, line) in TOLD {
        expect(&rt, is_shown(rt.alloc(), kind, id, parts, line), line);
    }
}

// Whether this is told of the event of a kind, which has an equal copy.
fn is_shown(alloc: Global, kind: Kind, id: usize, parts: Parts, line: &str) -> bool {
    match tag_of(alloc, parts) {
        Ok(tag) => shows(alloc, event_of(kind, id, tag), line),
        Err(_) => false,
    }
}

fn tag_of(alloc: Global, parts: Parts) -> Result<Option<Tag>, AllocError> {
    let Some((handle, suffix)) = parts else {
        return Ok(None);
    };
    let handle = String::from_str(alloc, handle)?;
    let suffix = String::from_str(alloc, suffix)?;
    Ok(Some(Tag { handle, suffix }))
}

fn event_of(kind: Kind, id: usize, tag: Option<Tag>) -> Event<'static> {
    match kind {
        Kind::Scalar => Event::Scalar(CowStr::Borrowed("x"), ScalarStyle::Plain, id, tag),
        Kind::SequenceStart => Event::SequenceStart(id, tag),
        Kind::MappingStart => Event::MappingStart(id, tag),
        _ => {
            drop(tag);
            event_without_tag(kind, id)
        }
    }
}

fn event_without_tag(kind: Kind, id: usize) -> Event<'static> {
    match kind {
        Kind::StreamStart => Event::StreamStart,
        Kind::StreamEnd => Event::StreamEnd,
        Kind::BareDocument => Event::DocumentStart(false),
        Kind::ExplicitDocument => Event::DocumentStart(true),
        Kind::DocumentEnd => Event::DocumentEnd,
        Kind::Alias => Event::Alias(id),
        Kind::SequenceEnd => Event::SequenceEnd,
        Kind::MappingEnd => Event::MappingEnd,
        _ => Event::Nothing,
    }
}

fn shows(alloc: Global, event: Event<'_>, line: &str) -> bool {
    let mut shown = String::new(alloc);
    push_shown(&mut shown, &event);
    let has_copies = is_copied(&event);
    drop(event);
    has_copies && shown.as_str() == line
}

// Whether an event and its tag have equal copies.
fn is_copied(event: &Event<'_>) -> bool {
    let is_tag_copied = match event.tag() {
        Some(tag) => is_made(tag.try_clone(), tag),
        None => true,
    };
    is_tag_copied && is_made(event.try_clone(), event)
}

// Whether a value was made, and is equal to this one.
fn is_made<V: PartialEq + Drop>(made: Result<V, AllocError>, like: &V) -> bool {
    match made {
        Ok(made) => made == *like,
        Err(_) => false,
    }
}

// Adds whether something begins or ends, the anchor's id after `&`, and the tag.
fn push_shown(shown: &mut String, event: &Event<'_>) {
    let _ = shown.push_str(if event.is_start() { "begins" } else { "" });
    let _ = shown.push_str(if event.is_end() { "ends" } else { "" });
    if let Some(id) = event.anchor_id() {
        let _ = write!(shown, "&{id}");
    }
    if let Some(tag) = event.tag() {
        let _ = shown.push_str(tag.handle.as_str());
        let _ = shown.push_str(tag.suffix.as_str());
    }
}
