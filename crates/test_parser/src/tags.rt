//! Tags, and copies of events that have one, by themselves.

use crate::helpers::{is_text, owned};
use saphyr_parser::{Event, Tag};
use std::alloc::Global;

fn resolved_tag(alloc: Global, (handle, suffix): (&str, &str)) -> Tag {
    Tag {
        handle: owned(alloc, handle),
        suffix: owned(alloc, suffix),
    }
}

// Whether a tag prints so, and is of the core schema or isn't.
fn is_tag(alloc: Global, tag: (&str, &str), text: &str, is_core: bool) -> bool {
    let tag = resolved_tag(alloc, tag);
    let is_core_too = tag.is_yaml_core_schema();
    let printed = tag.to_string(alloc);
    drop(tag);
    is_text(printed, text) && is_core_too == is_core
}

fn is_less(alloc: Global, tag: (&str, &str), other: (&str, &str)) -> bool {
    let tag = resolved_tag(alloc, tag);
    let other = resolved_tag(alloc, other);
    let is_less = tag < other;
    drop(tag);
    drop(other);
    is_less
}

const LOCAL: (&str, &str) = ("!", "foo");

const CORE: (&str, &str) = ("tag:yaml.org,2002:", "str");

#[test]
fn prints_tags(rt: HostRuntime) {
    let alloc = rt.alloc();
    assert!(rt; is_tag(alloc, LOCAL, "!foo", false));
    assert!(rt; is_tag(alloc, CORE, "tag:yaml.org,2002:!str", true));
    assert!(rt; is_less(alloc, LOCAL, CORE));
}

fn tagged_event_has_copy(alloc: Global) -> bool {
    let event = Event::SequenceStart(1, Some(resolved_tag(alloc, CORE)));
    let has_copy = match event.try_clone() {
        Ok(copy) => {
            let is_same = copy == event;
            drop(copy);
            is_same
        }
        Err(_) => false,
    };
    drop(event);
    has_copy
}

#[test]
fn events_have_copies(rt: HostRuntime) {
    assert!(rt; tagged_event_has_copy(rt.alloc()));
}
