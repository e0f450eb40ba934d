//! The events of documents, in the order in which a text has them (YAML 1.2.2, 3.1.1).

use saphyr_parser::{Event, ScalarStyle, Tag};
use std::alloc::{AllocError, Global};
use std::borrow::CowStr;
use yaml_tree::{Document, Node};

/// The events of all documents of a stream. It takes as much stack as the deepest tree is deep.
pub fn events_of<'a>(
    alloc: Global,
    documents: &'a [Document],
) -> Result<Vec<Event<'a>>, AllocError> {
    let mut events = Vec::new(alloc);
    push(&mut events, Event::StreamStart)?;
    for document in documents {
        push_document(&mut events, document)?;
    }
    push(&mut events, Event::StreamEnd)?;
    Ok(events)
}

fn push_document<'a>(
    events: &mut Vec<Event<'a>>,
    document: &'a Document,
) -> Result<(), AllocError> {
    push(events, Event::DocumentStart(document.explicit))?;
    push_node(events, &document.root)?;
    push(events, Event::DocumentEnd)
}

#[cycle(pushing)]
fn push_node<'a>(events: &mut Vec<Event<'a>>, node: &'a Node) -> Result<(), AllocError> {
    match node {
        Node::Alias(id) => push(events, Event::Alias(*id)),
        Node::Scalar(text, style, id, tag) => push_scalar(events, text, *style, *id, tag),
        Node::Seq(id, tag, nodes) => push_sequence(events, *id, tag, nodes),
        Node::Map(id, tag, pairs) => push_mapping(events, *id, tag, pairs),
    }
}

#[cycle(pushing)]
fn push_sequence<'a>(
    events: &mut Vec<Event<'a>>,
    id: usize,
    tag: &Option<Tag>,
    nodes: &'a Vec<Node>,
) -> Result<(), AllocError> {
    push(events, Event::SequenceStart(id, copy_tag(tag)?))?;
    for node in nodes {
        push_node(events, node)?;
    }
    push(events, Event::SequenceEnd)
}

#[cycle(pushing)]
fn push_mapping<'a>(
    events: &mut Vec<Event<'a>>,
    id: usize,
    tag: &Option<Tag>,
    pairs: &'a Vec<(Node, Node)>,
) -> Result<(), AllocError> {
    push(events, Event::MappingStart(id, copy_tag(tag)?))?;
    for (key, value) in pairs {
        push_node(events, key)?;
        push_node(events, value)?;
    }
    push(events, Event::MappingEnd)
}

fn push_scalar<'a>(
    events: &mut Vec<Event<'a>>,
    text: &'a String,
    style: ScalarStyle,
    id: usize,
    tag: &Option<Tag>,
) -> Result<(), AllocError> {
    let text = CowStr::Borrowed(text.as_str());
    push(events, Event::Scalar(text, style, id, copy_tag(tag)?))
}

// Where there is no memory the event is let go, here and nowhere else.
fn push<'a>(events: &mut Vec<Event<'a>>, event: Event<'a>) -> Result<(), AllocError> {
    events.push(event)?;
    Ok(())
}

fn copy_tag(tag: &Option<Tag>) -> Result<Option<Tag>, AllocError> {
    match tag {
        Some(tag) => Ok(Some(tag.try_clone()?)),
        None => Ok(None),
    }
}
