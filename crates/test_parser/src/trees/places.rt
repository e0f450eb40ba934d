//! Where nodes are in their text.

use crate::trees::loaded::{WIDE, load_with_spans};
use crate::trees::questions::{Asked, Question, expect_answers};
use saphyr_parser::{Marker, Span};
use std::alloc::{AllocError, Global};
use yaml_tree::{Node, TreeFault, Visit, Walk};

// Where the first alias of a tree is.
fn alias_of(alloc: Global, root: &Node, spans: &[Span]) -> Result<Option<Marker>, AllocError> {
    for visit in Walk::new(alloc, root, spans) {
        let visit = visit?;
        if visit.node.is_alias() {
            return Ok(Some(visit.span.start));
        }
    }
    Ok(None)
}

// Where the first alias of a text is.
fn first_alias(alloc: Global, text: &str) -> Result<Option<Marker>, TreeFault> {
    let loaded = load_with_spans(alloc, text, WIDE)?;
    for (document, spans) in loaded.documents.iter().zip(loaded.spans.iter()) {
        if let Some(place) = alias_of(alloc, &document.root, spans.nodes.as_slice())? {
            return Ok(Some(place));
        }
    }
    Ok(None)
}

// Whether it is at this place.
fn is_first_alias(alloc: Global, text: &str, place: Option<Marker>) -> bool {
    match first_alias(alloc, text) {
        Ok(found) => found == place,
        Err(fault) => {
            drop(fault);
            false
        }
    }
}

#[test]
fn nodes_by_their_places(rt: HostRuntime) {
    let place = Marker::new(21, 3, 10);
    assert!(rt; is_first_alias(rt.alloc(), "- &a x\n---\nk: [&a y, *a]\n", Some(place)));
    assert!(rt; is_first_alias(rt.alloc(), "a", None));
}

/// The depth of a node, and where its event starts and ends.
pub(crate) type Place = (usize, usize, usize);

fn is_visit_at(visit: Result<Visit<'_>, AllocError>, place: Option<&Place>) -> bool {
    let Ok(visit) = visit else {
        return false;
    };
    place == Some(&(visit.depth, visit.span.start.index, visit.span.end.index))
}

// Whether a walk through a tree visits nodes at these places.
pub(crate) fn makes_visits(alloc: Global, root: &Node, spans: &[Span], wanted: &[Place]) -> bool {
    let mut left = wanted.iter();
    for visit in Walk::new(alloc, root, spans) {
        if !is_visit_at(visit, left.next()) {
            return false;
        }
    }
    left.next().is_none()
}

const PLACES: &[Place] = &[
    (0, 0, 1),
    (1, 1, 2),
    (1, 4, 5),
    (2, 5, 6),
    (2, 8, 9),
    (1, 15, 16),
    (1, 20, 21),
];

const ASKED: &[Asked] = &[("{a: [b, {}], ? [] : c}", 0, Question::Visits(PLACES))];

#[test]
fn each_node_has_the_span_of_its_event(rt: HostRuntime) {
    expect_answers(&rt, rt.alloc(), ASKED);
}

// How deep the last node of a tree is. Where memory is lacking it is the last that is visited.
pub(crate) fn last_depth(alloc: Global, root: &Node, spans: &[Span]) -> usize {
    let mut depth = 0;
    for visit in Walk::new(alloc, root, spans) {
        if let Ok(visit) = visit {
            depth = visit.depth;
        }
    }
    depth
}
