//! Limits within which the documents of a case are loaded, as its lines tell.

use saphyr_parser::Marker;
use std::alloc::{AllocError, Global};
use yaml_tree::{Limits, TreeFault};

/// Limits that no text passes.
pub const WIDE: Limits = Limits {
    nodes: usize::MAX,
    depth: usize::MAX,
};

const NOTHING: Limits = Limits { nodes: 0, depth: 0 };

/// The fault that is to come in place of documents.
#[derive(Clone, Copy)]
pub enum Wanted<'a> {
    /// More nodes come than this many, with the event of this line.
    TooManyNodes(&'a str, usize),
    /// More collections are open than this many, with the event of this line.
    TooDeep(&'a str, usize),
    /// The parser has handed out events.
    NotFresh,
}

impl Wanted<'_> {
    pub fn name(self) -> &'static str {
        match self {
            Wanted::TooManyNodes(..) => "too many nodes",
            Wanted::TooDeep(..) => "too many open collections",
            Wanted::NotFresh => "a parser that is not new",
        }
    }

    /// Whether a fault is the one that is wanted.
    pub fn is(self, alloc: Global, fault: &TreeFault) -> Result<bool, AllocError> {
        match (fault, self) {
            (TreeFault::TooManyNodes(mark, most), Wanted::TooManyNodes(line, limit))
            | (TreeFault::TooDeep(mark, most), Wanted::TooDeep(line, limit)) => {
                Ok(*most == limit && starts_at(alloc, line, *mark)?)
            }
            (TreeFault::NotFresh, Wanted::NotFresh) => Ok(true),
            _ => Ok(false),
        }
    }
}

// The event of a line starts at this place.
fn starts_at(alloc: Global, line: &str, mark: Marker) -> Result<bool, AllocError> {
    let Marker {
        index,
        line: number,
        col,
    } = mark;
    let start = format!(in alloc; "{index},{number},{col} ")?;
    let (_, place) = line.rsplit_once(" @ ").unwrap_or(("", line));
    Ok(place.starts_with(start.as_str()))
}

/// The least limits within which the documents are loaded.
pub fn needed(lines: &[String]) -> Limits {
    let mut needed = NOTHING;
    let mut count = NOTHING;
    for line in lines {
        count = count_line(count, line.as_str());
        needed.nodes = count.nodes;
        needed.depth = needed.depth.max(count.depth);
    }
    needed
}

/// The fault at the first event that passes a limit, and how many lines have come with it.
pub fn first_beyond(lines: &[String], limits: Limits) -> Option<(usize, Wanted<'_>)> {
    let mut count = NOTHING;
    for (place, line) in lines.iter().enumerate() {
        let line = line.as_str();
        count = count_line(count, line);
        if count.nodes > limits.nodes {
            return Some((place + 1, Wanted::TooManyNodes(line, limits.nodes)));
        }
        if count.depth > limits.depth {
            return Some((place + 1, Wanted::TooDeep(line, limits.depth)));
        }
    }
    None
}

// The nodes that have come with the event of a line, and the collections that are open.
fn count_line(count: Limits, line: &str) -> Limits {
    let Limits { nodes, depth } = count;
    if line.starts_with("> =") {
        Limits {
            nodes: nodes.saturating_add(1),
            depth,
        }
    } else if begins_collection(line) {
        Limits {
            nodes: nodes.saturating_add(1),
            depth: depth.saturating_add(1),
        }
    } else if ends_collection(line) {
        Limits {
            nodes,
            depth: depth.saturating_sub(1),
        }
    } else {
        count
    }
}

fn begins_collection(line: &str) -> bool {
    line.starts_with("> +SEQ") || line.starts_with("> +MAP")
}

fn ends_collection(line: &str) -> bool {
    line.starts_with("> -SEQ") || line.starts_with("> -MAP")
}
