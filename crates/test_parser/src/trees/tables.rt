//! Nodes by numbers: what the table of all documents of a text tells, and that of each document alone.

use crate::trees::loaded::WIDE;
use saphyr_parser::Parser;
use std::alloc::Global;
use yaml_tree::{Content, NodeTable, Step, load_next_table, load_table};

// A text, the index of a document, and steps from its root.
type Place = (&'static str, usize, &'static [Step]);

// Of the node there: the text of a scalar, how many parts it has, and the first and the last index of its place.
type Told = (Option<&'static [u8]>, usize, usize, usize);

// The number of the node at the end of steps from a document's root.
fn number_at(table: &NodeTable, index: usize, path: &[Step]) -> Option<usize> {
    let mut number = table.root(index)?.number;
    for step in path {
        number = table.part(number, *step)?;
    }
    Some(number)
}

// The text of a scalar.
fn text_of<'a>(table: &'a NodeTable, content: &Content) -> Option<&'a [u8]> {
    match content {
        Content::Scalar(_, row, _) => Some(table.text(*row)),
        _ => None,
    }
}

// What a table tells of a node.
fn is_told(table: &NodeTable, number: usize, (text, count, start, end): Told) -> bool {
    let Some(entry) = table.entry(number) else {
        return false;
    };
    text_of(table, &entry.content) == text
        && table.count(number) == count
        && entry.start.marker().index() == start
        && entry.end.marker().index() == end
}

// Whether a table tells this of the node at the end of steps, or there is none.
fn tells(table: &NodeTable, index: usize, path: &[Step], wanted: Option<Told>) -> bool {
    match (number_at(table, index, path), wanted) {
        (Some(number), Some(told)) => is_told(table, number, told),
        (None, None) => true,
        _ => false,
    }
}

// Whether the table of all documents tells this.
fn is_in_all(alloc: Global, (text, index, path): Place, wanted: Option<Told>) -> bool {
    match load_table(alloc, &mut Parser::new_from_str(alloc, text), WIDE) {
        Ok(table) => {
            let is_so = tells(&table, index, path, wanted);
            drop(table);
            is_so
        }
        Err(fault) => {
            drop(fault);
            false
        }
    }
}

// Whether the table of that document alone tells this, behind those of the documents before it.
fn is_in_own(alloc: Global, (text, index, path): Place, wanted: Option<Told>) -> bool {
    let mut parser = Parser::new_from_str(alloc, text);
    for _ in 0..index {
        drop(load_next_table(alloc, &mut parser, WIDE));
    }
    match load_next_table(alloc, &mut parser, WIDE) {
        Ok(Some(table)) => {
            let is_so = tells(&table, 0, path, wanted);
            drop(table);
            is_so
        }
        Ok(None) => wanted.is_none(),
        Err(fault) => {
            drop(fault);
            false
        }
    }
}

const JSON: &str = "{\"a\":[1,true]}";

const TWO: &str = "--- |\na\n---\nb\n";

const ROWS: &[(Place, Option<Told>)] = &[
    ((JSON, 0, &[]), Some((None, 1, 0, 14))),
    ((JSON, 0, &[Step::Key(0)]), Some((Some(b"a"), 0, 1, 4))),
    ((JSON, 0, &[Step::Value(0)]), Some((None, 2, 5, 13))),
    (
        (JSON, 0, &[Step::Value(0), Step::Index(1)]),
        Some((Some(b"true"), 0, 8, 12)),
    ),
    ((JSON, 0, &[Step::Value(0), Step::Index(2)]), None),
    ((JSON, 0, &[Step::Value(1)]), None),
    ((JSON, 1, &[]), None),
    ((TWO, 0, &[]), Some((Some(b"a\n"), 0, 6, 8))),
    ((TWO, 1, &[]), Some((Some(b"b"), 0, 12, 13))),
    ((TWO, 1, &[Step::Index(0)]), None),
    ((TWO, 2, &[]), None),
];

#[test]
fn what_tables_tell(rt: HostRuntime) {
    for &(place, wanted) in ROWS {
        assert!(rt; is_in_all(rt.alloc(), place, wanted), "{place:?}");
        assert!(rt; is_in_own(rt.alloc(), place, wanted), "{place:?}");
    }
}
