//! What a parser and a loader of trees give if a request for memory is refused.
//!
//! The events of a case are taken in each way that there is, and its documents are loaded. They are all that the
//! case lists. Or, if a request for memory was refused, they are a beginning of it, then out of memory, and what
//! has to come after that. The program itself refuses no request: `tests/refused_memory.py` has each be refused
//! in turn.

mod clones;
mod ended;
mod loading;
pub mod outcome;
mod parts;
mod trees;
mod walks;
mod ways;

use crate::inputs::parser_of;
use outcome::Outcome;
use saphyr_parser::{CloneInput, Parser};
use std::alloc::{AllocError, Global};
use test_events::{Case, Difference, printed};

/// A way to take events, or to have something else made that takes memory.
#[derive(Clone, Copy)]
pub enum Way {
    NextEvent,
    Peek,
    LoadAll,
    LoadEach,
    TryClone,
    Copies,
    Dump,
    NewFromIter,
    NewStr,
    LoadDocuments,
    LoadEachDocument,
    WalkTrees,
}

/// The ways, by the names that are printed.
pub const WAYS: &[(&str, Way)] = &[
    ("NextEvent", Way::NextEvent),
    ("Peek", Way::Peek),
    ("LoadAll", Way::LoadAll),
    ("LoadEach", Way::LoadEach),
    ("TryClone", Way::TryClone),
    ("Copies", Way::Copies),
    ("Dump", Way::Dump),
    ("NewFromIter", Way::NewFromIter),
    ("NewStr", Way::NewStr),
    ("LoadDocuments", Way::LoadDocuments),
    ("LoadEachDocument", Way::LoadEachDocument),
    ("WalkTrees", Way::WalkTrees),
];

/// Takes a case in each way. No request for memory is refused here, so all is as the case lists it.
pub fn compare(alloc: Global, case: &Case) -> Result<(), Difference> {
    let text = printed(alloc, case.lines.as_slice())?;
    are_whole(alloc, case, text.as_str())
}

fn are_whole(alloc: Global, case: &Case, text: &str) -> Result<(), Difference> {
    for &(name, way) in WAYS {
        let taken = is_whole(alloc, case, text, way);
        Difference::found_in(alloc, name, taken)?;
    }
    Ok(())
}

fn is_whole(alloc: Global, case: &Case, text: &str, way: Way) -> Result<(), Difference> {
    match take(alloc, case, text, way)? {
        Outcome::Whole => Ok(()),
        Outcome::Refused => Err(Difference::OutOfMemory(AllocError)),
    }
}

/// Takes a case in one way. The text is what `dump` is to write.
pub fn take(alloc: Global, case: &Case, text: &str, way: Way) -> Result<Outcome, Difference> {
    take_by(alloc, &mut parser_of(alloc, case), case, text, way)
}

// Generic, so that what an input promises is proved once and not for each way.
fn take_by<T: CloneInput>(
    alloc: Global,
    parser: &mut Parser<'_, T>,
    case: &Case,
    text: &str,
    way: Way,
) -> Result<Outcome, Difference> {
    let lines = case.lines.as_slice();
    match way {
        Way::NextEvent => ways::by_next_event(alloc, parser, lines),
        Way::Peek => ways::by_peek(alloc, parser, lines),
        Way::LoadAll => loading::by_load(alloc, parser, lines, true),
        Way::LoadEach => loading::by_load(alloc, parser, lines, false),
        Way::TryClone => clones::by_clones(alloc, parser, lines),
        Way::Copies => clones::by_copies(alloc, parser, lines),
        Way::Dump => parts::by_dump(alloc, parser, lines, text),
        Way::NewFromIter => parts::by_iterator(alloc, case),
        Way::NewStr => parts::by_error(alloc, case.name.as_str()),
        Way::LoadDocuments => trees::by_load_documents(alloc, parser, lines, false),
        Way::LoadEachDocument => trees::by_load_documents(alloc, parser, lines, true),
        Way::WalkTrees => walks::by_walks(alloc, parser, lines),
    }
}
