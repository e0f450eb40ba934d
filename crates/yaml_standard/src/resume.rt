//! All that a text breaks. Where it can't be read on, it is read on from the next entry of a block collection that is
//! open there, or from the next document. Nothing is promised of this: it names what a reader would see.
ghost use Rattle.std.specs.Prelude.{◌≤◌, length, IfOk};

use crate::block_lines::split_spaces;
use crate::broken::broken_rule;
use crate::front::{is_document_marker, split, strip};
use crate::goal::{Goal, Kind};
use crate::hint::{Guide, HintKind};
use crate::lines::is_mark;
use crate::place::Here;
use crate::rule::Rule;
use crate::spaces::behind_separation;
use crate::stream::{next_place, read_documents, read_stream};
use crate::walk::{Stuck, close};
use std::alloc::{AllocError, Global};
use std::mem;

/// How many block collections are open.
fn count_collections(goals: &[Goal<'_>]) -> usize {
    let mut count = 0usize;
    for i in 0..goals.len() {
        if matches!(goals[i], Goal::BlockEntries(..)) {
            count = count.saturating_add(1);
        }
    }
    count
}

/// Takes goals off, of which so many are block collections, until one of a collection that is so deep comes last. How
/// many collections are left is told.
fn leave(goals: &mut Vec<Goal<'_>>, open: usize, depth: usize) -> usize {
    let mut left = open;
    for _ in 0..goals.len() {
        match goals.last().copied() {
            Some(Goal::BlockEntries(..)) if left <= depth => break,
            Some(Goal::BlockEntries(..)) => left = left.saturating_sub(1),
            _ => (),
        }
        goals.pop();
    }
    left
}

/// Whether a line begins a further entry of the block collection at this column.
fn begins_entry(kind: Kind, column: usize, line: &str) -> bool {
    let (spaces, entry) = split_spaces(line, column);
    if spaces < column {
        return false;
    }
    match kind {
        Kind::Sequence => is_mark(entry, '-'),
        Kind::Mapping if is_mark(entry, '-') || is_mark(entry, ':') => false,
        Kind::Mapping => !matches!(split(entry), None | Some((' ' | '\t' | '\n' | '#', _))),
    }
}

/// Whether a line begins a document, or an entry of the collection that this goal is of. Of that no more comes where
/// the parser has passed so many characters.
fn begins_here(goal: Option<Goal<'_>>, hint: HintKind, line: Here<'_>, passed: usize) -> bool {
    match goal {
        Some(Goal::BlockEntries(kind, column)) => {
            line.passed.saturating_add(column) >= passed && begins_entry(kind, column, line.rest)
        }
        _ if matches!(hint, HintKind::Document) => {
            is_document_marker(strip(line.rest, '\u{feff}').unwrap_or(line.rest))
        }
        _ => false,
    }
}

/// The last line up to that of the next event which begins an entry or a document: an entry may begin on a line before
/// that of its node. No line is looked at twice, so that time is linear.
fn last_begin<'a>(
    goal: Option<Goal<'_>>,
    guide: &Guide<'_>,
    line: &mut Here<'a>,
    passed: usize,
) -> Option<Here<'a>> {
    let start = guide.start();
    let index = start.index.saturating_sub(start.col);
    let mut found = None;
    for _ in 0..usize::MAX {
        if line.passed > index || line.rest.is_empty() {
            break;
        }
        if begins_here(goal, guide.hint().kind, *line, passed) {
            found = Some(*line);
        }
        *line = line.behind_line();
    }
    found
}

/// Whether the next event begins behind what comes first where the text can't be read on.
pub(crate) fn is_told(here: Here<'_>, stuck: Stuck<'_>, guide: &Guide<'_>) -> bool {
    let token = behind_separation(stuck.text, 0);
    guide.start().index > here.before(token).passed
}

/// Reads a text on, where these goals are open. The next place where it can't be read on is told.
fn read_on<'a>(
    alloc: Global,
    mut goals: Vec<Goal<'a>>,
    text: &'a str,
    guide: &mut Guide<'a>,
) -> Result<Option<Stuck<'a>>, AllocError> {
    let mut rest = text;
    for _ in 0..goals.len() {
        let Some(goal) = goals.pop() else {
            break;
        };
        match close(alloc, goal, rest, guide)? {
            Ok(behind) => rest = behind,
            Err(stuck) => {
                goals.extend_from_slice(&guide.open)?;
                guide.open = goals;
                return Ok(Some(stuck));
            }
        }
    }
    drop(goals);
    let (document, is_free) = next_place(rest);
    read_documents(alloc, document, is_free, guide)
}

/// Goes on to the next line that begins an entry or a document, and reads on from there.
fn resume<'a>(
    alloc: Global,
    here: &mut Here<'a>,
    guide: &mut Guide<'a>,
) -> Result<Option<Stuck<'a>>, AllocError> {
    let mut goals = mem::replace(&mut guide.open, Vec::new(alloc));
    let mut open = count_collections(&goals);
    let mut line = here.behind_line();
    let mut passed = 0usize;
    for _ in 0..usize::MAX {
        let hint = guide.hint();
        if matches!(hint.kind, HintKind::Fault) {
            break;
        }
        open = leave(&mut goals, open, guide.depth);
        if open == guide.depth && hint.is_at_text() {
            if let Some(begin) = last_begin(goals.last().copied(), guide, &mut line, passed) {
                guide.leave_out(here.rest, begin.rest)?;
                *here = begin;
                return read_on(alloc, goals, begin.rest, guide);
            }
        }
        // What is left out has the place of a mark, which may begin the next entry.
        let end = if hint.is_at_text() {
            guide.end()
        } else {
            guide.start()
        };
        passed = passed.max(end.index);
        guide.pass();
    }
    drop(goals);
    guide.leave_out(here.rest, "")?;
    Ok(None)
}

/// Adds the characters that aren't printable, but no more than `most`.
fn push_unprintable(
    found: &mut Vec<(Rule, usize)>,
    text: &str,
    guide: &Guide<'_>,
    most: usize,
) -> Result<(), AllocError> {
    let mut here = Here::new(text);
    let mut next = 0usize;
    for _ in 0..most {
        let Some(rest) = guide.next_unprintable(here.rest, &mut next) else {
            break;
        };
        here = here.before(rest);
        found.push((Rule::UnprintableCharacter, here.passed))?;
        here = here.behind(here.passed.saturating_add(1));
    }
    Ok(())
}

/// The rules that a text breaks and the parser reads all the same, in the order of their places: the first `most`, each
/// with the number of characters before it.
pub(crate) fn broken_rules(
    alloc: Global,
    text: &str,
    most: usize,
) -> Result<Vec<(Rule, usize)>, AllocError>
    ensures { IfOk result (λ found. length found.items ≤ most) }
{
    let mut guide = Guide::new(alloc, text);
    let mut found = Vec::new(alloc);
    let mut here = Here::new(text);
    let mut next = read_stream(alloc, text, &mut guide)?;
    for _ in 0..most {
        let Some(stuck) = next else {
            break;
        };
        let (rule, rest) = broken_rule(here.rest, stuck, is_told(here, stuck, &guide));
        found.push((rule, here.before(rest).passed))?;
        here = here.before(stuck.text);
        next = resume(alloc, &mut here, &mut guide)?;
    }
    if let Some(stuck) = next {
        guide.leave_out(stuck.text, "")?;
    }
    push_unprintable(&mut found, text, &guide, most)?;
    let ran_out = guide.ran_out();
    drop(guide);
    if ran_out {
        drop(found);
        return Err(AllocError);
    }
    found.sort_by_cached_key(|(_, count)| *count)?;
    found.truncate(most);
    Ok(found)
}
