//! The bracket that is open where a fault comes.
ghost use Rattle.std.specs.Prelude.{◌≡◌, ◌<◌, ◌≤◌, length, IfSome};
ghost use Rattle.yaml_check.specs.Opened as spec;
ghost use Rattle.yaml_check.specs.OpenSeen.{open_of};

use crate::note::{Note, Remark};
use crate::open::{Open, Shape, Start};
use crate::places::{is_space_or_tab, place_of_index};
use crate::view::is_end_of_line;
use saphyr_parser::Marker;

/// Tells of the innermost bracket that is open at a place, by the events before it and the text behind these.
pub(crate) fn opened_note(text: &[char], collections: &Open, place: Marker) -> Option<Note>
    ensures { result ≡ spec.opened_note text.now (open_of collections.now) place }
{
    let end = place.index.min(text.len());
    let start = collections.behind().index.min(end);
    let known = collections.bracket(text);
    match hidden_bracket(text, known, start, end) {
        Some(at) => Some(bracket_note(text, at)),
        None => known.map(start_note),
    }
}

/// The innermost open bracket in a part of the text whose events haven't come.
fn hidden_bracket(text: &[char], known: Option<Start>, start: usize, end: usize) -> Option<usize>
    requires within { end ≤ length text.now }
    requires ordered { start ≤ end }
    ensures within { IfSome result (λ at. at < length text.now) }
    ensures last { result ≡ spec.hidden_bracket text.now known start end }
{
    if known.is_none() && !opens_bracket(&text[start..end]) {
        return None;
    }
    unclosed(text, start, end)
}

/// Whether the first character that matters opens a bracket: outside brackets others don't.
fn opens_bracket(part: &[char]) -> bool
    ensures { result ≡ spec.opens_bracket part.now }
{
    for c in part {
        if !is_passed(*c) {
            return is_left_bracket(*c);
        }
    }
    false
}

fn is_passed(c: char) -> bool
    ensures { result ≡ spec.is_passed c }
{
    is_space_or_tab(c) || is_end_of_line(c) || c == '-' || c == '?'
}

pub(crate) fn is_left_bracket(c: char) -> bool
    ensures { result ≡ spec.is_left_bracket c }
{
    c == '[' || c == '{'
}

pub(crate) fn is_right_bracket(c: char) -> bool
    ensures { result ≡ spec.is_right_bracket c }
{
    c == ']' || c == '}'
}

/// The last bracket in a part of the text that no later one closes.
fn unclosed(text: &[char], start: usize, end: usize) -> Option<usize>
    requires { end ≤ length text.now }
    ensures within { IfSome result (λ at. at < length text.now) }
    ensures last { result ≡ spec.unclosed text.now start end 0 }
{
    let mut at = end;
    let mut closed = 0usize;
    while at > start {
        at -= 1;
        let c = text[at];
        if is_right_bracket(c) {
            closed += 1;
        } else if is_left_bracket(c) {
            if closed == 0 {
                return Some(at);
            }
            closed -= 1;
        }
    }
    None
}

/// Tells that the bracket at an index is open.
fn bracket_note(text: &[char], at: usize) -> Note
    requires { at < length text.now }
    ensures { result ≡ spec.bracket_note text.now at }
{
    let shape = if text[at] == '[' {
        Shape::Sequence
    } else {
        Shape::Mapping
    };
    Note {
        place: place_of_index(text, at),
        remark: open_remark(shape),
    }
}

/// Tells that a collection is open.
fn start_note(start: Start) -> Note
    ensures { result ≡ spec.start_note start }
{
    Note {
        place: start.span.start,
        remark: open_remark(start.shape),
    }
}

fn open_remark(shape: Shape) -> Remark
    ensures { result ≡ spec.open_remark shape }
{
    match shape {
        Shape::Sequence => Remark::SequenceOpen,
        Shape::Mapping => Remark::MappingOpen,
    }
}

/// The bracket that closes the one that is open before a part of the text.
pub(crate) fn closer(part: &[char]) -> Option<char>
    ensures { result ≡ spec.closer part.now 0 }
{
    let mut inside = 0usize;
    for at in 0..part.len() {
        let c = part[at];
        if is_left_bracket(c) {
            inside += 1;
        } else if is_right_bracket(c) {
            if inside == 0 {
                return Some(c);
            }
            inside -= 1;
        }
    }
    None
}

/// Whether the bracket that a note tells of is closed by one of its kind.
pub(crate) fn is_closed_by(note: Note, closer: Option<char>) -> bool
    ensures { result ≡ spec.is_closed_by note closer }
{
    match (note.remark, closer) {
        (Remark::SequenceOpen, Some(c)) => c == ']',
        (Remark::MappingOpen, Some(c)) => c == '}',
        _ => false,
    }
}
