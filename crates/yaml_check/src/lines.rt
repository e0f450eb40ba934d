//! What is on the line of a fault, and on the lines before.
ghost use Rattle.std.specs.Prelude.{◌≡◌, ◌<◌, ◌≤◌, length, IfSome, IsTrue};
ghost use Rattle.yaml_check.specs.Helps as spec;

use crate::places::{begins_line, is_space_or_tab, line_start};
use crate::view::is_end_of_line;

/// The marker of a version control system's conflict, if it begins the line of a place or the one before.
pub(crate) fn conflict_marker(text: &[char], end: usize) -> Option<usize>
    requires { end ≤ length text.now }
    ensures { IfSome result (spec.IsConflictBefore text.now end) }
{
    let here = line_start(text, end);
    if is_conflict_marker(text, here) {
        return Some(here);
    }
    let before = line_before(text, end)?;
    if is_conflict_marker(text, before) {
        Some(before)
    } else {
        None
    }
}

/// Whether the marker of a conflict begins at an index.
fn is_conflict_marker(text: &[char], at: usize) -> bool
    requires { at ≤ length text.now }
    ensures { IsTrue result → spec.IsConflictMarker text.now at }
{
    begins_line(text, at) && is_marker_line(&text[at..])
}

/// Whether a line begins with seven of the same of some characters.
fn is_marker_line(line: &[char]) -> bool
    ensures { IsTrue result → spec.IsMarkerLine line.now }
{
    if line.len() < 7 || !is_marker_character(line[0]) {
        return false;
    }
    for at in 0..7 {
        if line[at] != line[0] {
            return false;
        }
    }
    true
}

fn is_marker_character(c: char) -> bool
    ensures { result ≡ spec.is_marker_character c }
{
    c == '<' || c == '=' || c == '>'
}

/// Where the last line before that of a place begins which has more than blanks and a comment.
pub(crate) fn line_before(text: &[char], end: usize) -> Option<usize>
    requires { end ≤ length text.now }
    ensures before { IfSome result (λ at. at < end) }
    ensures begins { IfSome result (spec.BeginsContent text.now end) }
{
    let mut end = line_start(text, end);
    while end > 0 {
        let last = end - 1;
        let start = line_start(text, last);
        if let Some(at) = content(text, start, end) {
            return Some(at);
        }
        end = start;
    }
    None
}

/// Where the first line behind that of a place begins which has more than blanks and a comment.
pub(crate) fn line_behind(text: &[char], place: usize) -> Option<usize>
    requires { place < length text.now }
    ensures within { IfSome result (λ at. at < length text.now) }
    ensures behind { IfSome result (λ at. place < at) }
{
    let mut end = line_end(text, place);
    while end < text.len() {
        let start = end + 1;
        end = line_end(text, start);
        if let Some(at) = content(text, start, end) {
            return Some(at);
        }
    }
    None
}

/// Where the content of a line begins, if it has more than blanks and a comment.
pub(crate) fn content(text: &[char], start: usize, end: usize) -> Option<usize>
    requires { end ≤ length text.now }
    ensures { IfSome result (spec.IsLineContent text.now start end) }
{
    for at in start..end {
        let c = text[at];
        if !is_space_or_tab(c) {
            return if is_end_of_line(c) || c == '#' {
                None
            } else {
                Some(at)
            };
        }
    }
    None
}

/// The line before that of a place, or one further up of which it may be the rest: a line without a key goes up to the
/// leftmost of the lines without one above it.
pub(crate) fn text_line(text: &[char], end: usize) -> Option<usize>
    requires { end ≤ length text.now }
    ensures before { IfSome result (λ at. at < end) }
    ensures begins { IfSome result (spec.BeginsContent text.now end) }
{
    let mut found = line_before(text, end)?;
    let mut at = found;
    while !has_key(text, at) {
        if column(text, at) < column(text, found) {
            found = at;
        }
        let Some(above) = line_before(text, at) else {
            break;
        };
        at = above;
    }
    Some(found)
}

/// The last line above that of a place which is not further right.
pub(crate) fn line_above(text: &[char], at: usize) -> Option<usize>
    requires { at ≤ length text.now }
    ensures before { IfSome result (λ above. above < at) }
    ensures begins { IfSome result (spec.BeginsContent text.now at) }
{
    let mut above = line_before(text, at)?;
    while column(text, above) > column(text, at) {
        above = line_before(text, above)?;
    }
    Some(above)
}

/// The column of the character at an index.
pub(crate) fn column(text: &[char], at: usize) -> usize
    requires { at ≤ length text.now }
    ensures { spec.IsColumn text.now at result }
{
    at - line_start(text, at)
}

/// Where the line of a place ends.
pub(crate) fn line_end(text: &[char], at: usize) -> usize
    requires { at ≤ length text.now }
    ensures within { result ≤ length text.now }
    ensures behind { at ≤ result }
{
    for end in at..text.len() {
        if is_end_of_line(text[end]) {
            return end;
        }
    }
    text.len()
}

/// Whether a character is followed by no other, a blank or a break.
pub(crate) fn is_blank_behind(text: &[char], at: usize) -> bool
    requires { at < length text.now }
    ensures { result ≡ spec.is_blank_behind text.now at }
{
    at + 1 >= text.len() || is_space_or_tab(text[at + 1]) || is_end_of_line(text[at + 1])
}

/// Whether a colon that makes a key comes on the line of a place, from there on.
pub(crate) fn has_key(text: &[char], start: usize) -> bool
    requires { start ≤ length text.now }
{
    for at in start..line_end(text, start) {
        if text[at] == ':' && is_blank_behind(text, at) {
            return true;
        }
    }
    false
}

/// Whether an entry begins at a place.
pub(crate) fn is_entry(text: &[char], at: usize) -> bool
    requires { at < length text.now }
    ensures { IsTrue result → spec.IsCharacter 45 text.now at }
{
    text[at] == '-' && is_blank_behind(text, at)
}

/// What comes behind the dashes of entries that begin at a place.
pub(crate) fn behind_dashes(text: &[char], start: usize) -> usize
    requires { start < length text.now }
    ensures { spec.IsBehindDashes text.now start result }
{
    for at in start..text.len() {
        let is_entry = text[at] == '-' && is_blank_behind(text, at);
        if !is_entry && !is_space_or_tab(text[at]) {
            return at;
        }
    }
    start
}

/// The colon that ends the line above, if a place is in the column of that line.
pub(crate) fn colon_above(text: &[char], at: usize) -> Option<usize>
    requires { at ≤ length text.now }
    ensures { IfSome result (spec.IsEarlierColon text.now at) }
{
    let above = line_above(text, at)?;
    if column(text, above) != column(text, at) || line_before(text, at) != Some(above) {
        return None;
    }
    let last = last_character(text, above, false)?;
    if last < at && text[last] == ':' {
        Some(last)
    } else {
        None
    }
}

/// The sign of the block scalar above, if a place is left of its lines: all lines between are right of the sign's.
pub(crate) fn block_scalar_above(text: &[char], at: usize) -> Option<usize>
    requires { at ≤ length text.now }
    ensures { IfSome result (spec.IsBlockScalarBefore text.now at) }
{
    let mut line = line_before(text, at)?;
    let mut first = line;
    let mut least = column(text, line);
    while least > 0 {
        line = line_before(text, line)?;
        let here = column(text, line);
        if here < least {
            if let Some(sign) = header_sign(text, line) {
                let is_left = sign < at && column(text, at) < column(text, first);
                return if is_left { Some(sign) } else { None };
            }
        }
        first = line;
        least = least.min(here);
    }
    None
}

/// The sign of a block scalar that ends a line.
fn header_sign(text: &[char], line: usize) -> Option<usize>
    requires { line ≤ length text.now }
    ensures { IfSome result (spec.IsBlockScalarSign text.now) }
{
    let last = last_character(text, line, true)?;
    let is_header = last > line && is_space_or_tab(text[last - 1]);
    if is_header && (text[last] == '|' || text[last] == '>') {
        Some(last)
    } else {
        None
    }
}

/// Whether a line ends with a colon, so that its value is below.
pub(crate) fn has_value_below(text: &[char], at: usize) -> bool
    requires { at < length text.now }
{
    match last_character(text, at, false) {
        Some(last) => text[last] == ':',
        None => false,
    }
}

/// The last character of a line that is no blank, and in a block scalar's header no indicator.
fn last_character(text: &[char], start: usize, is_header: bool) -> Option<usize>
    requires { start ≤ length text.now }
    ensures { IfSome result (λ at. at < length text.now) }
{
    let mut end = line_end(text, start);
    while end > start {
        end -= 1;
        let c = text[end];
        let is_indicator = c == '-' || c == '+' || c.is_ascii_digit();
        if !is_space_or_tab(c) && !(is_header && is_indicator) {
            return Some(end);
        }
    }
    None
}

/// Whether a colon comes before a place on its line.
pub(crate) fn has_colon(text: &[char], end: usize) -> bool
    requires { end ≤ length text.now }
{
    text[line_start(text, end)..end].contains(&':')
}
