//! What YAML allows, and the parser does not.
ghost use Rattle.std.specs.Prelude.{◌⊎◌, ◌+◌, ◌≡◌, ◌≤◌, ◌<◌, length, IfSome, IsTrue};
ghost use Rattle.yaml_check.specs.Helps as spec;

use crate::brackets::{is_left_bracket, is_right_bracket};
use crate::lines::{is_blank_behind, line_end};
use crate::places::{is_space_or_tab, line_start};
use crate::signs::word_before;
use crate::view::is_end_of_line;

/// A tab at a place or right before it, which YAML allows: it is behind the colon of a value or the question mark of a
/// key, and no collection begins behind it.
pub(crate) fn allowed_tab(text: &[char], end: usize) -> Option<usize>
    requires { end ≤ length text.now }
    ensures near { IfSome result (λ at. (at + 1 ≡ end) ⊎ (at ≡ end)) }
    ensures is { IfSome result (spec.IsTab text.now) }
{
    let at = if end > 0 && text[end - 1] == '\t' {
        end - 1
    } else {
        end
    };
    let indicator = word_before(text, at)?;
    let is_indicator = text[indicator] == ':' || text[indicator] == '?';
    if at < text.len() && text[at] == '\t' && is_indicator && is_plain_rest(text, at) {
        Some(at)
    } else {
        None
    }
}

/// Whether no block collection begins on the rest of a line.
fn is_plain_rest(text: &[char], start: usize) -> bool
    requires { start ≤ length text.now }
{
    let mut begins = true;
    for at in start..line_end(text, start) {
        let c = text[at];
        let is_indicator = c == ':' || (begins && (c == '-' || c == '?'));
        if is_indicator && is_blank_behind(text, at) {
            return false;
        }
        begins = begins && is_space_or_tab(c);
    }
    true
}

/// Whether the colon at a place is on a line below the bracket that closes its key, as YAML allows.
pub(crate) fn is_colon_below(text: &[char], end: usize) -> bool
    requires { end ≤ length text.now }
    ensures { IsTrue result → spec.IsCharacter 58 text.now end }
{
    if end >= text.len() || text[end] != ':' {
        return false;
    }
    let mut is_below = false;
    let mut at = end;
    while at > 0 {
        at -= 1;
        let c = text[at];
        if !is_space_or_tab(c) && !is_end_of_line(c) {
            return is_below && is_right_bracket(c);
        }
        is_below = is_below || is_end_of_line(c);
    }
    false
}

/// Whether the dash at a place follows a word of a plain scalar.
pub(crate) fn is_dash_in_text(text: &[char], end: usize) -> bool
    requires { end ≤ length text.now }
    ensures { IsTrue result → spec.IsCharacter 45 text.now end }
{
    if end >= text.len() || text[end] != '-' {
        return false;
    }
    match word_before(text, end) {
        Some(last) => is_word(text, last),
        None => false,
    }
}

/// Whether the word that ends at an index is a part of a plain scalar.
fn is_word(text: &[char], last: usize) -> bool
    requires { last < length text.now }
{
    let mut at = last;
    while at > 0 && !ends_word(text[at]) && !ends_word(text[at - 1]) {
        at -= 1;
    }
    let c = text[at];
    !ends_word(c) && c != '*' && c != '&' && c != '!' && c != '-' && c != '?' && c != ':'
}

/// Whether a character is a blank, a break, or a sign that is in no word.
fn ends_word(c: char) -> bool {
    is_space_or_tab(c)
        || is_end_of_line(c)
        || is_left_bracket(c)
        || is_right_bracket(c)
        || c == ','
        || c == '"'
        || c == '\''
}

/// The colon right behind a verbatim tag that begins at a place.
pub(crate) fn colon_behind_tag(text: &[char], start: usize) -> Option<usize>
    requires { start ≤ length text.now }
    ensures behind { IfSome result (λ at. start < at) }
    ensures is { IfSome result (spec.IsCharacter 58 text.now) }
{
    let end = line_end(text, start);
    if end - start < 2 || text[start + 1] != '<' {
        return None;
    }
    for at in start + 1..end {
        if text[at - 1] == '>' {
            let is_colon = text[at] == ':' && is_blank_behind(text, at);
            return if is_colon { Some(at) } else { None };
        }
    }
    None
}

/// Whether a comment, a tab before the end of the line, or a marker of a document is at a place.
pub(crate) fn is_allowed_line(text: &[char], start: usize) -> bool
    requires { start ≤ length text.now }
{
    let end = line_end(text, start);
    for at in start..end {
        if !is_space_or_tab(text[at]) {
            return text[at] == '#' || is_marker(text, start, end);
        }
    }
    true
}

/// Whether a line has the marker of a document.
fn is_marker(text: &[char], start: usize, end: usize) -> bool
    requires within { end ≤ length text.now }
    requires ordered { start ≤ end }
{
    if end - start < 3 || line_start(text, start) != start {
        return false;
    }
    let c = text[start];
    (c == '-' || c == '.')
        && text[start + 1] == c
        && text[start + 2] == c
        && is_blank_behind(text, start + 2)
}
