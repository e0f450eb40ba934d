//! Places of characters, by their indexes.
ghost use Rattle.std.specs.Prelude.{◌≡◌, ◌<◌, ◌≤◌, length};
ghost use Rattle.yaml_check.specs.Places as spec;

use crate::view::is_end_of_line;
use saphyr_parser::Marker;

/// The place before the character at an index. CR LF, CR and LF are one break each.
pub(crate) fn place_of_index(text: &[char], index: usize) -> Marker
    requires { index ≤ length text.now }
    ensures { result ≡ spec.place_of_index text.now index }
{
    let mut line = 1;
    let mut start = 0;
    for at in 0..index {
        if breaks_line(text, at) {
            line += 1;
            start = at + 1;
        }
    }
    Marker::new(index, line, index - start)
}

/// Whether the character at an index ends a line.
fn breaks_line(text: &[char], at: usize) -> bool
    requires { at < length text.now }
    ensures { result ≡ spec.breaks_line text.now at }
{
    let is_first_of_two = at + 1 < text.len() && text[at + 1] == '\n';
    text[at] == '\n' || (text[at] == '\r' && !is_first_of_two)
}

/// Where the line of a place begins.
pub(crate) fn line_start(text: &[char], at: usize) -> usize
    requires { at ≤ length text.now }
    ensures { spec.IsLineStart text.now at result }
{
    let mut start = at;
    while !begins_line(text, start) {
        start -= 1;
    }
    start
}

/// Whether the text or a line begins at an index.
pub(crate) fn begins_line(text: &[char], at: usize) -> bool
    requires { at ≤ length text.now }
    ensures { result ≡ spec.begins_line text.now at }
{
    at == 0 || is_end_of_line(text[at - 1])
}

/// Whether a character is a blank.
pub(crate) fn is_space_or_tab(c: char) -> bool
    ensures { result ≡ spec.is_space_or_tab c }
{
    c == ' ' || c == '\t'
}
