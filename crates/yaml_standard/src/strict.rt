//! What the standard asks of a text's characters beyond the grammar (YAML 1.2.2, 5.1).
ghost use Rattle.std.specs.Prelude.{◌≡◌, IsTrue};
ghost use Rattle.std.specs.Str.{chars};
ghost use Rattle.yaml_standard.specs.Strict as spec;

use crate::front::split;

/// Whether a character may be in quotes, or is a break.
fn is_allowed(c: char) -> bool
    ensures { result ≡ spec.is_allowed c }
{
    c == '\t' || c == '\n' || c == '\r' || c >= ' '
}

/// Whether each character of a text is allowed.
pub(crate) fn is_strict(text: &str) -> bool
    ensures { IsTrue result → spec.IsStrict (chars text.now) }
{
    let mut rest = text;
    while let Some((c, behind)) = split(rest) {
        if !is_allowed(c) {
            return false;
        }
        rest = behind;
    }
    true
}

/// Whether a character may be outside quotes too ([1]).
fn is_printable(c: char) -> bool {
    let is_of_quotes = c > '~' && c < '\u{a0}' && c != '\u{85}';
    is_allowed(c) && !is_of_quotes && c != '\u{fffe}' && c != '\u{ffff}'
}

/// A part of a text that may have characters which aren't printable: how many bytes the text has left at its start, and
/// at its end.
#[derive(Clone, Copy)]
pub(crate) struct Part {
    pub start: usize,
    pub end: usize,
}

/// Whether the text begins in a part. The parts before `next` end earlier.
fn is_in_part(text: &str, parts: &[Part], next: &mut usize) -> bool {
    for _ in 0..parts.len() {
        match parts.get(*next) {
            None => return false,
            Some(part) if part.end < text.len() => return text.len() <= part.start,
            Some(_) => *next = next.saturating_add(1),
        }
    }
    false
}

/// The text from its first character on that isn't printable, or in a part not allowed. The parts before `next` end
/// earlier.
pub(crate) fn first_unprintable<'a>(
    text: &'a str,
    parts: &[Part],
    next: &mut usize,
) -> Option<&'a str> {
    let mut rest = text;
    for _ in 0..text.len() {
        let Some((c, behind)) = split(rest) else {
            break;
        };
        if !is_allowed(c) || !is_printable(c) && !is_in_part(rest, parts, next) {
            return Some(rest);
        }
        rest = behind;
    }
    None
}
