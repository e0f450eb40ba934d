//! Breaks and tabs between two places of a text, of which the second is behind the first.

use crate::block_lines::first;
use crate::front::{front_before, split, strip};
use crate::spaces::behind_all_spaces;
use saphyr_input::char_traits::{is_blank, is_blank_or_breakz};

/// Whether the mark of an entry comes first, before a blank, a break or the end.
pub(crate) fn is_mark(text: &str, mark: char) -> bool {
    match strip(text, mark) {
        None => false,
        Some(rest) => is_blank_or_breakz(first(rest)),
    }
}

/// Whether a break comes between two places.
pub(crate) fn has_break(start: &str, rest: &str) -> bool {
    match front_before(start, rest) {
        None => false,
        Some(front) => front.contains("\n"),
    }
}

/// The text from the last line on that begins between two places, or from the first of them on.
pub(crate) fn last_line<'a>(start: &'a str, rest: &str) -> &'a str {
    let mut line = start;
    let mut text = start;
    for _ in rest.len()..start.len() {
        let Some((c, behind)) = split(text) else {
            return line;
        };
        if behind.len() < rest.len() {
            return line;
        }
        if c == '\n' {
            line = behind;
        }
        text = behind;
    }
    line
}

/// The text from its first tab on, if a tab comes first after spaces.
pub(crate) fn tab_first(text: &str) -> Option<&str> {
    let tab = behind_all_spaces(text);
    if tab.starts_with("\t") {
        Some(tab)
    } else {
        None
    }
}

/// The text from the first tab between two places on.
pub(crate) fn first_tab<'a>(start: &'a str, rest: &str) -> Option<&'a str> {
    let mut text = start;
    for _ in rest.len()..start.len() {
        let (c, behind) = split(text)?;
        if c == '\t' {
            return Some(text);
        }
        text = behind;
    }
    None
}

/// The text from the first of the blank lines on that come right before a place, or from there on.
pub(crate) fn blank_lines_before<'a>(start: &'a str, rest: &'a str) -> &'a str {
    let mut first = start;
    let mut is_of_blanks = true;
    let mut text = start;
    for _ in rest.len()..start.len() {
        let Some((c, behind)) = split(text) else {
            return rest;
        };
        if c == '\n' {
            if !is_of_blanks {
                first = behind;
            }
            is_of_blanks = true;
        } else if !is_blank(c) {
            is_of_blanks = false;
        }
        text = behind;
        if text.len() <= rest.len() {
            break;
        }
    }
    if is_of_blanks { first } else { rest }
}
