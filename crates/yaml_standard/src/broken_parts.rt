//! Rules that are broken by directives, properties and scalars. Nothing is promised of them.

use crate::front::{split, strip};
use crate::lines::{has_break, last_line, tab_first};
use crate::names::{behind_anchor_name, behind_handle, underscore_in_handle};
use crate::rule::Rule;
use crate::spaces::{behind_all_spaces, behind_blanks, behind_separation, behind_spaces};

/// The rule that a tag directive breaks.
pub(crate) fn broken_directive(text: &str) -> Option<(Rule, &str)> {
    let handle = behind_blanks(text.strip_prefix("%TAG")?);
    match underscore_in_handle(handle) {
        None => Some((Rule::PrefixWithoutBlank, behind_handle(handle)?)),
        Some(underscore) => Some((Rule::UnderscoreInHandle, underscore)),
    }
}

/// What follows an anchor or a tag.
fn behind_property(text: &str) -> Option<&str> {
    let (first, name) = split(text)?;
    if first != '&' && first != '!' {
        return None;
    }
    if name.starts_with("<") {
        let (_, rest) = name.split_once(">")?;
        return Some(rest);
    }
    Some(behind_anchor_name(name).unwrap_or(name))
}

/// The rule that an anchor or a tag breaks, or what comes behind it up to the next token.
fn broken_property<'a>(
    text: &'a str,
    rest: &'a str,
    token: &'a str,
    indent: usize,
) -> Option<(Rule, &'a str)> {
    if text.starts_with("!<>") {
        return Some((Rule::EmptyVerbatimTag, text));
    }
    if let Some(underscore) = underscore_in_handle(text) {
        return Some((Rule::UnderscoreInHandle, underscore));
    }
    if rest.starts_with("[") || rest.starts_with("{") {
        return Some((Rule::BracketBehindProperty, rest));
    }
    if !has_break(rest, token) {
        return None;
    }
    let line = last_line(rest, token);
    if behind_spaces(line, indent).is_some() {
        return None;
    }
    Some((Rule::TabBehindProperty, tab_first(line)?))
}

/// The rule that properties break, and what follows them and separation.
pub(crate) fn broken_properties(text: &str, indent: usize) -> (Option<(Rule, &str)>, &str) {
    let mut token = text;
    for _ in 0..2 {
        let Some(rest) = behind_property(token) else {
            return (None, token);
        };
        let next = behind_separation(rest, 0);
        let found = broken_property(token, rest, next, indent);
        if found.is_some() {
            return (found, token);
        }
        token = next;
    }
    (None, token)
}

/// The text from a tab on that is left of a block scalar's content, in a line behind the header.
pub(crate) fn tab_behind_scalar(text: &str) -> Option<(Rule, &str)> {
    let (_, mut line) = text.split_once("\n")?;
    let mut indent = usize::MAX;
    for _ in 0..text.len() {
        let content = behind_all_spaces(line);
        let column = line.len().saturating_sub(content.len());
        if content.starts_with("\t") && column < indent {
            return Some((Rule::TabBehindBlockScalar, content));
        }
        if indent == usize::MAX && !content.starts_with("\n") {
            indent = column;
        }
        (_, line) = content.split_once("\n")?;
    }
    None
}

/// The rule that a scalar in quotes breaks by one of its later lines.
pub(crate) fn broken_quoted(text: &str, indent: usize) -> Option<(Rule, &str)> {
    let (quote, mut rest) = split(text)?;
    let mut is_escaped = false;
    for _ in 0..text.len() {
        let (c, behind) = split(rest)?;
        if c == '\n' {
            let found = broken_line(behind, quote, indent, is_escaped);
            if found.is_some() {
                return found;
            }
        }
        if c == quote && !is_escaped {
            // Of two single quotes the second is no end.
            rest = strip(behind, '\'')?;
        } else {
            rest = behind;
        }
        is_escaped = c == '\\' && quote == '"' && !is_escaped;
    }
    None
}

/// The rule that a later line of a scalar in quotes breaks, after a break that is escaped or not.
fn broken_line(line: &str, quote: char, indent: usize, is_escaped: bool) -> Option<(Rule, &str)> {
    if behind_spaces(line, indent).is_some() {
        let content = behind_blanks(line);
        if quote == '"' && content.starts_with("\\\n") {
            return Some((Rule::EscapedEmptyLine, content));
        }
        return None;
    }
    if behind_all_spaces(line).starts_with("\n") {
        return None;
    }
    if is_escaped && strip(line, quote).is_some() {
        return Some((Rule::QuoteAtFirstColumn, line));
    }
    Some((Rule::QuotedIndentation, behind_blanks(line)))
}
