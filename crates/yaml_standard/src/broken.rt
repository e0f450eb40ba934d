//! Which rule a text breaks where it can't be read on. Nothing is promised of this: it names what a reader would see.

use crate::broken_parts::{broken_directive, broken_properties, broken_quoted, tab_behind_scalar};
use crate::directive::behind_directive;
use crate::front::split;
use crate::goal::{Goal, Place};
use crate::lead::indent_at;
use crate::lines::{blank_lines_before, first_tab, has_break, is_mark, last_line, tab_first};
use crate::plain::{behind_lone_dash, behind_plain};
use crate::rule::Rule;
use crate::spaces::behind_separation;
use crate::walk::Stuck;

/// The rule that a text breaks which can't be read on, and the text from the character on that breaks it. `is_told`
/// says whether the parser has told what comes first there, as a part of the node before.
pub(crate) fn broken_rule<'a>(lines: &'a str, stuck: Stuck<'a>, is_told: bool) -> (Rule, &'a str) {
    let text = stuck.text;
    let token = behind_separation(text, 0);
    let found = match stuck.goal {
        None if token.starts_with("%") => broken_directives(token),
        Some(
            Goal::Node(at)
            | Goal::Entries(at, _)
            | Goal::AfterEntry(at, _)
            | Goal::Pair(at, _)
            | Goal::KeyOrValue(at, _)
            | Goal::AfterKey(at)
            | Goal::Value(at, _),
        ) => broken_in_flow(text, token, at.indent),
        Some(Goal::BlockNode(place)) => broken_in_block(text, token, place),
        Some(Goal::BlockEntry(..)) if is_told && !begins_with_mark(token) => {
            broken_behind(lines, text, token)
        }
        Some(Goal::BlockEntry(_, column)) => broken_pair(text, column.saturating_add(1)),
        _ => broken_between(lines, text, token),
    };
    match found {
        None => (Rule::Unnamed, token),
        Some(found) => found,
    }
}

/// The rule that is broken in flow style.
fn broken_in_flow<'a>(text: &'a str, token: &'a str, indent: usize) -> Option<(Rule, &'a str)> {
    if has_break(behind_separation(text, indent), token) {
        return Some((Rule::FlowIndentation, token));
    }
    let (first, _) = split(token)?;
    match first {
        '#' => Some((Rule::CommentWithoutBlank, token)),
        '|' | '>' => Some((Rule::BlockIndicatorInFlow, token)),
        '?' => Some((Rule::QuestionInFlow, token)),
        '&' | '!' => broken_properties(token, indent).0,
        '"' | '\'' => match broken_quoted(token, indent) {
            Some((Rule::QuotedIndentation, line)) => Some((Rule::FlowIndentation, line)),
            found => found,
        },
        _ => match (lone_dash(text, indent), first_tab(text, token)) {
            (None, _) if is_long(token) => Some((Rule::LongKeyInFlow, token)),
            (None, Some(tab)) if has_break(tab, token) => Some((Rule::TabInEmptyLine, tab)),
            (found, _) => found,
        },
    }
}

/// The `-` alone that ends a plain scalar in brackets.
fn lone_dash(text: &str, indent: usize) -> Option<(Rule, &str)> {
    let words = behind_plain(text, true, indent).unwrap_or(text);
    behind_lone_dash(words, true, indent)?;
    Some((Rule::LoneDashInFlow, behind_separation(words, indent)))
}

/// Whether a line goes on for more characters than a key may have.
fn is_long(text: &str) -> bool {
    text.chars().take_while(|c| *c != '\n').nth(1024).is_some()
}

/// The rule that is broken by a node in block style.
fn broken_in_block<'a>(text: &'a str, token: &'a str, place: Place) -> Option<(Rule, &'a str)> {
    let found = broken_node(token, indent_at(place)?);
    if found.is_some() {
        return found;
    }
    broken_lead(text, token, place)
}

/// The rule that the properties or the scalar of a node break.
fn broken_node(token: &str, indent: usize) -> Option<(Rule, &str)> {
    let (found, content) = broken_properties(token, indent);
    if found.is_some() {
        return found;
    }
    let (first, _) = split(content)?;
    match first {
        '|' | '>' => tab_behind_scalar(content),
        '"' | '\'' => broken_quoted(content, indent),
        _ => None,
    }
}

/// The rule that is broken by the first directive that breaks one.
fn broken_directives(text: &str) -> Option<(Rule, &str)> {
    let mut rest = text;
    for _ in 0..text.len() {
        match behind_directive(rest) {
            None => return broken_directive(rest),
            Some((_, line)) => rest = behind_separation(line, 0),
        }
    }
    None
}

/// The rule that is broken by what comes before a block collection.
fn broken_lead<'a>(text: &'a str, token: &'a str, place: Place) -> Option<(Rule, &'a str)> {
    if let Some(tab) = tab_first(last_line(text, token)) {
        return Some((Rule::TabIndentation, tab));
    }
    if matches!(place, Place::BehindKey(_)) && !has_break(text, token) {
        return Some((Rule::CollectionAtColon, token));
    }
    None
}

/// The rule that is broken by a pair of a block mapping, or by what comes before it.
fn broken_pair(text: &str, indent: usize) -> Option<(Rule, &str)> {
    match tab_first(text) {
        None => broken_node(text, indent),
        Some(tab) => Some((Rule::TabIndentation, tab)),
    }
}

/// Whether the mark of an entry comes first: an event that begins behind it may be of that entry.
fn begins_with_mark(text: &str) -> bool {
    is_mark(text, '-') || is_mark(text, '?') || is_mark(text, ':')
}

/// The rule that is broken before what the parser has read as a part of the node before.
fn broken_behind<'a>(lines: &'a str, text: &'a str, token: &'a str) -> Option<(Rule, &'a str)> {
    match tab_first(last_line(blank_lines_before(lines, text), token)) {
        None => broken_between(lines, text, token),
        Some(tab) => Some((Rule::TabBehindProperty, tab)),
    }
}

/// The rule that is broken between nodes, by the lines before a text, up to its first token or there, or by a scalar in
/// quotes that has its properties on a line before.
fn broken_between<'a>(lines: &'a str, text: &'a str, token: &'a str) -> Option<(Rule, &'a str)> {
    let tab = first_tab(blank_lines_before(lines, text), token);
    let column = last_line(lines, token).len().saturating_sub(token.len());
    match tab {
        Some(tab) if has_break(tab, token) => Some((Rule::TabInEmptyLine, tab)),
        _ => match (broken_node(token, 0), tab) {
            (None, None) => broken_node(token, column),
            (None, Some(tab)) => Some((Rule::TabBehindProperty, tab)),
            (found, _) => found,
        },
    }
}
