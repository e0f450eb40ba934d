//! Which of two lines that don't go together is the one that a person moves.
ghost use Rattle.std.specs.Prelude.{◌<◌, ◌≤◌, length, IfSome};
ghost use Rattle.yaml_check.specs.Helps as spec;

use crate::lines::{
    column, content, has_key, has_value_below, is_entry, line_above, line_before, line_behind,
    line_end,
};
use crate::places::line_start;

/// A line above that of a fault, if the lines below go with the fault's line and it does not: it is in another column
/// than they are.
pub(crate) fn stray_line(text: &[char], end: usize) -> Option<usize>
    requires { end ≤ length text.now }
    ensures before { IfSome result (λ at. at < end) }
    ensures begins { IfSome result (spec.BeginsSomeLine text.now) }
    ensures other { IfSome result (spec.IsInOtherColumn text.now end) }
{
    let line = content_at(text, end)?;
    let first = first_beside(text, line)?;
    let is_stray = first < line
        && !lacks_value(text, line)
        && is_lone(text, first, line)
        && is_in_other_column(text, first, line);
    if !is_stray {
        return None;
    }
    let found = content_before(text, first, end)?;
    if column(text, found) != column(text, line) {
        Some(found)
    } else {
        None
    }
}

/// A key above that is alone in the column of a fault's line, if that line and those below begin with dashes.
pub(crate) fn key_without_dash(text: &[char], end: usize) -> Option<usize>
    requires { end ≤ length text.now }
    ensures before { IfSome result (λ at. at < end) }
    ensures begins { IfSome result (spec.BeginsSomeLine text.now) }
    ensures entry { IfSome result (λ at. spec.IsDashLine text.now end) }
{
    let line = content_at(text, end)?;
    let first = line_above(text, line)?;
    if column(text, first) != column(text, line) || is_entry(text, first) || !is_entry(text, line) {
        return None;
    }
    let next = next_in(text, line, column(text, line))?;
    let goes_on = column(text, next) == column(text, line) && is_entry(text, next);
    if goes_on && is_lone(text, first, line) {
        content_before(text, first, end)
    } else {
        None
    }
}

/// Where the content of the line of a place begins, if that is before another place.
pub(crate) fn content_before(text: &[char], at: usize, end: usize) -> Option<usize>
    requires { at ≤ length text.now }
    ensures before { IfSome result (λ found. found < end) }
    ensures begins { IfSome result (spec.BeginsSomeLine text.now) }
{
    let found = content_at(text, at)?;
    if found < end { Some(found) } else { None }
}

/// Where the content of the line of a place begins.
fn content_at(text: &[char], at: usize) -> Option<usize>
    requires { at ≤ length text.now }
    ensures within { IfSome result (λ found. found < length text.now) }
    ensures begins { IfSome result (spec.BeginsLineOf text.now at) }
{
    content(text, line_start(text, at), line_end(text, at))
}

/// The line that doesn't go with this one: the key before, if that is further left, and else the first of those above
/// that are further right.
fn first_beside(text: &[char], line: usize) -> Option<usize>
    requires { line < length text.now }
    ensures { IfSome result (λ at. at < length text.now) }
{
    let before = line_before(text, line)?;
    if column(text, before) < column(text, line) {
        return if has_key(text, before) {
            Some(before)
        } else {
            None
        };
    }
    match line_above(text, line) {
        Some(above) if column(text, above) < column(text, line) => line_behind(text, above),
        Some(_) => None,
        None => first_content(text),
    }
}

/// Where the first content of a text begins.
fn first_content(text: &[char]) -> Option<usize>
    requires { 0 < length text.now }
    ensures { IfSome result (λ at. at < length text.now) }
{
    match content_at(text, 0) {
        Some(at) => Some(at),
        None => line_behind(text, 0),
    }
}

/// Whether a line has no other in its column: the line above is further left, and those up to another further right.
fn is_lone(text: &[char], first: usize, line: usize) -> bool
    requires { first < length text.now }
{
    if let Some(above) = line_above(text, first) {
        if column(text, above) == column(text, first) {
            return false;
        }
    }
    match next_in(text, first, column(text, first)) {
        Some(next) => next >= line,
        None => true,
    }
}

/// The next line that is not right of a column.
fn next_in(text: &[char], line: usize, right: usize) -> Option<usize>
    requires { line < length text.now }
    ensures { IfSome result (λ at. at < length text.now) }
{
    let mut next = line_behind(text, line)?;
    while column(text, next) > right {
        next = line_behind(text, next)?;
    }
    Some(next)
}

/// Whether the lines below are in the column of a line, and not in that of the first. Where none is below, whether this
/// is an odd number of columns from the line around them: what is behind a dash is two columns further right.
fn is_in_other_column(text: &[char], first: usize, line: usize) -> bool
    requires first { first < length text.now }
    requires line { line < length text.now }
{
    let here = column(text, line);
    let there = column(text, first);
    if !is_entry(text, first) {
        if let Some(next) = line_after(text, line, here.max(there)) {
            if column(text, next) == here || column(text, next) == there {
                return column(text, next) == here;
            }
        }
    }
    let around = match line_above(text, first) {
        Some(above) => column(text, above),
        None => 0,
    };
    here.abs_diff(around) % 2 == 0 && there.abs_diff(around) % 2 == 1
}

/// The next line behind one and the lines of its value that is not right of a column.
fn line_after(text: &[char], line: usize, right: usize) -> Option<usize>
    requires { line < length text.now }
    ensures { IfSome result (λ at. at < length text.now) }
{
    let behind = line_behind(text, line)?;
    let column_behind = column(text, behind);
    if has_value_below(text, line) && column_behind > column(text, line) {
        next_in(text, line, column_behind - 1)
    } else {
        next_in(text, line, right)
    }
}

/// Whether the value of a key would be below it, and is not: the key is too far right.
fn lacks_value(text: &[char], line: usize) -> bool
    requires { line < length text.now }
{
    match line_behind(text, line) {
        Some(behind) => {
            has_value_below(text, line)
                && column(text, behind) <= column(text, line)
                && !is_entry(text, behind)
        }
        None => false,
    }
}
