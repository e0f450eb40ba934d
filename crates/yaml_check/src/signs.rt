//! Signs of a text, such as tabs, dashes and brackets, by which help knows what was meant.
ghost use Rattle.std.specs.Prelude.{◌+◌, ◌≡◌, ◌⊎◌, ◌<◌, ◌≤◌, length, IfSome, IsTrue, true};
ghost use Rattle.yaml_check.specs.Helps as spec;

use crate::brackets::{closer, is_left_bracket, is_right_bracket};
use crate::columns::content_before;
use crate::lines::{content, has_key, is_blank_behind, line_before, line_end};
use crate::note::Remark;
use crate::places::{is_space_or_tab, line_start};
use crate::view::is_end_of_line;

/// The first character of a part of a line that a remark tells of, where a key, a value or an entry may begin.
pub(crate) fn sign_between(remark: Remark, text: &[char], start: usize, end: usize) -> Option<usize>
    requires { end ≤ length text.now }
    ensures { IfSome result (spec.IsSignAt remark text.now) }
{
    for at in start..end {
        if is_sign(remark, text[at]) && may_begin_at(text, at) {
            return Some(at);
        }
    }
    None
}

/// Whether nothing but blanks is between a place and the start of its line, a colon, a dash, a comma or a bracket.
fn may_begin_at(text: &[char], at: usize) -> bool
    requires { at ≤ length text.now }
{
    match word_before(text, at) {
        Some(before) => {
            let c = text[before];
            c == ':' || c == '-' || c == ',' || is_left_bracket(c)
        }
        None => true,
    }
}

/// The colon of another width on a line from one place on, and before another.
pub(crate) fn wide_colon(text: &[char], start: usize, end: usize) -> Option<usize>
    requires { start ≤ length text.now }
    ensures before { IfSome result (λ at. at < end) }
    ensures is { IfSome result (spec.IsWideColon text.now) }
{
    for at in start..line_end(text, start).min(end) {
        if is_sign(Remark::WideColon, text[at]) {
            return Some(at);
        }
    }
    None
}

/// The slash that begins a comment of another language, at a place or on a line before it of the same text.
pub(crate) fn other_comment(text: &[char], end: usize) -> Option<usize>
    requires { end ≤ length text.now }
    ensures near { IfSome result (λ at. (at ≡ end)
        ⊎ ((at < end) × spec.BeginsSomeLine text.now at)) }
    ensures is { IfSome result (spec.IsOtherComment text.now) }
{
    if begins_other_comment(text, end) {
        return Some(end);
    }
    let mut at = line_before(text, end)?;
    while !begins_other_comment(text, at) {
        if has_key(text, at) {
            return None;
        }
        at = line_before(text, at)?;
    }
    let found = content_before(text, at, end)?;
    if begins_other_comment(text, found) {
        Some(found)
    } else {
        None
    }
}

/// Whether a comment of another language begins at a place.
fn begins_other_comment(text: &[char], at: usize) -> bool
    ensures { IsTrue result → spec.IsOtherComment text.now at }
{
    at < text.len()
        && text[at] == '/'
        && at + 1 < text.len()
        && (text[at + 1] == '/' || text[at + 1] == '*')
}

/// Whether a remark tells of a character.
pub(crate) fn is_sign(remark: Remark, c: char) -> bool
    ensures { result ≡ spec.is_sign remark c }
{
    match remark {
        Remark::NoBreakSpace => c == '\u{a0}' || c == '\u{202f}',
        Remark::IdeographicSpace => c == '\u{3000}',
        Remark::OtherSpace => '\u{2000}' <= c && c <= '\u{200a}',
        Remark::ZeroWidth => ('\u{200b}' <= c && c <= '\u{200d}') || c == '\u{feff}',
        Remark::TypographersQuote => '\u{2018}' <= c && c <= '\u{201f}',
        Remark::WideColon => c == '\u{ff1a}' || c == '\u{fe55}',
        _ => false,
    }
}

/// The tab at a place or right before it, or else the first behind it that is a part of a line's indentation.
pub(crate) fn tab_near(text: &[char], end: usize) -> Option<usize>
    requires { end ≤ length text.now }
    ensures near { IfSome result (λ at. (at + 1 ≡ end) ⊎ (end ≤ at)) }
    ensures is { IfSome result (spec.IsTab text.now) }
{
    if end > 0 && text[end - 1] == '\t' {
        return Some(end - 1);
    }
    let mut indents = true;
    for at in end..text.len() {
        let c = text[at];
        if c == '\t' && indents && content(text, at, line_end(text, at)).is_some() {
            return Some(at);
        }
        indents = is_end_of_line(c) || (indents && c == ' ');
    }
    None
}

/// The last character before a place on its line that is no blank.
pub(crate) fn word_before(text: &[char], place: usize) -> Option<usize>
    requires { place ≤ length text.now }
    ensures { IfSome result (λ at. at < place) }
{
    let mut at = place;
    while at > 0 {
        at -= 1;
        if !is_space_or_tab(text[at]) {
            return if is_end_of_line(text[at]) {
                None
            } else {
                Some(at)
            };
        }
    }
    None
}

/// A dash that has no blank behind it, and begins neither a marker nor an option.
pub(crate) fn is_dash_without_blank(text: &[char], at: usize) -> bool
    requires { at ≤ length text.now }
    ensures { IsTrue result → spec.IsTight 45 text.now at }
{
    at + 1 < text.len() && text[at] == '-' && text[at + 1] != '-' && !is_blank_behind(text, at)
}

/// The colon behind the first word at a place, if it has no blank behind it.
pub(crate) fn colon_without_blank(text: &[char], start: usize) -> Option<usize>
    requires { start ≤ length text.now }
    ensures { IfSome result (spec.IsTight 58 text.now) }
{
    let is_value = begins_value(text, start);
    let mut is_word = true;
    for at in start..line_end(text, start) {
        let c = text[at];
        if c == ':' {
            let is_path = at + 1 < text.len() && is_part_of_path(text[at + 1]);
            return if is_blank_behind(text, at) || is_path || is_value {
                None
            } else {
                Some(at)
            };
        }
        if !is_word && !is_space_or_tab(c) {
            return None;
        }
        is_word = is_word && !is_space_or_tab(c);
    }
    None
}

/// Whether a digit or a quote is at a place: more likely a value begins there than a key.
fn begins_value(text: &[char], start: usize) -> bool {
    start < text.len()
        && (text[start].is_ascii_digit() || text[start] == '"' || text[start] == '\'')
}

/// Whether a character behind a colon shows that it is a part of an address, a path or a name.
fn is_part_of_path(c: char) -> bool {
    c == '/' || c == '\\' || c == ':'
}

/// The first brackets of a template on the line of a place, before it and not in quotes.
pub(crate) fn template_before(text: &[char], end: usize) -> Option<usize>
    requires { end ≤ length text.now }
    ensures before { IfSome result (λ at. at < end) }
    ensures is { IfSome result (spec.IsTemplate text.now) }
{
    for at in line_start(text, end)..end {
        let c = text[at];
        if c == '"' || c == '\'' {
            return None;
        }
        if c == '{' && at + 1 < text.len() && (text[at + 1] == '{' || text[at + 1] == '%') {
            return Some(at);
        }
    }
    None
}

/// Whether a comma may be missing before a place: the bracket that is open there is closed behind it, and no quotes
/// end right before it, unless a colon follows.
pub(crate) fn lacks_comma(text: &[char], end: usize) -> bool
    requires { end ≤ length text.now }
    ensures { IsTrue result → spec.has_closer text.now end ≡ true }
{
    let is_behind_quote = end > 0 && (text[end - 1] == '"' || text[end - 1] == '\'');
    let is_colon = end < text.len() && text[end] == ':';
    let closes = end < text.len() && is_right_bracket(text[end]);
    closer(&text[end..]).is_some() && !closes && (is_colon || !is_behind_quote)
}
