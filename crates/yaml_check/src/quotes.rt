//! The quotes near a fault, by which help knows what was meant.
ghost use Rattle.std.specs.Prelude.{◌<◌, ◌+◌, ◌≡◌, ◌≤◌, length, IfSome};
ghost use Rattle.yaml_check.specs.Helps as spec;

use crate::brackets::is_left_bracket;
use crate::lines::line_end;
use crate::note::Remark;
use crate::places::{is_space_or_tab, line_start};
use crate::signs::{is_sign, sign_between};

/// The typographer's quote that begins the text before a place, or that ends the line of the quote at the place.
pub(crate) fn typographers_quote(text: &[char], end: usize) -> Option<usize>
    requires { end ≤ length text.now }
    ensures { IfSome result (spec.IsTypographersQuote text.now) }
{
    let first = sign_between(Remark::TypographersQuote, text, line_start(text, end), end);
    if first.is_some() {
        return first;
    }
    let stop = line_end(text, end);
    if stop == end || (text[end] != '"' && text[end] != '\'') {
        return None;
    }
    if is_sign(Remark::TypographersQuote, text[stop - 1]) {
        Some(stop - 1)
    } else {
        None
    }
}

/// The single quote right before a place that is a letter's apostrophe.
pub(crate) fn apostrophe(text: &[char], end: usize) -> Option<usize>
    requires { end ≤ length text.now }
    ensures before { IfSome result (λ at. at + 1 ≡ end) }
    ensures is { IfSome result (spec.IsCharacter 39 text.now) }
{
    if end < 2 || text[end - 1] != '\'' {
        return None;
    }
    let letter = text[end - 2];
    if letter.is_ascii_alphabetic() || letter > '\u{7f}' {
        Some(end - 1)
    } else {
        None
    }
}

/// The opening double quote of the quoted text that ends before a place, if that text begins as JSON does.
pub(crate) fn json_quote(text: &[char], end: usize) -> Option<usize>
    requires { end ≤ length text.now }
    ensures before { IfSome result (λ at. at < end) }
    ensures is { IfSome result (spec.IsCharacter 34 text.now) }
{
    let quote = quote_before(text, end)?;
    if is_space_or_tab(text[end - 1]) {
        return None;
    }
    if quote + 1 < text.len() && text[quote] == '"' && is_left_bracket(text[quote + 1]) {
        Some(quote)
    } else {
        None
    }
}

/// The opening quote of the quoted text that ends before a place, but for blanks.
pub(crate) fn quote_before(text: &[char], end: usize) -> Option<usize>
    requires { end ≤ length text.now }
    ensures { IfSome result (spec.IsQuote text.now end) }
{
    let mut close = end;
    while close > 0 && is_space_or_tab(text[close - 1]) {
        close -= 1;
    }
    if close == 0 {
        return None;
    }
    let quote = text[close - 1];
    if quote == '"' || quote == '\'' {
        opening_quote(text, close - 1, quote)
    } else {
        None
    }
}

/// The last such quote before a place that no backslash precedes.
fn opening_quote(text: &[char], close: usize, quote: char) -> Option<usize>
    requires { close ≤ length text.now }
    ensures { IfSome result (spec.IsQuoteBefore text.now close quote) }
{
    let mut at = close;
    while at > 0 {
        at -= 1;
        if text[at] == quote && (at == 0 || text[at - 1] != '\\') {
            return Some(at);
        }
    }
    None
}
