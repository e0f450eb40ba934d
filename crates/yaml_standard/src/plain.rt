//! Plain scalars (YAML 1.2.2, 7.3.3), of one line or more. `indent` is the first column to the right of the enclosing
//! block collection, and 0 at the root.
ghost use Rattle.std.specs.Prelude.{◌≡◌, ◌==◌, codes};
ghost use Rattle.std.specs.Str.{chars};
ghost use Rattle.saphyr_input.specs.Classes.{is_one_of};
ghost use Rattle.saphyr_input.specs.Indicators.{colon};
ghost use Rattle.saphyr_scalar.specs.Spelling.Tag.{AreIn};
ghost use Rattle.scalar_laws.specs.Spelling.Spaces.{AreMany};
ghost use Rattle.yaml_laws.specs.Grammar.FlowScalars as grammar;
ghost use Rattle.yaml_standard.specs.PlainParts as spec;
ghost use Rattle.yaml_standard.specs.Takes.{IfTakes, TakesOff};

use crate::front::{is_document_marker, split, strip};
use crate::spaces::{behind_all_spaces, behind_blanks, behind_line_prefix, behind_some_blanks};
use crate::words::{behind_some_safe, behind_word, is_plain_safe};

// Whether a scalar may begin with the character.
fn begins_plain(c: char) -> bool
    ensures { result ≡ grammar.begins_plain c }
{
    !matches!(
        c,
        ',' | '['
            | ']'
            | '{'
            | '}'
            | '#'
            | '&'
            | '*'
            | '!'
            | '|'
            | '>'
            | '\''
            | '"'
            | '%'
            | '@'
            | '`'
    )
}

// Whether a scalar may begin with the character only before another one of a word.
fn begins_before_safe(c: char) -> bool
    ensures { result ≡ is_one_of (codes "-?:") c }
{
    matches!(c, '-' | '?' | ':')
}

// What follows the first word of a scalar.
fn behind_first_word(text: &str, in_flow: bool) -> Option<&str>
    ensures { IfTakes (grammar.IsFirstWord in_flow) (chars text.now) result }
{
    let (first, second) = split(text)?;
    if begins_before_safe(first) {
        return behind_some_safe(second, in_flow);
    }
    if !begins_plain(first) {
        return None;
    }
    behind_word(text, in_flow)
}

// What follows an empty line.
fn behind_empty_line(text: &str, indent: usize) -> Option<&str>
    ensures { IfTakes (grammar.IsEmptyLine indent) (chars text.now) result }
{
    let spaces = behind_all_spaces(text);
    if let Some(line) = strip(spaces, '\n') {
        return Some(line);
    }
    let rest = behind_line_prefix(text, indent)?;
    strip(rest, '\n')
}

// What follows the empty lines that come first.
fn behind_empty_lines(text: &str, indent: usize) -> &str
    ensures { TakesOff (AreMany (grammar.IsEmptyLine indent)) (chars text.now)
        (chars result.now) }
{
    let mut rest = text;
    while let Some(line) = behind_empty_line(rest, indent) {
        rest = line;
    }
    rest
}

// What follows a line's end, empty lines, and what comes before the next line's content, which is no document marker.
fn behind_folded_gap(text: &str, indent: usize) -> Option<&str>
    ensures { IfTakes (grammar.IsFoldedGap indent) (chars text.now) result }
{
    let blanks = behind_blanks(text);
    let line = strip(blanks, '\n')?;
    let content = behind_empty_lines(line, indent);
    if is_document_marker(content) {
        return None;
    }
    behind_line_prefix(content, indent)
}

// What follows a gap between words.
fn behind_word_gap(text: &str, indent: usize) -> Option<&str>
    ensures { IfTakes (grammar.IsWordGap indent) (chars text.now) result }
{
    match behind_folded_gap(text, indent) {
        None => behind_some_blanks(text),
        Some(rest) => Some(rest),
    }
}

/// What follows a gap and a lone `-`, which is no word inside flow.
pub(crate) fn behind_lone_dash(text: &str, in_flow: bool, indent: usize) -> Option<&str>
    ensures { IfTakes (grammar.IsLoneDash indent) (chars text.now) result }
{
    if !in_flow {
        return None;
    }
    let dash = behind_word_gap(text, indent)?;
    let rest = strip(dash, '-')?;
    match split(rest) {
        Some((c, _)) if is_plain_safe(c, true) => None,
        _ => Some(rest),
    }
}

// What follows all such dashes that come first.
fn behind_dashes(text: &str, in_flow: bool, indent: usize) -> &str
    ensures { TakesOff (AreMany (grammar.IsLoneDash indent)) (chars text.now)
        (chars result.now) }
{
    let mut rest = text;
    while let Some(dash) = behind_lone_dash(rest, in_flow, indent) {
        rest = dash;
    }
    rest
}

// What follows lone dashes, or none, and a gap.
fn behind_dashes_and_gap(text: &str, in_flow: bool, indent: usize) -> Option<&str>
    ensures { IfTakes (spec.IsBeforeWord indent) (chars text.now) result }
{
    let dashes = behind_dashes(text, in_flow, indent);
    behind_word_gap(dashes, indent)
}

// What follows a word after others.
fn behind_further_word(text: &str, in_flow: bool, indent: usize) -> Option<&str>
    ensures { IfTakes (grammar.IsFurtherWord in_flow indent) (chars text.now) result }
{
    let word = behind_dashes_and_gap(text, in_flow, indent)?;
    behind_word(word, in_flow)
}

// What follows all such words.
fn behind_further_words(text: &str, in_flow: bool, indent: usize) -> &str
    ensures { TakesOff (AreMany (grammar.IsFurtherWord in_flow indent)) (chars text.now)
        (chars result.now) }
{
    let mut rest = text;
    while let Some(word) = behind_further_word(rest, in_flow, indent) {
        rest = word;
    }
    rest
}

/// What follows a plain scalar, the longest that is there. It ends before a line that begins with a document marker.
pub(crate) fn behind_plain(text: &str, in_flow: bool, indent: usize) -> Option<&str>
    ensures { IfTakes (grammar.IsPlain in_flow indent) (chars text.now) result }
{
    let first = behind_first_word(text, in_flow)?;
    Some(behind_further_words(first, in_flow, indent))
}

// What follows all but the last of the colons that come first.
fn behind_other_colons(text: &str) -> Option<&str>
    ensures { IfTakes (AreIn (λ c. c == colon)) (chars text.now) result }
{
    let mut last = text;
    let mut behind = strip(text, ':')?;
    while let Some(next) = strip(behind, ':') {
        last = behind;
        behind = next;
    }
    Some(last)
}

// What follows a `-`, a `?` or a `:`, and all but the last of the colons after it.
fn behind_mark_and_colons(text: &str) -> Option<&str>
    ensures { IfTakes spec.AreMarkAndColons (chars text.now) result }
{
    let (mark, rest) = split(text)?;
    if begins_before_safe(mark) {
        return behind_other_colons(rest);
    }
    None
}

/// What follows a plain scalar that is a key only right before its colon. There is one where several colons come after
/// the scalar of [`behind_plain`], and where a lone `-`, `?` or `:` with a colon after it is the last word, or the only
/// one. The key's colon is the last of the colons.
pub(crate) fn behind_plain_key(text: &str, in_flow: bool, indent: usize) -> Option<&str>
    ensures { IfTakes (grammar.IsPlainKey in_flow indent) (chars text.now) result }
{
    let Some(plain) = behind_plain(text, in_flow, indent) else {
        return behind_mark_and_colons(text);
    };
    if let Some(second) = strip(plain, ':') {
        return behind_other_colons(second);
    }
    let word = behind_dashes_and_gap(plain, in_flow, indent)?;
    behind_mark_and_colons(word)
}
