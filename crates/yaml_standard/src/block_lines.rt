//! Lines of block scalars (YAML 1.2.2, 8.1.2 and 8.1.3). `indentation` is the column at which their content begins.
ghost use Rattle.std.specs.Prelude.{◌≡◌, IfSome, IsTrue, slice_index};
ghost use Rattle.std.specs.Str.{chars};
ghost use Rattle.scalar_laws.specs.Spelling.Spaces.{AreMany};
ghost use Rattle.yaml_standard.specs.BlockLines as spec;
ghost use Rattle.yaml_standard.specs.Takes.{IfTakes, TakesOff};

use crate::front::{behind_some, is_document_marker, is_end, split, strip};
use crate::spaces::behind_spaces;
use saphyr_input::NonBreak;

/// The first character, or NUL where nothing is left.
pub(crate) fn first(text: &str) -> char
    ensures { result ≡ slice_index (chars text.now) 0 }
{
    match split(text) {
        None => '\0',
        Some((c, _rest)) => c,
    }
}

/// How many spaces come first, but no more than `most`, and what follows them.
pub(crate) fn split_spaces(text: &str, most: usize) -> (usize, &str)
    ensures { spec.SplitsSpaces most result.0 (chars text.now) (chars result.1.now) }
{
    let mut rest = text;
    for count in 0..most {
        match strip(rest, ' ') {
            None => return (count, rest),
            Some(behind) => rest = behind,
        }
    }
    (most, rest)
}

// What follows an empty line.
fn behind_empty_line(text: &str, indentation: usize) -> Option<&str>
    ensures { IfTakes (spec.IsEmptyBlockLine indentation) (chars text.now) result }
{
    let (_count, rest) = split_spaces(text, indentation);
    strip(rest, '\n')
}

/// What follows all empty lines that come first.
pub(crate) fn behind_empty_lines(text: &str, indentation: usize) -> &str
    ensures { TakesOff (AreMany (spec.IsEmptyBlockLine indentation)) (chars text.now)
        (chars result.now) }
{
    let mut rest = text;
    while let Some(behind) = behind_empty_line(rest, indentation) {
        rest = behind;
    }
    rest
}

// Whether the content of a line may begin so, which is told from behind its indentation on.
fn may_begin(text: &str, indentation: usize, is_given: bool) -> bool
    ensures { IsTrue result → spec.MayBegin indentation is_given (chars text.now) }
{
    (indentation > 0 || !is_document_marker(text)) && (is_given || first(text) != ' ')
}

/// What follows the content of a line. It begins with no space, unless the indentation is given.
pub(crate) fn behind_content(text: &str, indentation: usize, is_given: bool) -> Option<&str>
    ensures { IfSome result (λ rest. spec.TakesContent indentation is_given (chars text.now)
        (chars rest.now)) }
{
    let content = behind_spaces(text, indentation)?;
    if may_begin(content, indentation, is_given) {
        behind_some::<NonBreak>(content)
    } else {
        None
    }
}

// What follows a line with content, and its break.
fn behind_content_line(text: &str, indentation: usize) -> Option<&str>
    ensures { IfSome result (λ rest. spec.PassesBlockLine indentation (chars text.now)
        (chars rest.now)) }
{
    let rest = behind_content(text, indentation, true)?;
    strip(rest, '\n')
}

// What follows a line that a break ends.
fn behind_line(text: &str, indentation: usize) -> Option<&str>
    ensures { IfSome result (λ rest. spec.PassesBlockLine indentation (chars text.now)
        (chars rest.now)) }
{
    match behind_empty_line(text, indentation) {
        None => behind_content_line(text, indentation),
        Some(rest) => Some(rest),
    }
}

// What follows a line with content that the text's end ends.
fn behind_last_content(text: &str, indentation: usize) -> Option<&str>
    ensures { IfSome result (λ rest. spec.AreSomeLines indentation (chars rest.now)
        (chars text.now)) }
{
    let rest = behind_content(text, indentation, true)?;
    if is_end(rest) { Some(rest) } else { None }
}

// What follows a line that the text's end ends, if there is one.
fn behind_last_line(text: &str, indentation: usize) -> &str
    ensures { spec.AreSomeLines indentation (chars result.now) (chars text.now) }
{
    let (_count, rest) = split_spaces(text, indentation);
    if is_end(rest) {
        return rest;
    }
    match behind_last_content(text, indentation) {
        None => text,
        Some(end) => end,
    }
}

/// What follows all lines of a scalar from one of them on, behind its first content line.
pub(crate) fn behind_lines(text: &str, indentation: usize) -> &str
    ensures { spec.AreSomeLines indentation (chars result.now) (chars text.now) }
{
    let mut rest = text;
    while let Some(line) = behind_line(rest, indentation) {
        rest = line;
    }
    behind_last_line(rest, indentation)
}
