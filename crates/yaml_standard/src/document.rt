//! What is around documents: byte order marks, `...` lines, directives and `---` (YAML 1.2.2, chapter 9).
ghost use Rattle.std.specs.Prelude.{◌≡◌, ◌&&◌, ◌∷◌, ◌++◌, codes, true, IfOk, IfSome};
ghost use Rattle.std.specs.Str.{chars};
ghost use Rattle.saphyr_input.specs.Places.{is_document_indicator};
ghost use Rattle.scalar_laws.specs.Spelling.Spaces.{AreMany};
ghost use Rattle.yaml_laws.specs.Grammar.Yaml as grammar;
ghost use Rattle.yaml_standard.specs.Documents as spec;
ghost use Rattle.yaml_standard.specs.Takes.{IfTakes, IfTakesBefore, TakesBefore, TakesOff};

use crate::directive::behind_directives;
use crate::front::{is_document_marker, split, strip};
use crate::spaces::{behind_eol, behind_filler};
use std::alloc::{AllocError, Global};

/// What follows a byte order mark, with filler before it.
fn behind_mark(text: &str) -> Option<&str>
    ensures { IfTakes grammar.IsMarkBehindFiller (chars text.now) result }
{
    let mark = behind_filler(text);
    strip(mark, '\u{feff}')
}

/// What follows a character that comes three times.
fn behind_three(text: &str, c: char) -> Option<&str>
    ensures { IfSome result (λ rest. chars text.now ≡ c ∷ c ∷ c ∷ chars rest.now) }
{
    let second = strip(text, c)?;
    let third = strip(second, c)?;
    strip(third, c)
}

/// What follows a `...` line, with filler before it.
fn behind_end_line(text: &str) -> Option<&str>
    ensures { IfTakesBefore spec.IsEndLine (chars text.now) result }
{
    let dots = behind_filler(text);
    let end = behind_three(dots, '.')?;
    behind_eol(end)
}

/// What follows a byte order mark or a `...` line, with filler before it.
fn behind_prefix_part(text: &str) -> Option<&str>
    ensures { IfTakesBefore spec.IsPrefixPart (chars text.now) result }
{
    match behind_mark(text) {
        None => behind_end_line(text),
        Some(rest) => Some(rest),
    }
}

/// What follows all of these that come first, where a document may begin.
pub(crate) fn behind_document_prefix(text: &str) -> &str
    ensures { TakesBefore grammar.IsDocumentPrefix (chars text.now) (chars result.now) }
{
    let mut rest = text;
    while let Some(behind) = behind_prefix_part(rest) {
        rest = behind;
    }
    rest
}

/// What follows a `...` line behind a document, and what may come before the next one.
pub(crate) fn behind_document_suffix(text: &str) -> Option<&str>
    ensures { IfTakesBefore grammar.IsDocumentSuffix (chars text.now) result }
{
    let rest = behind_end_line(text)?;
    Some(behind_document_prefix(rest))
}

/// What follows all byte order marks that come first, with filler before each.
pub(crate) fn behind_marks(text: &str) -> &str
    ensures { TakesOff (AreMany grammar.IsMarkBehindFiller) (chars text.now) (chars result.now) }
{
    let mut rest = text;
    while let Some(behind) = behind_mark(rest) {
        rest = behind;
    }
    rest
}

/// Whether a document marker begins a text, if a line begins there.
fn begins_marker(text: &str, begins_line: bool) -> bool
    ensures { result ≡ (begins_line && is_document_indicator (chars text.now)) }
{
    begins_line && is_document_marker(text)
}

/// Whether a document marker begins a line of a text, which is at a line's start or elsewhere.
pub(crate) fn has_marker(text: &str, at_start: bool) -> bool
    ensures { result ≡ grammar.has_marker at_start (chars text.now) }
{
    let mut rest = text;
    let mut begins_line = at_start;
    while let Some((c, behind)) = split(rest) {
        if begins_marker(rest, begins_line) {
            return true;
        }
        begins_line = c == '\n';
        rest = behind;
    }
    false
}

/// What follows `---`, which is no beginning of a word.
fn behind_start(text: &str) -> Option<&str>
    ensures { IfSome result (λ rest. chars text.now ≡ codes "---" ++ chars rest.now) }
{
    if is_document_marker(text) {
        behind_three(text, '-')
    } else {
        None
    }
}

/// What follows directives and `---`, where a document is free.
fn behind_directives_and_marker(alloc: Global, text: &str) -> Result<Option<&str>, AllocError>
    ensures { IfOk result (λ found. IfSome found (λ rest. TakesOff (spec.IsFront true)
        (chars text.now) (chars rest.now))) }
{
    let found = behind_directives(alloc, text)?;
    match found {
        None => Ok(None),
        Some(marker) => Ok(behind_start(marker)),
    }
}

/// What follows directives and `---`. Directives may be there where a document is free.
pub(crate) fn behind_marker(
    alloc: Global,
    text: &str,
    free: bool,
) -> Result<Option<&str>, AllocError>
    ensures { IfOk result (λ found. IfSome found (λ rest. TakesOff (spec.IsFront free)
        (chars text.now) (chars rest.now))) }
{
    if free {
        behind_directives_and_marker(alloc, text)
    } else {
        Ok(behind_start(text))
    }
}
