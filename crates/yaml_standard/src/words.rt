//! Words of plain scalars (YAML 1.2.2, 7.3.3), inside flow and outside.
ghost use Rattle.std.specs.Prelude.{◌≡◌, ◌==◌, true, false};
ghost use Rattle.std.specs.Str.{chars};
ghost use Rattle.saphyr_input.specs.Indicators.{colon};
ghost use Rattle.saphyr_scalar.specs.Spelling.Tag.{AreIn};
ghost use Rattle.scalar_laws.specs.Spelling.Plain as plain;
ghost use Rattle.yaml_standard.specs.Takes.{IfTakes, TakesOff};
ghost use Rattle.yaml_standard.specs.Words as spec;

use crate::front::{split, strip};
use saphyr_input::char_traits::{is_blank_or_breakz, is_bom, is_flow};

// Whether a word may have the character.
pub(crate) fn is_plain_safe(c: char, in_flow: bool) -> bool
    ensures { result ≡ plain.is_plain_safe in_flow c }
{
    !is_blank_or_breakz(c) && !is_bom(c) && !(in_flow && is_flow(c))
}

// What follows the colons that come first.
fn behind_colons(text: &str) -> &str
    ensures { TakesOff (AreIn (λ c. c == colon)) (chars text.now) (chars result.now) }
{
    let mut rest = text;
    while let Some(behind) = strip(rest, ':') {
        rest = behind;
    }
    rest
}

// What follows colons, or none, and a character of words that is no colon.
fn behind_safe_part(text: &str, in_flow: bool) -> Option<&str>
    ensures { IfTakes (spec.IsSafePart in_flow) (chars text.now) result }
{
    let rest = behind_colons(text);
    let (c, behind) = split(rest)?;
    if c == ':' {
        return None;
    }
    if is_plain_safe(c, in_flow) {
        Some(behind)
    } else {
        None
    }
}

// What follows the characters of words that come first, up to the last that is no colon.
fn behind_safe(text: &str, in_flow: bool) -> &str
    ensures { TakesOff (plain.ArePlainSafe in_flow) (chars text.now) (chars result.now) }
{
    let mut rest = text;
    while let Some(part) = behind_safe_part(rest, in_flow) {
        rest = part;
    }
    rest
}

// What follows one such character or more.
pub(crate) fn behind_some_safe(text: &str, in_flow: bool) -> Option<&str>
    ensures { IfTakes (spec.AreSomeSafe in_flow) (chars text.now) result }
{
    let rest = behind_safe_part(text, in_flow)?;
    Some(behind_safe(rest, in_flow))
}

// What follows a word outside flow.
fn behind_word_outside(text: &str) -> Option<&str>
    ensures { IfTakes (plain.IsWordIn false) (chars text.now) result }
{
    let (first, _) = split(text)?;
    if first == '#' {
        return None;
    }
    behind_some_safe(text, false)
}

// What follows a word inside flow that begins with no `-`.
fn behind_undashed_word(text: &str) -> Option<&str>
    ensures { IfTakes (plain.IsWordIn true) (chars text.now) result }
{
    let (first, _) = split(text)?;
    if first == '#' {
        return None;
    }
    if first == '-' {
        return None;
    }
    behind_some_safe(text, true)
}

// What follows a word inside flow, which is no lone `-`.
fn behind_word_in_flow(text: &str) -> Option<&str>
    ensures { IfTakes (plain.IsWordIn true) (chars text.now) result }
{
    match strip(text, '-') {
        None => behind_undashed_word(text),
        Some(second) => behind_some_safe(second, true),
    }
}

/// What follows a word, the longest that is there.
pub(crate) fn behind_word(text: &str, in_flow: bool) -> Option<&str>
    ensures { IfTakes (plain.IsWordIn in_flow) (chars text.now) result }
{
    if in_flow {
        return behind_word_in_flow(text);
    }
    behind_word_outside(text)
}
