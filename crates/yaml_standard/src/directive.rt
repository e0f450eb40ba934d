//! Directives (YAML 1.2.2, 6.8), and the parts of tags (6.9.1).
ghost use Rattle.std.specs.Prelude.{◌≡◌, ◌∷◌, ◌==◌, ◌||◌, ◌++◌, codes, refl, IfOk, IfSome, IsTrue};
ghost use Rattle.std.specs.Str.{chars};
ghost use Rattle.saphyr_input.specs.Classes as class;
ghost use Rattle.saphyr_input.specs.Indicators.{exclamation_mark};
ghost use Rattle.yaml_standard.specs.Directives as spec;
ghost use Rattle.yaml_standard.specs.Percent.{AreSomeOf};
ghost use Rattle.yaml_standard.specs.Takes.{IfTakes, TakesOff};

use crate::declared::Declared;
use crate::front::{behind_run, behind_some, split, strip, text_before};
use crate::names::behind_handle;
use crate::percent::{behind_character, behind_decoded, behind_some_decoded};
use crate::spaces::{behind_filler, behind_line_rest, behind_some_blanks};
use saphyr_input::char_set::NonSpace;
use saphyr_input::char_traits::{is_digit, is_tag_char, is_uri_char};
use saphyr_input::{CharSet, NonBreak};
use std::alloc::{AllocError, Global};

// The characters of a uri.
struct UriSet;

impl CharSet for UriSet {
    ghost test = { class.is_uri_char };

    ghost without_nul = { refl };

    fn has(c: char) -> bool {
        is_uri_char(c)
    }

    fn has_ascii(byte: u8) -> bool {
        byte < 0x80 && is_uri_char(byte as char)
    }
}

// The characters of a tag's suffix.
struct SuffixSet;

impl CharSet for SuffixSet {
    ghost test = { class.is_tag_char };

    ghost without_nul = { refl };

    fn has(c: char) -> bool {
        is_tag_char(c)
    }

    fn has_ascii(byte: u8) -> bool {
        byte < 0x80 && is_tag_char(byte as char)
    }
}

// The first characters of a prefix.
struct PrefixSet;

impl CharSet for PrefixSet {
    ghost test = { λ c. class.is_tag_char c || (c == exclamation_mark) };

    ghost without_nul = { refl };

    fn has(c: char) -> bool {
        is_tag_char(c) || c == '!'
    }

    fn has_ascii(byte: u8) -> bool {
        byte < 0x80 && (is_tag_char(byte as char) || byte == b'!')
    }
}

/// What follows a uri, which has a character.
pub(crate) fn behind_uri(text: &str) -> Option<&str>
    ensures { IfTakes (AreSomeOf class.is_uri_char) (chars text.now) result }
{
    behind_some_decoded::<UriSet>(text)
}

/// What follows the suffix of a tag, which has a character.
pub(crate) fn behind_suffix(text: &str) -> Option<&str>
    ensures { IfTakes (AreSomeOf class.is_tag_char) (chars text.now) result }
{
    behind_some_decoded::<SuffixSet>(text)
}

// What follows a prefix.
fn behind_prefix(text: &str) -> Option<&str>
    ensures { IfTakes spec.IsSomePrefix (chars text.now) result }
{
    let rest = behind_character::<PrefixSet>(text)?;
    Some(behind_decoded::<UriSet>(rest))
}

// What follows the name of a tag directive.
fn behind_tag_name(text: &str) -> Option<&str>
    ensures { IfSome result (λ rest. chars text.now ≡ codes "%TAG" ++ chars rest.now) }
{
    let name = strip(text, '%')?;
    let second = strip(name, 'T')?;
    let third = strip(second, 'A')?;
    strip(third, 'G')
}

/// What a directive is: one with a version, one with a tag's prefix and this handle, or a reserved one.
#[derive(Clone, Copy)]
pub(crate) enum DirectiveKind<'a> {
    Version,
    TagPrefix(&'a str),
    Reserved,
}

// What follows a digit.
fn behind_digit(text: &str) -> Option<&str>
    ensures { IfSome result (λ rest. spec.BeginsWithDigit (chars text.now) (chars rest.now)) }
{
    let (digit, rest) = split(text)?;
    if is_digit(digit) { Some(rest) } else { None }
}

// What follows the first nine digits, or those that there are.
fn behind_number(text: &str) -> Option<&str>
    ensures { IfTakes spec.IsSomeNumber (chars text.now) result }
{
    let mut rest = behind_digit(text)?;
    for _ in 1..9usize {
        match behind_digit(rest) {
            None => return Some(rest),
            Some(behind) => rest = behind,
        }
    }
    Some(rest)
}

// What follows the name of a version directive.
fn behind_version_name(text: &str) -> Option<&str>
    ensures { IfSome result (λ rest. chars text.now ≡ codes "%YAML" ++ chars rest.now) }
{
    let name = strip(text, '%')?;
    let second = strip(name, 'Y')?;
    let third = strip(second, 'A')?;
    let fourth = strip(third, 'M')?;
    strip(fourth, 'L')
}

/// What follows a version directive.
pub(crate) fn behind_version(text: &str) -> Option<&str>
    ensures { IfTakes spec.IsSomeVersion (chars text.now) result }
{
    let blanks = behind_version_name(text)?;
    let major = behind_some_blanks(blanks)?;
    let dot = behind_number(major)?;
    let minor = strip(dot, '.')?;
    behind_number(minor)
}

/// The handle of a tag directive, and what follows the directive.
pub(crate) fn tag_prefix(text: &str) -> Option<(&str, &str)>
    ensures { IfSome result (λ front. TakesOff (spec.IsTagPrefixOf front.0.now) (chars text.now)
        (chars front.1.now)) }
{
    let blanks = behind_tag_name(text)?;
    let handle = behind_some_blanks(blanks)?;
    let second = behind_handle(handle)?;
    let prefix = behind_some_blanks(second)?;
    let rest = behind_prefix(prefix)?;
    Some((text_before(handle, second), rest))
}

// What follows a name of reserved directives.
fn behind_reserved_name(text: &str) -> Option<&str>
    ensures { IfTakes spec.IsReservedName (chars text.now) result }
{
    let rest = behind_some::<NonSpace>(text)?;
    let name = text_before(text, rest);
    if name == "YAML" {
        return None;
    }
    if name == "TAG" {
        return None;
    }
    Some(rest)
}

// What follows the rest of a line, if a blank begins it.
fn behind_parameters(text: &str) -> &str
    ensures { TakesOff spec.AreParameters (chars text.now) (chars result.now) }
{
    match behind_some_blanks(text) {
        None => text,
        Some(rest) => behind_run::<NonBreak>(rest),
    }
}

/// What follows a reserved directive, up to the end of its line.
pub(crate) fn behind_reserved(text: &str) -> Option<&str>
    ensures { IfTakes spec.IsSomeReserved (chars text.now) result }
{
    let name = strip(text, '%')?;
    let rest = behind_reserved_name(name)?;
    Some(behind_parameters(rest))
}

/// What a directive is, and what follows its line, which ends before the break.
pub(crate) fn behind_directive(text: &str) -> Option<(DirectiveKind<'_>, &str)>
    ensures { IfSome result (λ line. TakesOff (spec.IsDirectiveOf line.0) (chars text.now)
        (chars line.1.now)) }
{
    if let Some(tail) = behind_version(text) {
        return Some((DirectiveKind::Version, behind_line_rest(tail)));
    }
    if let Some((handle, tail)) = tag_prefix(text) {
        return Some((DirectiveKind::TagPrefix(handle), behind_line_rest(tail)));
    }
    let rest = behind_reserved(text)?;
    Some((DirectiveKind::Reserved, rest))
}

// What a directive is, and what follows its line and filler.
fn behind_directive_line(text: &str) -> Option<(DirectiveKind<'_>, &str)>
    ensures { IfSome result (λ line. TakesOff (spec.IsLineOf line.0) (chars text.now)
        (chars line.1.now)) }
{
    let (kind, end) = behind_directive(text)?;
    let line = strip(end, '\n')?;
    Some((kind, behind_filler(line)))
}

/// What follows the lines of directives that come first, with filler after each. It is `None` where two don't go
/// together: two with a version, or two with one handle.
pub(crate) fn behind_directives(alloc: Global, text: &str) -> Result<Option<&str>, AllocError>
    ensures { IfOk result (λ found. IfSome found (λ rest. TakesOff spec.AreSomeDirectives
        (chars text.now) (chars rest.now))) }
{
    let mut declared = Declared::new(alloc);
    let mut rest = text;
    while let Some((kind, line)) = behind_directive_line(rest) {
        if !declared.add(kind)? {
            return Ok(None);
        }
        rest = line;
    }
    Ok(Some(rest))
}
