//! Findings as objects of JSON, one a line.
ghost use Rattle.std.specs.Prelude.{◌≡◌, ◌++◌, ◌<◌, OnOk, string_bytes};
ghost use Rattle.std.specs.Str.{chars};
ghost use Rattle.yaml_check.specs.Json as spec;
ghost use Rattle.yaml_check.specs.ToldSeen.{told_of};

use crate::told::Told;
use crate::view::characters;
use saphyr_parser::{Marker, Span};
use std::alloc::{AllocError, Global};

/// Appends the characters of a text as they are in a string of JSON.
pub(crate) fn push_escaped(alloc: Global, out: &mut String, text: &str) -> Result<(), AllocError>
    ensures { OnOk result (string_bytes out.new
        ≡ string_bytes out.old ++ spec.json_characters (chars text.now)) }
{
    let text = characters(alloc, text)?;
    let pushed = push_all_escaped(out, &text);
    drop(text);
    pushed
}

/// Appends characters as they are in a string of JSON.
fn push_all_escaped(out: &mut String, characters: &[char]) -> Result<(), AllocError>
    ensures { OnOk result (string_bytes out.new
        ≡ string_bytes out.old ++ spec.json_characters characters.now) }
{
    for c in characters {
        push_one_escaped(out, *c)?;
    }
    Ok(())
}

/// Appends a character: quotes, backslashes and control characters are escapes.
fn push_one_escaped(out: &mut String, c: char) -> Result<(), AllocError>
    ensures { OnOk result (string_bytes out.new ≡ string_bytes out.old ++ spec.json_character c) }
{
    if c < ' ' {
        out.push_str("\\u00")?;
        out.push(hexadecimal_digit(c as u8 / 16))?;
        return out.push(hexadecimal_digit(c as u8 % 16));
    }
    if c == '"' || c == '\\' {
        out.push('\\')?;
    }
    out.push(c)
}

fn hexadecimal_digit(value: u8) -> char
    requires { value < 16 }
    ensures { result ≡ spec.hexadecimal_digit value }
{
    if value < 10 {
        char::from(b'0' + value)
    } else {
        char::from(b'a' - 10 + value)
    }
}

/// Appends the object of what is told of a file whose name is escaped.
pub(crate) fn push_object(
    alloc: Global,
    out: &mut String,
    name: &str,
    told: &Told,
) -> Result<(), AllocError>
    ensures { OnOk result (string_bytes out.new
        ≡ string_bytes out.old ++ spec.object name.now (told_of told.now)) }
{
    push_front(out, name, told.span)?;
    push_back(alloc, out, told)
}

/// Appends what tells the file and the part of its text.
fn push_front(out: &mut String, name: &str, span: Span) -> Result<(), AllocError>
    ensures { OnOk result (string_bytes out.new
        ≡ string_bytes out.old ++ spec.object_front name.now span) }
{
    write!(out, "{{\"file\":\"{name}\",")?;
    push_place(out, span.start)?;
    out.push_str(",\"end\":{")?;
    push_place(out, span.end)?;
    out.push_str("},")
}

/// Appends what is told of it.
fn push_back(alloc: Global, out: &mut String, told: &Told) -> Result<(), AllocError>
    ensures { OnOk result (string_bytes out.new
        ≡ string_bytes out.old ++ spec.object_back (told_of told.now)) }
{
    push_words(out, told.rule, told.severity.word())?;
    push_escaped(alloc, out, told.message)?;
    out.push_str("\"}\n")
}

/// Appends the names of a rule and of a severity.
fn push_words(out: &mut String, rule: &str, severity: &str) -> Result<(), AllocError>
    ensures { OnOk result (string_bytes out.new
        ≡ string_bytes out.old ++ spec.object_words rule.now severity.now) }
{
    write!(
        out,
        "\"rule\":\"{rule}\",\"severity\":\"{severity}\",\"message\":\""
    )
}

/// Appends a place.
#[tactic(auto, unfolding(crate::specs::Json::place))]
fn push_place(out: &mut String, place: Marker) -> Result<(), AllocError>
    ensures { OnOk result (string_bytes out.new ≡ string_bytes out.old ++ spec.place place) }
{
    let column = place.col as u128 + 1;
    write!(out, "\"line\":{},\"column\":{column}", place.line)
}
