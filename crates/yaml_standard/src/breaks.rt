//! Line breaks of a text (YAML 1.2.2, 5.4).
ghost use Rattle.std.specs.Prelude.{◌≡◌, ◌==◌, ◌++◌, slice_index, IfOk, IsFalse, OnOk, encode_utf8_all, string_bytes};
ghost use Rattle.std.specs.Str.{chars};
ghost use Rattle.saphyr_input.specs.Breaks as spec;
ghost use Rattle.saphyr_input.specs.Classes.{line_feed};

use crate::front::split;
use std::alloc::{AllocError, Global};

/// Whether a text has a carriage return. In one without it all breaks are line feeds.
pub(crate) fn has_return(text: &str) -> bool
    ensures { IsFalse result → spec.normalized (chars text.now) ≡ chars text.now }
{
    let mut rest = text;
    while let Some((c, behind)) = split(rest) {
        if c == '\r' {
            return true;
        }
        rest = behind;
    }
    false
}

/// Whether a line feed comes first.
fn begins_with_feed(text: &str) -> bool
    ensures { result ≡ (slice_index (chars text.now) 0 == line_feed) }
{
    match split(text) {
        None => false,
        Some((first, _)) => first == '\n',
    }
}

/// Writes what a character becomes before others: a carriage return before a line feed goes, and another is a line
/// feed.
fn push_normal(copy: &mut String, c: char, behind: &str) -> Result<(), AllocError>
    ensures { OnOk result (string_bytes copy.new
        ≡ string_bytes copy.old ++ encode_utf8_all (spec.normal_break c (chars behind.now))) }
{
    if c != '\r' {
        copy.push(c)?;
        return Ok(());
    }
    if begins_with_feed(behind) {
        return Ok(());
    }
    copy.push('\n')?;
    Ok(())
}

/// The text with each break made a line feed.
pub(crate) fn with_line_feeds(alloc: Global, text: &str) -> Result<String, AllocError>
    ensures { IfOk result (λ copy. chars (string_bytes copy) ≡ spec.normalized (chars text.now)) }
{
    let mut copy = String::new(alloc);
    let mut rest = text;
    while let Some((c, behind)) = split(rest) {
        push_normal(&mut copy, c, behind)?;
        rest = behind;
    }
    Ok(copy)
}
