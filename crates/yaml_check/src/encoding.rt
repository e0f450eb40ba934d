//! What is found in bytes that are no text.
ghost use Rattle.std.specs.Prelude.{◌≡◌, IfOk, take};
ghost use Rattle.std.specs.Str.Lossy.{utf8_valid_len};
ghost use Rattle.yaml_check.specs.Encoding as spec;

use crate::finding::{Finding, Findings, Notes, Problem, Verdict};
use crate::places::place_of_index;
use crate::view::characters;
use saphyr_parser::Marker;
use std::alloc::{AllocError, Global};

/// What is found in bytes that are not UTF-8.
pub(crate) fn not_utf8(alloc: Global, bytes: &[u8]) -> Result<Findings, AllocError>
    ensures { IfOk result (spec.IsFoundInOther bytes.now) }
{
    let place = place_behind(alloc, text_before(bytes))?;
    let mut list = Vec::new(alloc);
    list.push(Finding::at(place, problem_of(bytes)))?;
    Ok(Findings {
        verdict: Verdict::Wrong,
        list,
        notes: Notes::NONE,
        fault: None,
    })
}

/// The place behind a text.
fn place_behind(alloc: Global, text: &str) -> Result<Marker, AllocError>
    ensures { IfOk result (λ place. place ≡ spec.place_behind text.now) }
{
    let text = characters(alloc, text)?;
    let place = place_of_index(&text, text.len());
    drop(text);
    Ok(place)
}

/// What bytes are that are not UTF-8.
fn problem_of(bytes: &[u8]) -> Problem
    ensures { result ≡ spec.encoding_problem bytes.now }
{
    match bytes {
        // The mark of UTF-32 begins as that of UTF-16.
        [0xff, 0xfe, 0, 0, ..] => Problem::NotUtf8,
        [0xfe, 0xff, ..] | [0xff, 0xfe, ..] => Problem::Utf16,
        _ => Problem::NotUtf8,
    }
}

/// The text before the first byte that begins no character.
pub(crate) fn text_before(bytes: &[u8]) -> &str
    ensures { result.now ≡ take (utf8_valid_len bytes.now) bytes.now }
{
    match str::from_utf8(bytes) {
        Ok(text) => text,
        Err(error) => match str::from_utf8(&bytes[..error.valid_up_to()]) {
            Ok(text) => text,
            Err(_) => "",
        },
    }
}
