//! Characters of tags and prefixes, each of which may be written by percent escapes (YAML 1.2.2, 5.6 and 6.9.1).
ghost use Rattle.std.specs.Prelude.{IfSome};
ghost use Rattle.std.specs.Str.{chars};
ghost use Rattle.saphyr_scalar.specs.Spelling.Tag.{IsByteEscape, AreByteEscapes};
ghost use Rattle.yaml_standard.specs.Percent as spec;
ghost use Rattle.yaml_standard.specs.Takes.{IfTakes, TakesOff};

use crate::front::{split, strip};
use crate::quoted::is_scalar_value;
use saphyr_input::CharSet;
use saphyr_input::char_traits::{as_hex, is_hex};

// A byte, and what follows its escape.
fn escaped_byte(text: &str) -> Option<(u32, &str)>
    ensures { IfSome result (λ front. TakesOff (IsByteEscape front.0) (chars text.now)
        (chars front.1.now)) }
{
    let digits = strip(text, '%')?;
    let (high, second) = split(digits)?;
    let (low, rest) = split(second)?;
    if !is_hex(high) {
        return None;
    }
    if !is_hex(low) {
        return None;
    }
    Some((as_hex(high) * 16 + as_hex(low), rest))
}

// What follows the escapes of these bytes.
#[tactic(auto, using(crate::proofs::Escapes::no_bytes))]
fn behind_bytes<'a>(text: &'a str, bytes: &[u8]) -> Option<&'a str>
    ensures { IfTakes (AreByteEscapes bytes.now) (chars text.now) result }
{
    let mut rest = text;
    for i in 0..bytes.len() {
        let (byte, behind) = escaped_byte(rest)?;
        if byte != u32::from(bytes[i]) {
            return None;
        }
        rest = behind;
    }
    Some(rest)
}

// The character that escapes may stand for. Its caller tests whether they do.
fn guessed_character(text: &str) -> Option<char> {
    let (first, mut rest) = escaped_byte(text)?;
    let (mut value, count) = match first {
        0x00..=0x7F => (first, 0),
        0xC0..=0xDF => (first - 0xC0, 1),
        0xE0..=0xEF => (first - 0xE0, 2),
        _ => (first.wrapping_sub(0xF0), 3),
    };
    for _ in 0..count {
        let (byte, behind) = escaped_byte(rest)?;
        value = value.wrapping_mul(64).wrapping_add(byte.wrapping_sub(0x80));
        rest = behind;
    }
    char::from_u32(value)
}

// What follows the escapes of a character.
fn behind_escapes(text: &str) -> Option<&str>
    ensures { IfTakes spec.IsEscaped (chars text.now) result }
{
    let c = guessed_character(text)?;
    if !is_scalar_value(u32::from(c)) {
        return None;
    }
    let mut bytes = [0u8; 4];
    let encoded = c.encode_utf8(&mut bytes);
    behind_bytes(text, encoded.as_bytes())
}

// What follows a character of a set, as it is or by escapes.
pub(crate) fn behind_character<C: CharSet>(text: &str) -> Option<&str>
    ensures { IfTakes (spec.IsOneOf C.test) (chars text.now) result }
{
    let (first, rest) = split(text)?;
    if first == '%' {
        return behind_escapes(text);
    }
    if C::has(first) { Some(rest) } else { None }
}

/// What follows any number of such characters.
pub(crate) fn behind_decoded<C: CharSet>(text: &str) -> &str
    ensures { TakesOff (spec.AreOf C.test) (chars text.now) (chars result.now) }
{
    let mut rest = text;
    for _ in 0..text.len() {
        match behind_character::<C>(rest) {
            None => return rest,
            Some(behind) => rest = behind,
        }
    }
    rest
}

/// What follows such characters, if some come first.
pub(crate) fn behind_some_decoded<C: CharSet>(text: &str) -> Option<&str>
    ensures { IfTakes (spec.AreSomeOf C.test) (chars text.now) result }
{
    let rest = behind_character::<C>(text)?;
    Some(behind_decoded::<C>(rest))
}
