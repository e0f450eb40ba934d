//! Scalars in quotes (YAML 1.2.2, 7.3.1 and 7.3.2). Each later line begins with `indent` spaces, or has spaces alone.
ghost use Rattle.std.specs.Prelude.{◌≡◌, ◌≤◌, drop, slice_index, IfSome, IsTrue};
ghost use Rattle.std.specs.Str.{chars};
ghost use Rattle.saphyr_input.specs.Classes.{is_break};
ghost use Rattle.saphyr_scalar.specs.Spelling.Quoted as text;
ghost use Rattle.saphyr_scalar.specs.Values.Escapes as escapes;
ghost use Rattle.saphyr_scalar.specs.declared.values.Quote.TheVariants.{Single, Double};
ghost use Rattle.scalar_laws.specs.Spelling.QuotedLines.{space_count, IsLine};
ghost use Rattle.yaml_standard.specs.Quotes as spec;
ghost use Rattle.yaml_standard.specs.Takes.{IfTakes};

use crate::front::{is_document_marker, split, strip};
use crate::spaces::{behind_all_spaces, behind_blanks, behind_spaces};
use saphyr_input::char_traits::{as_hex, is_breakz, is_hex};
use saphyr_scalar::values::{Quote, digit_count, short_escape};

// Whether so many spaces come first, or more.
fn is_indented(text: &str, indent: usize) -> bool
    ensures { IsTrue result → indent ≤ space_count (chars text.now) }
{
    behind_spaces(text, indent).is_some()
}

// Whether the line has spaces alone.
fn is_of_spaces(text: &str) -> bool
    ensures { IsTrue result → IsTrue (is_break (slice_index
        (drop (space_count (chars text.now)) (chars text.now)) 0)) }
{
    let rest = behind_all_spaces(text);
    strip(rest, '\n').is_some()
}

// Whether a later line of a scalar may begin as the text does.
fn is_line(text: &str, indent: usize) -> bool
    ensures { IsTrue result → IsLine indent (chars text.now) }
{
    !is_document_marker(text) && (is_indented(text, indent) || is_of_spaces(text))
}

// What follows a break, if it is a later line of a scalar.
fn behind_break(text: &str, indent: usize) -> Option<&str>
    ensures { IfSome result (λ rest. spec.BeginsLine (IsLine indent) (chars text.now)
        (chars rest.now)) }
{
    let line = strip(text, '\n')?;
    if is_line(line, indent) {
        Some(line)
    } else {
        None
    }
}

// Whether a number is that of a character.
pub(crate) fn is_scalar_value(value: u32) -> bool
    ensures { result ≡ escapes.is_scalar_value value }
{
    value < 0xD800 || value >= 0xE000 && value <= 0x10FFFF
}

// What follows hexadecimal digits, of which there are so many, if they stand for a character.
#[tactic(auto, using(crate::proofs::Quotes::digit_more, crate::proofs::Quotes::no_digits))]
fn behind_digits(text: &str, count: usize) -> Option<&str>
    ensures { IfSome result (λ rest. spec.AreDigitsOf count (chars text.now) (chars rest.now)) }
{
    let mut rest = text;
    let mut value = 0u32;
    for _ in 0..count {
        let (digit, behind) = split(rest)?;
        // Past the last character it can only grow.
        if !is_hex(digit) || value > 0x10FFFF {
            return None;
        }
        value = value * 16 + as_hex(digit);
        rest = behind;
    }
    if is_scalar_value(value) {
        Some(rest)
    } else {
        None
    }
}

// What follows an escape in double quotes, from its backslash on.
fn behind_escape(text: &str, indent: usize) -> Option<&str>
    ensures { IfSome result (λ rest. spec.PassesPart Double indent (chars text.now)
        (chars rest.now)) }
{
    let letter = strip(text, '\\')?;
    if let Some(line) = behind_break(letter, indent) {
        return Some(line);
    }
    let (name, rest) = split(letter)?;
    if let Some(_character) = short_escape(name) {
        return Some(rest);
    }
    let count = digit_count(name)?;
    behind_digits(rest, count)
}

// What follows two single quotes, which stand for one.
fn behind_two(text: &str, indent: usize) -> Option<&str>
    ensures { IfSome result (λ rest. spec.PassesPart Single indent (chars text.now)
        (chars rest.now)) }
{
    let second = strip(text, '\'')?;
    strip(second, '\'')
}

// Whether a character is no break and stands for itself.
fn stands_for_itself(c: char, quote: Quote) -> bool
    ensures { result ≡ text.stands_for_itself quote c }
{
    match quote {
        Quote::Single => !is_breakz(c) && c != '\'',
        Quote::Double => !is_breakz(c) && !(c == '"' || c == '\\'),
    }
}

// Whether a break comes first, escaped or not, and the next line has white space alone before an escaped break. The
// grammar allows it, and the standard doesn't ([115], [116]).
fn is_escaped_again(text: &str) -> bool {
    let rest = match strip(text, '\\') {
        None => text,
        Some(rest) => rest,
    };
    match strip(rest, '\n') {
        None => false,
        Some(line) => behind_blanks(line).starts_with("\\\n"),
    }
}

// What follows a part of a scalar that is not its closing quote.
fn behind_part(text: &str, quote: Quote, indent: usize) -> Option<&str>
    ensures { IfSome result (λ rest. spec.PassesPart quote indent (chars text.now)
        (chars rest.now)) }
{
    if matches!(quote, Quote::Double) && is_escaped_again(text) {
        return None;
    }
    if let Some(line) = behind_break(text, indent) {
        return Some(line);
    }
    let (first, rest) = split(text)?;
    if stands_for_itself(first, quote) {
        return Some(rest);
    }
    match quote {
        Quote::Single => behind_two(text, indent),
        Quote::Double => behind_escape(text, indent),
    }
}

// What follows the closing quote of a scalar, from behind its opening one on.
fn behind_inside(text: &str, quote: Quote, indent: usize) -> Option<&str>
    ensures { IfTakes (spec.EndsInside quote indent) (chars text.now) result }
{
    let mut rest = text;
    while let Some(part) = behind_part(rest, quote, indent) {
        rest = part;
    }
    strip(rest, quote.mark())
}

/// What follows a scalar in these quotes, from its opening quote on.
pub(crate) fn behind_quoted(text: &str, quote: Quote, indent: usize) -> Option<&str>
    ensures { IfTakes (spec.IsQuotedScalar quote indent) (chars text.now) result }
{
    let inside = strip(text, quote.mark())?;
    behind_inside(inside, quote, indent)
}
