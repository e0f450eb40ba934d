//! Headers of block scalars (YAML 1.2.2, 8.1.1).
ghost use Rattle.std.specs.Prelude.{ℕ, ◌∷◌, IfSome};
ghost use Rattle.std.specs.Str.{chars};
ghost use Rattle.scalar_laws.specs.Spelling.Block as spec;

use crate::front::{is_end, split, strip};
use crate::spaces::behind_line_rest;
use saphyr_scalar::values::Chomping;

// What follows a header's line, behind its indicators. The text's last line may lack its break.
fn behind_header_end(text: &str) -> Option<&str>
    ensures { IfSome result (λ rest. spec.IsHeaderEnd (chars text.now) (chars rest.now)) }
{
    let rest = behind_line_rest(text);
    if is_end(rest) {
        return Some(rest);
    }
    strip(rest, '\n')
}

// The indentation that a digit gives, and what follows it.
#[tactic(auto, using(crate::proofs::Headers::digit_taken))]
fn digit(text: &str) -> Option<(usize, &str)>
    ensures { IfSome result (λ front. spec.IsIndicator front.0 (chars text.now)
        (chars front.1.now)) }
{
    let (c, rest) = split(text)?;
    if c < '1' {
        return None;
    }
    if c > '9' {
        return None;
    }
    Some((c as usize - 48, rest))
}

// An indentation indicator or none, which gives 0, and what follows it.
fn indicator(text: &str) -> (usize, &str)
    ensures { spec.IsIndicator result.0 (chars text.now) (chars result.1.now) }
{
    match digit(text) {
        None => (0, text),
        Some(front) => front,
    }
}

// What becomes of the last breaks, and what follows the indicator of that.
fn chomping(text: &str) -> (Chomping, &str)
    ensures { spec.IsChomping result.0 (chars text.now) (chars result.1.now) }
{
    if let Some(rest) = strip(text, '-') {
        return (Chomping::Strip, rest);
    }
    if let Some(rest) = strip(text, '+') {
        return (Chomping::Keep, rest);
    }
    (Chomping::Clip, text)
}

// A header from behind its first character on, the digit before what becomes of the last breaks: both, and what follows
// the header's line.
fn digit_first(text: &str) -> Option<(usize, Chomping, &str)>
    ensures { IfSome result (λ header. (mark : ℕ) → spec.IsHeader header.0 header.1
        (chars header.2.now) (mark ∷ chars text.now)) }
{
    let (digit, behind) = indicator(text);
    let (kind, end) = chomping(behind);
    let rest = behind_header_end(end)?;
    Some((digit, kind, rest))
}

// A header from behind its first character on, what becomes of the last breaks before the digit.
fn chomping_first(text: &str) -> Option<(usize, Chomping, &str)>
    ensures { IfSome result (λ header. (mark : ℕ) → spec.IsHeader header.0 header.1
        (chars header.2.now) (mark ∷ chars text.now)) }
{
    let (kind, behind) = chomping(text);
    let (digit, end) = indicator(behind);
    let rest = behind_header_end(end)?;
    Some((digit, kind, rest))
}

/// A header from behind its first character on: its digit, what becomes of the last breaks, and what follows its line.
pub(crate) fn behind_header(text: &str) -> Option<(usize, Chomping, &str)>
    ensures { IfSome result (λ header. (mark : ℕ) → spec.IsHeader header.0 header.1
        (chars header.2.now) (mark ∷ chars text.now)) }
{
    let (digit, _) = indicator(text);
    if digit > 0 {
        digit_first(text)
    } else {
        chomping_first(text)
    }
}
