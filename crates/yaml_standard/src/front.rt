//! Takes characters off the front of a text.
ghost use Rattle.std.specs.Prelude.{◌≡◌, ◌≢◌, ℕ, List, [], ◌∷◌, ◌++◌, encode_utf8_all, IfNone, IfSome, IsTrue};
ghost use Rattle.std.specs.Str.{chars};
ghost use Rattle.saphyr_input.specs.Places.{is_document_indicator};
ghost use Rattle.saphyr_scalar.specs.Spelling.Tag.{AreIn};
ghost use Rattle.yaml_standard.specs.Takes.{IfTakes, TakesOff};

use saphyr_input::{CharSet, Input, StrInput};

/// The first character, and what follows it.
#[inline]
pub(crate) fn split(text: &str) -> Option<(char, &str)>
    ensures some { IfSome result (λ front. chars text.now ≡ front.0 ∷ chars front.1.now) }
    ensures none { IfNone result (chars text.now ≡ []) }
{
    let mut rest = text.chars();
    let first = rest.next()?;
    Some((first, rest.as_str()))
}

/// Whether nothing is left.
#[inline]
pub(crate) fn is_end(text: &str) -> bool
    ensures { IsTrue result → chars text.now ≡ [] }
{
    split(text).is_none()
}

/// What follows the character `c`, if it comes first.
#[inline]
pub(crate) fn strip(text: &str, c: char) -> Option<&str>
    ensures { IfSome result (λ rest. chars text.now ≡ c ∷ chars rest.now) }
{
    let (first, rest) = split(text)?;
    if first == c { Some(rest) } else { None }
}

/// Whether `---` or `...` comes first, and after it a blank, a break, NUL or the end.
pub(crate) fn is_document_marker(text: &str) -> bool
    ensures { result ≡ is_document_indicator (chars text.now) }
{
    let mut input = StrInput::new(text);
    input.lookahead(4);
    input.next_is_document_indicator()
}

/// Whether something comes before `rest`, which is what follows some place of the text.
pub(crate) fn is_past(text: &str, rest: &str) -> bool
    ensures { IsTrue result → (n : List ℕ) → chars text.now ≡ n ++ chars rest.now → n ≢ [] }
{
    rest.len() < text.len()
}

/// The text from `start` up to `rest`, which is what follows some place of it.
pub(crate) fn front_before<'a>(start: &'a str, rest: &str) -> Option<&'a str>
    ensures { IfSome result (λ front. (n : List ℕ) → chars start.now ≡ n ++ chars rest.now
        → chars front.now ≡ n) }
{
    let front = start.get(..start.len().saturating_sub(rest.len()))?;
    Some(front)
}

/// What comes before `rest`, which is the text's end.
pub(crate) fn text_before<'a>(text: &'a str, rest: &str) -> &'a str
    requires { (piece : List ℕ) × (chars text.now ≡ piece ++ chars rest.now) }
    ensures { (piece : List ℕ) → chars text.now ≡ piece ++ chars rest.now
        → result.now ≡ encode_utf8_all piece }
{
    &text[..text.len() - rest.len()]
}

/// What follows the characters of a set that come first.
pub(crate) fn behind_run<C: CharSet>(text: &str) -> &str
    ensures { TakesOff (AreIn C.test) (chars text.now) (chars result.now) }
{
    let mut input = StrInput::new(text);
    input.skip_while::<C>();
    input.as_str()
}

/// What follows the characters of a set, of which one at least comes first.
pub(crate) fn behind_some<C: CharSet>(text: &str) -> Option<&str>
    ensures { IfTakes (λ t. (t ≢ []) × AreIn C.test t) (chars text.now) result }
{
    let (first, rest) = split(text)?;
    if C::has(first) {
        Some(behind_run::<C>(rest))
    } else {
        None
    }
}
