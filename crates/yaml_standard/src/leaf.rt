//! Leaves in flow style (YAML 1.2.2, 7.1 to 7.3), and their colon where they are keys (7.4.2). `in_flow` tells whether
//! they are inside brackets or braces, and `on_line` whether a key and its colon have to be on one line.
ghost use Rattle.std.specs.Prelude.{◌≡◌, ◌++◌, ℕ, List, true, false, IfSome, IsTrue};
ghost use Rattle.std.specs.Str.{chars};
ghost use Rattle.yaml_standard.specs.Leaves as spec;
ghost use Rattle.yaml_standard.specs.Takes.{IfTakes, TakesOff};
ghost use Rattle.yaml_standard.specs.declared.leaf.Class.TheVariants.{Quoted};

use crate::front::{front_before, is_past, split, strip};
use crate::plain::{behind_plain, behind_plain_key};
use crate::quoted::behind_quoted;
use crate::spaces::{behind_blanks, behind_separation};
use crate::tag::{behind_alias, behind_properties};
use saphyr_scalar::values::Quote;

/// What leaves are alike before a colon.
#[derive(Clone, Copy)]
pub(crate) enum Class {
    /// Aliases, and properties alone: a colon right after them would belong to their name.
    Named,
    Plain,
    /// Scalars in quotes: a value may come right after their colon.
    Quoted,
}

impl Class {
    // Whether it is that of scalars in quotes.
    fn is_quoted(self) -> bool
        ensures { IsTrue result → self ≡ Quoted }
    {
        matches!(self, Class::Quoted)
    }
}

/// What follows properties and separation, if both are there, and otherwise the text.
pub(crate) fn behind_front(text: &str, indent: usize) -> &str
    ensures { TakesOff (spec.IsSomeFront indent) (chars text.now) (chars result.now) }
{
    let Some(properties) = behind_properties(text, indent) else {
        return text;
    };
    let content = behind_separation(properties, indent);
    if is_past(properties, content) {
        content
    } else {
        text
    }
}

/// What follows a scalar in quotes.
pub(crate) fn behind_some_quoted(text: &str, indent: usize) -> Option<&str>
    ensures { IfTakes (spec.IsSomeQuoted indent) (chars text.now) result }
{
    match behind_quoted(text, Quote::Single, indent) {
        None => behind_quoted(text, Quote::Double, indent),
        Some(rest) => Some(rest),
    }
}

// The class of a leaf, and what follows it.
fn classed_leaf(text: &str, in_flow: bool, indent: usize) -> Option<(Class, &str)>
    ensures { IfSome result (λ leaf. TakesOff (spec.IsLeafOf leaf.0 in_flow indent)
        (chars text.now) (chars leaf.1.now)) }
{
    if let Some(rest) = behind_alias(text) {
        return Some((Class::Named, rest));
    }
    let content = behind_front(text, indent);
    if let Some(rest) = behind_some_quoted(content, indent) {
        return Some((Class::Quoted, rest));
    }
    if let Some(rest) = behind_plain(content, in_flow, indent) {
        return Some((Class::Plain, rest));
    }
    let rest = behind_properties(text, indent)?;
    Some((Class::Named, rest))
}

/// What follows an alias, a scalar with its properties, or properties alone.
pub(crate) fn behind_leaf(text: &str, in_flow: bool, indent: usize) -> Option<&str>
    ensures { IfTakes (spec.IsLeaf in_flow indent) (chars text.now) result }
{
    let (_, rest) = classed_leaf(text, in_flow, indent)?;
    Some(rest)
}

// ## Keys

// Whether the text has no break, and 1,024 characters at most.
fn is_short(text: &str) -> bool
    ensures { IsTrue result → spec.IsShortLine (chars text.now) }
{
    let mut rest = text;
    for _ in 0..1025usize {
        let Some((c, behind)) = split(rest) else {
            return true;
        };
        if c == '\n' {
            return false;
        }
        rest = behind;
    }
    false
}

/// Whether what comes before `rest` is so.
pub(crate) fn is_short_line(text: &str, rest: &str) -> bool
    ensures { IsTrue result → (n : List ℕ) → chars text.now ≡ n ++ chars rest.now
        → spec.IsShortLine n }
{
    match front_before(text, rest) {
        None => false,
        Some(front) => is_short(front),
    }
}

// The same, if a key has to be on one line.
fn fits(text: &str, rest: &str, on_line: bool) -> bool
    ensures { IsTrue result → on_line ≡ true → (n : List ℕ) → chars text.now ≡ n ++ chars rest.now
        → spec.IsShortLine n }
{
    !on_line || is_short_line(text, rest)
}

// What follows separation, which on a key's line is of blanks.
fn behind_key_separation(text: &str, on_line: bool, indent: usize) -> &str
    ensures { TakesOff (spec.IsKeySeparation on_line indent) (chars text.now) (chars result.now) }
{
    if on_line {
        return behind_blanks(text);
    }
    behind_separation(text, indent)
}

// What follows the separation before the colon of a leaf.
fn behind_leaf_separation(text: &str, class: Class, on_line: bool, indent: usize) -> Option<&str>
    ensures { IfTakes (spec.IsBehindLeaf class on_line indent) (chars text.now) result }
{
    let rest = behind_key_separation(text, on_line, indent);
    match class {
        Class::Named if !is_past(text, rest) => None,
        _ => Some(rest),
    }
}

// What follows the colon right after a plain scalar that may end with a colon.
fn behind_plain_key_and_colon(
    text: &str,
    in_flow: bool,
    indent: usize,
    on_line: bool,
) -> Option<&str>
    ensures { IfTakes (spec.IsKeyAndColon in_flow indent on_line false) (chars text.now) result }
{
    let content = behind_front(text, indent);
    let key = behind_plain_key(content, in_flow, indent)?;
    if !fits(text, key, on_line) {
        return None;
    }
    strip(key, ':')
}

/// What follows the colon of a key that is a leaf, and whether a value may come right after it.
pub(crate) fn behind_key_and_colon(
    text: &str,
    in_flow: bool,
    indent: usize,
    on_line: bool,
) -> Option<(&str, bool)>
    ensures { IfSome result (λ r. TakesOff (spec.IsKeyAndColon in_flow indent on_line r.1)
        (chars text.now) (chars r.0.now)) }
{
    if let Some(rest) = behind_plain_key_and_colon(text, in_flow, indent, on_line) {
        return Some((rest, false));
    }
    let (class, key) = classed_leaf(text, in_flow, indent)?;
    let colon = behind_leaf_separation(key, class, on_line, indent)?;
    if !fits(text, colon, on_line) {
        return None;
    }
    let rest = strip(colon, ':')?;
    Some((rest, class.is_quoted()))
}
