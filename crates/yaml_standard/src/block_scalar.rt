//! Block scalars (YAML 1.2.2, 8.1). `indent` is the first column to the right of the enclosing block collection, and
//! `indentation` the column at which the scalar's content begins.
ghost use Rattle.std.specs.Prelude.{IfSome, IsTrue};
ghost use Rattle.std.specs.Str.{chars};
ghost use Rattle.yaml_standard.specs.BlockLines.{MayFollowEmpty};
ghost use Rattle.yaml_standard.specs.BlockScalars as spec;
ghost use Rattle.yaml_standard.specs.Takes.{IfTakes, IfTakesBefore};

use crate::block_body::{behind_content_body, behind_empty_body, indentation};
use crate::block_end::end_column;
use crate::block_lines::first;
use crate::front::{is_end, split};
use crate::header::behind_header;
use crate::spaces::behind_gap;
use crate::tag::behind_properties;

// Whether this may follow a scalar without content, after `column` spaces.
fn may_follow_empty(text: &str, indent: usize, indentation: usize, column: usize) -> bool
    ensures { IsTrue result → MayFollowEmpty indent indentation column (chars text.now) }
{
    column < indent || indentation == 0 || is_end(text)
}

// What follows a scalar without content, from behind its header on.
fn behind_empty_scalar(text: &str, indent: usize, indentation: usize) -> Option<&str>
    ensures { IfSome result (λ rest. spec.IsEmptyBefore indent indentation (chars text.now)
        (chars rest.now)) }
{
    let rest = behind_empty_body(text, indentation);
    let column = end_column(rest, indent, indentation)?;
    if may_follow_empty(rest, indent, indentation, column) {
        Some(rest)
    } else {
        None
    }
}

// What follows a scalar, from behind its header on.
fn behind_body(text: &str, indent: usize, indentation: usize, is_given: bool) -> Option<&str>
    ensures { IfSome result (λ rest. spec.IsBodyBefore indent indentation is_given
        (chars text.now) (chars rest.now)) }
{
    match behind_content_body(text, indentation, is_given) {
        None => behind_empty_scalar(text, indent, indentation),
        Some(rest) => {
            let _column = end_column(rest, indent, indentation)?;
            Some(rest)
        }
    }
}

/// What follows a block scalar, from `|` or `>` on.
pub(crate) fn behind_block_scalar(text: &str, indent: usize) -> Option<&str>
    ensures { IfTakesBefore (spec.IsSomeBlockScalar indent) (chars text.now) result }
{
    let (mark, header) = split(text)?;
    if mark != '|' && mark != '>' {
        return None;
    }
    let (digit, _chomping, body) = behind_header(header)?;
    if first(body) == '\t' {
        return None;
    }
    let column = indentation(body, indent, digit)?;
    behind_body(body, indent, column, digit > 0)
}

// What follows the properties of a scalar and the gap after them, or all where there are none.
fn behind_scalar_front(text: &str, indent: usize) -> Option<&str>
    ensures { IfTakes (spec.IsSomeScalarFront indent) (chars text.now) result }
{
    match behind_properties(text, indent) {
        None => Some(text),
        Some(gap) => behind_gap(gap, indent),
    }
}

/// What follows a block scalar with its properties, from behind the gap of a node in block style on.
pub(crate) fn behind_scalar_in_block(text: &str, indent: usize) -> Option<&str>
    ensures { IfTakesBefore (spec.IsSomeScalarInBlock indent) (chars text.now) result }
{
    let scalar = behind_scalar_front(text, indent)?;
    behind_block_scalar(scalar, indent)
}
