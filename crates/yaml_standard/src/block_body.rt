//! The lines of a block scalar, from behind its header on (YAML 1.2.2, 8.1.1.1 to 8.1.3). `indent` is the first column
//! to the right of the enclosing block collection, and `indentation` the column at which the scalar's content begins.
ghost use Rattle.std.specs.Prelude.{◌≤◌, IfSome, nat_lt};
ghost use Rattle.std.specs.Str.{chars};
ghost use Rattle.scalar_laws.specs.Spelling.Block.{IsIndentation};
ghost use Rattle.yaml_standard.specs.BlockLines as spec;

use crate::block_lines::{behind_content, behind_empty_lines, behind_lines, split_spaces};
use crate::front::{is_end, strip};

// The column of the first content, and at least that of the longest line of spaces before it. Where this is wrong, the
// lines are not read as a scalar's.
fn found_indentation(text: &str, indent: usize) -> usize
    ensures { indent ≤ result }
{
    let mut most = indent;
    let mut column = 0usize;
    for c in text.chars() {
        match c {
            ' ' => column = column.saturating_add(1),
            '\n' => column = 0,
            _ => return most,
        }
        most = most.max(column);
    }
    most
}

/// The indentation of a scalar, which a digit gives, if it is not 0.
pub(crate) fn indentation(text: &str, indent: usize, digit: usize) -> Option<usize>
    ensures { IfSome result (λ i. IsIndentation indent i digit (nat_lt 0 digit)) }
{
    if digit > 0 {
        indent.saturating_sub(1).checked_add(digit)
    } else {
        Some(found_indentation(text, indent))
    }
}

/// What follows lines of which one has content.
pub(crate) fn behind_content_body(text: &str, indentation: usize, is_given: bool) -> Option<&str>
    ensures { IfSome result (λ rest. spec.IsSomeBody indentation is_given (chars rest.now)
        (chars text.now)) }
{
    let line = behind_empty_lines(text, indentation);
    let rest = behind_content(line, indentation, is_given)?;
    if is_end(rest) {
        return Some(rest);
    }
    let next = strip(rest, '\n')?;
    Some(behind_lines(next, indentation))
}

/// What follows lines without content.
pub(crate) fn behind_empty_body(text: &str, indentation: usize) -> &str
    ensures { spec.IsAnyEmptyBody indentation (chars result.now) (chars text.now) }
{
    let rest = behind_empty_lines(text, indentation);
    let (_count, end) = split_spaces(rest, indentation);
    if is_end(end) { end } else { rest }
}
