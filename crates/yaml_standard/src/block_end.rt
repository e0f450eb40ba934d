//! What may follow the lines of a block scalar (YAML 1.2.2, 8.1.1.2 and 9.1). `indent` is the first column to the right
//! of the enclosing block collection, and `indentation` the column at which the scalar's content begins.
ghost use Rattle.std.specs.Prelude.{◌≡◌, IfSome, IsTrue};
ghost use Rattle.std.specs.Str.{chars};
ghost use Rattle.yaml_laws.specs.Grammar.BlockNodes as grammar;
ghost use Rattle.yaml_standard.specs.BlockScalars as spec;

use crate::block_lines::{first, split_spaces};
use crate::front::{is_document_marker, is_end};
use crate::spaces::{behind_filler, is_last_filler};
use saphyr_input::char_traits::{is_blank_or_breakz, is_bom};

// Whether a document's content ends here, at the start of a line.
fn ends_content(text: &str) -> bool
    ensures { IsTrue result → grammar.EndsContent (chars text.now) }
{
    is_document_marker(text) || is_bom(first(text))
}

// Whether filler alone comes up to where the document's content ends.
fn is_filler_at_end(text: &str) -> bool
    ensures { IsTrue result → grammar.IsFillerAtEnd (chars text.now) }
{
    is_last_filler(text) || ends_content(behind_filler(text))
}

// Whether a line may end a scalar which has this character after `column` spaces, fewer than the content has.
fn may_end(text: &str, indent: usize, column: usize, c: char) -> bool
    ensures { IsTrue result → spec.MayEnd indent column c (chars text.now) }
{
    match c {
        '\t' => is_filler_at_end(text),
        '#' => true,
        _ => column < indent && !is_blank_or_breakz(c),
    }
}

/// How many spaces come before what ends a scalar, if the text's first line does.
pub(crate) fn end_column(text: &str, indent: usize, indentation: usize) -> Option<usize>
    ensures { IfSome result (λ column. spec.EndsScalar indent indentation column (chars text.now)) }
{
    if is_end(text) || ends_content(text) {
        return Some(0);
    }
    let (column, rest) = split_spaces(text, indentation);
    if column < indentation && may_end(text, indent, column, first(rest)) {
        Some(column)
    } else {
        None
    }
}
