//! What comes up to the first token of a text, which is asked before the text is read (YAML 1.2.2, 7.4.2 and 8.2.2).
ghost use Rattle.std.specs.Prelude.{◌≡◌, ◌≢◌, ℕ, Some, IfSome, IsFalse};
ghost use Rattle.std.specs.Str.{chars};
ghost use Rattle.yaml_standard.specs.Leads as spec;

use crate::block_lines::first;
use crate::front::split;
use saphyr_input::char_traits::{is_blank, is_blank_or_breakz, is_break};

/// What comes up to the first token.
#[derive(Clone, Copy)]
pub(crate) struct Ahead {
    /// Whether a tab does, outside comments.
    pub has_tab: bool,
    /// Whether no token comes up to the text's end.
    pub is_end: bool,
    /// The token's column, if it is the colon of a value.
    value: Option<usize>,
}

impl Ahead {
    /// Whether the token is the colon of a value at this column.
    pub(crate) fn is_value_at(self, column: usize) -> bool
        ensures { IsFalse result → spec.IsNoValue self column }
    {
        matches!(self.value, Some(at) if at == column)
    }
}

// Whether a comment goes on after a character, if it is no token's.
fn comment_after(in_comment: bool, c: char) -> Option<bool>
    ensures { result ≡ spec.comment_after in_comment c }
{
    if in_comment {
        return Some(!is_break(c));
    }
    if is_blank(c) || is_break(c) || c == '#' {
        return Some(c == '#');
    }
    None
}

// The column after a character that is no token's, if it is asked for before one.
fn column_after(in_comment: bool, c: char, column: usize) -> Option<usize>
    ensures { IfSome result (λ next. next ≡ spec.column_after in_comment c column) }
{
    if !in_comment && is_blank(c) {
        column.checked_add(1)
    } else {
        Some(0)
    }
}

// The colon of a value is the first token, and is at this column.
fn value_at(c: char, behind: &str, column: usize) -> Option<usize>
    ensures { (m : ℕ) → result ≢ Some m
        → IsFalse (spec.is_value_at m column c (chars behind.now)) }
{
    if c == ':' && is_blank_or_breakz(first(behind)) {
        Some(column)
    } else {
        None
    }
}

/// What comes up to the first token of a text.
pub(crate) fn look_ahead(text: &str) -> Option<Ahead>
    ensures { IfSome result (λ ahead. spec.IsWhatComes ahead (chars text.now)) }
{
    let mut rest = text;
    let mut in_comment = false;
    let mut column = 0usize;
    let mut has_tab = false;
    while let Some((c, behind)) = split(rest) {
        let Some(goes_on) = comment_after(in_comment, c) else {
            return Some(Ahead {
                has_tab,
                is_end: false,
                value: value_at(c, behind, column),
            });
        };
        has_tab = has_tab || (!in_comment && c == '\t');
        column = column_after(in_comment, c, column)?;
        in_comment = goes_on;
        rest = behind;
    }
    Some(Ahead {
        has_tab,
        is_end: true,
        value: None,
    })
}
