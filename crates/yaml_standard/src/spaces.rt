//! Spaces, comments and separation (YAML 1.2.2, 6.1 to 6.7). `indent` is the first column to the right of the enclosing
//! block collection, and 0 at the root.
ghost use Rattle.std.specs.Prelude.{◌≡◌, ℕ, ◌++◌, List, [], ◌∷◌, IfSome, IsTrue};
ghost use Rattle.std.specs.Str.{chars};
ghost use Rattle.saphyr_input.specs.Classes.{is_blank};
ghost use Rattle.saphyr_scalar.specs.Reading.BlockLines as lines;
ghost use Rattle.saphyr_scalar.specs.Spelling.Directive.{AreSomeBlanks};
ghost use Rattle.saphyr_scalar.specs.Spelling.Tag.{AreIn};
ghost use Rattle.scalar_laws.specs.Spelling.Spaces as spec;
ghost use Rattle.yaml_standard.specs.Takes.{IfTakes, IfTakesBefore, TakesOff};

use crate::front::{behind_run, behind_some, is_end, strip};
use saphyr_input::NonBreak;
use saphyr_input::char_set::Blank;

/// What follows the blanks that come first.
pub(crate) fn behind_blanks(text: &str) -> &str
    ensures { TakesOff (AreIn is_blank) (chars text.now) (chars result.now) }
{
    behind_run::<Blank>(text)
}

/// What follows blanks, if some come first.
pub(crate) fn behind_some_blanks(text: &str) -> Option<&str>
    ensures { IfTakes AreSomeBlanks (chars text.now) result }
{
    behind_some::<Blank>(text)
}

/// What follows a comment, which ends with its line.
pub(crate) fn behind_comment(text: &str) -> Option<&str>
    ensures { IfTakes spec.IsComment (chars text.now) result }
{
    let words = strip(text, '#')?;
    Some(behind_run::<NonBreak>(words))
}

/// What follows blanks and, after some blanks, a comment.
pub(crate) fn behind_line_rest(text: &str) -> &str
    ensures { TakesOff spec.IsLineRest (chars text.now) (chars result.now) }
{
    match behind_some_blanks(text) {
        None => text,
        Some(rest) => match behind_comment(rest) {
            None => rest,
            Some(behind) => behind,
        },
    }
}

/// What follows the end of a line, with its break.
pub(crate) fn behind_line_end(text: &str) -> Option<&str>
    ensures { IfTakes spec.IsLineEnd (chars text.now) result }
{
    let rest = behind_line_rest(text);
    strip(rest, '\n')
}

/// What follows the end of a line. The last line may lack its break.
pub(crate) fn behind_eol(text: &str) -> Option<&str>
    ensures { IfTakesBefore spec.IsEol (chars text.now) result }
{
    let rest = behind_line_rest(text);
    if is_end(rest) {
        return Some(rest);
    }
    strip(rest, '\n')
}

/// What follows blanks and a comment, or none.
fn behind_filler_text(text: &str) -> &str
    ensures { TakesOff spec.IsFillerText (chars text.now) (chars result.now) }
{
    let rest = behind_blanks(text);
    match behind_comment(rest) {
        None => rest,
        Some(behind) => behind,
    }
}

/// What follows a line of blanks, or of blanks and a comment.
fn behind_filler_line(text: &str) -> Option<&str>
    ensures { IfTakes spec.IsFillerLine (chars text.now) result }
{
    let rest = behind_filler_text(text);
    strip(rest, '\n')
}

/// What follows all such lines that come first.
pub(crate) fn behind_filler(text: &str) -> &str
    ensures { TakesOff spec.IsFiller (chars text.now) (chars result.now) }
{
    let mut rest = text;
    while let Some(behind) = behind_filler_line(rest) {
        rest = behind;
    }
    rest
}

/// Whether such lines alone come up to the text's end.
pub(crate) fn is_last_filler(text: &str) -> bool
    ensures { IsTrue result → spec.IsLastFiller (chars text.now) }
{
    let last = behind_filler(text);
    is_end(behind_filler_text(last))
}

/// What follows so many spaces.
#[tactic(auto, using(crate::proofs::Separation::space_more))]
pub(crate) fn behind_spaces(text: &str, count: usize) -> Option<&str>
    ensures { IfSome result (λ rest. chars text.now ≡ lines.spaces count ++ chars rest.now) }
{
    let mut rest = text;
    for _ in 0..count {
        rest = strip(rest, ' ')?;
    }
    Some(rest)
}

/// What follows the spaces that come first.
pub(crate) fn behind_all_spaces(text: &str) -> &str
    ensures { TakesOff (spec.AreSpaces 0) (chars text.now) (chars result.now) }
{
    let mut rest = text;
    while let Some(behind) = strip(rest, ' ') {
        rest = behind;
    }
    rest
}

/// What follows the indentation of a line, and any blanks.
pub(crate) fn behind_line_prefix(text: &str, indent: usize) -> Option<&str>
    ensures { IfTakes (spec.IsLinePrefix indent) (chars text.now) result }
{
    let rest = behind_spaces(text, indent)?;
    Some(behind_blanks(rest))
}

/// What follows the end of a line, filler, and the indentation of the next line's content with any blanks.
pub(crate) fn behind_next_line(text: &str, indent: usize) -> Option<&str>
    ensures { IfTakes (spec.IsNextLine indent) (chars text.now) result }
{
    let line = behind_line_end(text)?;
    let content = behind_filler(line);
    behind_line_prefix(content, indent)
}

/// What follows a gap in block style: blanks, or the same as in [`behind_next_line`].
pub(crate) fn behind_gap(text: &str, indent: usize) -> Option<&str>
    ensures { IfTakes (spec.IsGap indent) (chars text.now) result }
{
    match behind_next_line(text, indent) {
        None => behind_some_blanks(text),
        Some(rest) => Some(rest),
    }
}

/// What follows the end of a line in flow style, with filler and the next line's indentation.
fn behind_separation_line(text: &str, indent: usize) -> Option<&str>
    ensures { IfTakes (spec.IsSeparationLine indent) (chars text.now) result }
{
    let line = behind_line_end(text)?;
    let content = behind_filler(line);
    behind_spaces(content, indent)
}

/// What follows separation in flow style, which may be empty.
pub(crate) fn behind_separation(text: &str, indent: usize) -> &str
    ensures { TakesOff (spec.IsSeparation indent) (chars text.now) (chars result.now) }
{
    let mut rest = text;
    while let Some(behind) = behind_separation_line(rest, indent) {
        rest = behind;
    }
    behind_blanks(rest)
}
