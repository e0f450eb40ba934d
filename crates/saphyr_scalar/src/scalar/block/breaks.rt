//! What the line breaks of block scalars are read as: kept or folded before a line, and chomped after the last (YAML
//! 1.2.2, 8.1.1.2 and 8.1.3).

ghost use Rattle.std.specs.Prelude.{◌≡◌, ◌+◌, ◌++◌, string_bytes, OnOk, encode_utf8_all};
ghost use Rattle.saphyr_scalar.specs.Steps.Block as spec;
ghost use Rattle.saphyr_scalar.specs.Values.Folding.{line_feeds};

use crate::values::{BlockStyle, Chomping};
use std::alloc::AllocError;

// What follows the last content: whether a break ends its line, and the empty lines.
#[derive(Clone, Copy)]
pub(crate) struct BlockEnd {
    pub(crate) broken: bool,
    pub(crate) empty_lines: usize,
}

// Appends this many line feeds.
pub(crate) fn push_line_feeds(text: &mut String, count: usize) -> Result<(), AllocError>
    ensures { OnOk result (string_bytes text.new
        ≡ string_bytes text.old ++ encode_utf8_all (line_feeds count)) }
{
    for _ in 0..count {
        text.push('\n')?;
    }
    Ok(())
}

// Appends the breaks before a content line, by whether it and the content line above, if there is
// one, begin with a blank.
#[inline(always)]
#[tactic(auto, using(crate::proofs::Block::Lines::feed_first))]
pub(crate) fn push_break_before(
    text: &mut String,
    style: BlockStyle,
    above: Option<bool>,
    empty_lines: usize,
    below: bool,
) -> Result<(), AllocError>
    ensures { OnOk result (string_bytes text.new
        ≡ string_bytes text.old ++ encode_utf8_all
        (spec.break_before style above empty_lines below)) }
{
    if let Some(above) = above {
        if style == BlockStyle::Literal || above || below {
            text.push('\n')?;
        } else if empty_lines == 0 {
            text.push(' ')?;
        }
    }
    push_line_feeds(text, empty_lines)
}

// How many line feeds are left of the breaks after the last content: for its line, and for the empty lines.
fn kept_breaks(chomping: Chomping, unfinished: bool, end: BlockEnd) -> (usize, usize)
    ensures { line_feeds result.0 ++ line_feeds result.1 ≡ spec.tail chomping unfinished end }
{
    match chomping {
        Chomping::Strip => (0, 0),
        Chomping::Clip => (usize::from(end.broken || unfinished), 0),
        Chomping::Keep => (
            usize::from(end.broken) + usize::from(unfinished),
            end.empty_lines,
        ),
    }
}

// Appends what is left of the breaks after the last content.
#[tactic(auto, using(crate::proofs::Block::Lines::feeds_join))]
pub(crate) fn push_tail(
    text: &mut String,
    chomping: Chomping,
    unfinished: bool,
    end: BlockEnd,
) -> Result<(), AllocError>
    ensures { OnOk result (string_bytes text.new
        ≡ string_bytes text.old ++ encode_utf8_all (spec.tail chomping unfinished end)) }
{
    let (breaks, empty_lines) = kept_breaks(chomping, unfinished, end);
    push_line_feeds(text, breaks)?;
    push_line_feeds(text, empty_lines)
}
