//! The lines of block scalars: those with content, and empty ones, which are counted
//! (YAML 1.2.2, 8.1.2 and 8.1.3).

ghost use Rattle.std.specs.Prelude.{◌≡◌, ◌+◌, ◌≤◌};
ghost use Rattle.saphyr_input.specs.Places.{is_document_indicator};
ghost use Rattle.saphyr_scalar.specs.Steps.Block as spec;

use crate::scalar::block::breaks::{BlockEnd, push_break_before};
use crate::scalar::fault::Stop;
use crate::scalar::reader::Reader;
use crate::values::BlockStyle;
use saphyr_input::char_set::NonBreak;
use saphyr_input::char_traits::{is_break, is_yaml_non_break};
use saphyr_input::input::Input;

// Lines with only spaces: how many breaks end them, and the column that the longest reaches.
#[derive(Clone, Copy)]
pub(crate) struct EmptyLines {
    pub(crate) count: usize,
    pub(crate) widest: usize,
}

// How many spaces from a column on belong to the indentation, which may have a limit.
#[inline]
fn indentation_left(limit: Option<usize>, col: usize) -> usize
    ensures { result ≡ spec.indentation_left limit col }
{
    match limit {
        Some(limit) => limit.saturating_sub(col),
        None => usize::MAX,
    }
}

impl<T: Input> Reader<T> {
    ghost use Rattle.saphyr_scalar.specs.Views.Reader.{cursor_of, loaded, WritesBy};

    // Takes off empty lines and the indentation after them, which may have a limit.
    #[inline(always)]
    pub(crate) fn skip_empty_block_lines(
        &mut self,
        limit: Option<usize>,
        before: EmptyLines,
    ) -> EmptyLines
        requires { before.count ≤ (cursor_of self.old).mark.index }
        ensures taken { (result, cursor_of self.new)
            ≡ spec.pass_empty_lines_at limit before (cursor_of self.old) }
        ensures few { result.count ≤ (cursor_of self.new).mark.index }
        ensures loaded { 1 ≤ loaded self.new }
    {
        let mut lines = before;
        let left = indentation_left(limit, self.mark.col);
        self.skip_indentation(left);
        loop {
            let c = self.look();
            if !is_break(c) {
                break;
            }
            lines.count += 1;
            lines.widest = lines.widest.max(self.mark.col);
            self.skip_seen_break(c);
            let more = indentation_left(limit, self.mark.col);
            self.skip_spaces(more);
        }
        lines.widest = lines.widest.max(self.mark.col);
        lines
    }

    // Whether a document marker is here.
    #[inline(never)]
    fn is_at_document_marker(&mut self) -> bool
        ensures value { result ≡ is_document_indicator (cursor_of self.old).rest }
        ensures same { cursor_of self.new ≡ cursor_of self.old }
        ensures loaded { 1 ≤ loaded self.new }
    {
        self.load(4);
        self.input.next_is_document_indicator()
    }

    // Whether a content line begins here.
    #[inline(always)]
    #[tactic(auto, unfolding(crate::specs::Steps::Block::line_starts))]
    fn block_line_starts(&mut self, indentation: usize) -> bool
        requires { 1 ≤ loaded self.old }
        ensures value { result ≡ spec.line_starts indentation (cursor_of self.old).mark.col
            (cursor_of self.old).rest }
        ensures same { cursor_of self.new ≡ cursor_of self.old }
        ensures loaded { 1 ≤ loaded self.new }
    {
        self.mark.col == indentation
            && is_yaml_non_break(self.input.peek())
            && !(indentation == 0 && self.is_at_document_marker())
    }

    // Moves the content lines to the end of a text, after some empty lines, and returns what follows the
    // last content.
    pub(crate) fn read_block_lines(
        &mut self,
        style: BlockStyle,
        indentation: usize,
        leading: usize,
        text: &mut String,
    ) -> Result<BlockEnd, Stop>
        requires { leading ≤ (cursor_of self.old).mark.index }
        ensures { WritesBy spec.seen_lines (spec.lines_onto style indentation leading) text.old
            self.old result text.new self.new }
    {
        let mut above = None;
        let mut lines = EmptyLines {
            count: leading,
            widest: 0,
        };
        loop {
            lines = self.skip_empty_block_lines(Some(indentation), lines);
            if !self.block_line_starts(indentation) {
                return Ok(BlockEnd {
                    broken: above.is_some(),
                    empty_lines: lines.count,
                });
            }
            let below = self.input.next_is_blank();
            push_break_before(text, style, above, lines.count, below)?;
            self.move_run::<NonBreak>(text)?;
            let c = self.look();
            if !is_break(c) {
                return Ok(BlockEnd {
                    broken: false,
                    empty_lines: 0,
                });
            }
            self.skip_seen_break(c);
            above = Some(below);
            lines = EmptyLines {
                count: 0,
                widest: 0,
            };
        }
    }
}
