//! Block scalars, taken off a text: their headers, and the lines after them (YAML 1.2.2, 8.1).

mod breaks;
mod header;
mod lines;

ghost use Rattle.std.specs.Prelude.{◌≡◌, ◌<◌, ◌≤◌, length, string_bytes, IfOk, encode_utf8_all};
ghost use Rattle.saphyr_scalar.specs.Steps.Block as spec;

use crate::scalar::block::breaks::push_tail;
use crate::scalar::block::header::given_indentation;
use crate::scalar::block::lines::EmptyLines;
use crate::scalar::fault::{FaultText, Refusal, Stop};
use crate::scalar::position::Span;
use crate::scalar::reader::Reader;
use crate::values::{BlockStyle, Chomping};
pub(crate) use breaks::push_line_feeds;
use saphyr_input::char_traits::is_z;
use saphyr_input::input::Input;
use std::alloc::{AllocError, Global};

/// The text of a block scalar, and its place.
#[derive(Drop)]
pub struct BlockScalar {
    pub text: String,
    /// From the place after the indentation of the first content line to the place after the
    /// indentation of the line that ends the scalar. Without content it starts where it ends, or
    /// at the header if the text ends there.
    pub span: Span,
}

impl<T: Input> Reader<T> {
    ghost use Rattle.saphyr_scalar.specs.Views.Reader.{cursor_of, ReadsBy};

    // Whether the text's end or a NUL cuts off the last line after its indentation.
    #[tactic(auto, unfolding(crate::specs::Steps::Block::is_unfinished))]
    fn is_unfinished(&mut self, indentation: usize) -> bool
        ensures value { result ≡ spec.is_unfinished indentation (cursor_of self.old) }
        ensures same { cursor_of self.new ≡ cursor_of self.old }
    {
        is_z(self.look()) && self.mark.col >= indentation.max(1)
    }

    // The text of a scalar without content that the text's end or a NUL ends.
    #[tactic(auto, unfolding(crate::specs::Steps::Block::tail_alone))]
    fn text_without_content(
        &self,
        alloc: Global,
        chomping: Chomping,
        empty_lines: usize,
    ) -> Result<String, AllocError>
        ensures { IfOk result (λ text. string_bytes text
            ≡ encode_utf8_all (spec.tail_alone chomping empty_lines (cursor_of self.now))) }
    {
        let mut text = String::new(alloc);
        if chomping == Chomping::Keep {
            let unfinished = self.blank_so_far && self.mark.col > 0;
            if empty_lines == 0 && unfinished {
                push_line_feeds(&mut text, 1)?;
            } else {
                push_line_feeds(&mut text, empty_lines)?;
            }
        }
        Ok(text)
    }

    // Takes off what follows the leading empty lines: the content lines.
    #[tactic(auto, unfolding(crate::specs::Steps::Block::content))]
    fn read_block_content(
        &mut self,
        alloc: Global,
        style: BlockStyle,
        chomping: Chomping,
        indent: usize,
        indentation: usize,
        leading: usize,
    ) -> Result<BlockScalar, Stop>
        requires { leading ≤ (cursor_of self.old).mark.index }
        ensures { ReadsBy spec.seen_block_scalar
            (spec.content style chomping indent indentation leading) self.old result self.new }
    {
        if self.mark.col < indentation && self.mark.col >= indent {
            return Err(Stop::Refused(Refusal {
                text: FaultText::BlockScalarLineIndentation,
                mark: self.mark,
                may_change: false,
            }));
        }
        let start = self.mark;
        let mut text = String::new(alloc);
        let end = self.read_block_lines(style, indentation, leading, &mut text)?;
        let unfinished = self.is_unfinished(indentation);
        push_tail(&mut text, chomping, unfinished, end)?;
        Ok(BlockScalar {
            text,
            span: Span::new(start, self.mark),
        })
    }

    /// Takes off a block scalar (YAML 1.2.2, 8.1), from its `|` or `>` on, and the indentation of the
    /// line after it.
    ///
    /// `indent` is the first column to the right of the enclosing block collection, or 0 if there
    /// is none. Refused at the header's start are an indentation indicator 0, a header that does
    /// not end with its line, and a tab right after it. Refused at their own places are a comment
    /// without white space before it, a byte order mark in the header's line, and a first content
    /// line right of the enclosing collection and left of the indentation.
    #[tactic(auto, unfolding(crate::specs::Steps::Block::block_scalar, crate::specs::Steps::Block::behind_header, crate::specs::Steps::Block::behind_leading_lines))]
    pub fn read_block_scalar(
        &mut self,
        alloc: Global,
        style: BlockStyle,
        indent: usize,
    ) -> Result<BlockScalar, Stop>
        requires { 0 < length (cursor_of self.old).rest }
        ensures { ReadsBy spec.seen_block_scalar (spec.block_scalar style indent) self.old result
            self.new }
    {
        let start = self.mark;
        let header = self.read_block_header()?;
        let limit = given_indentation(indent, header.indicator);
        let none = EmptyLines {
            count: 0,
            widest: 0,
        };
        let leading = self.skip_empty_block_lines(limit, none);
        if is_z(self.look()) {
            let text = self.text_without_content(alloc, header.chomping, leading.count)?;
            return Ok(BlockScalar {
                text,
                span: Span::new(start, self.mark),
            });
        }
        let indentation = limit.unwrap_or(leading.widest.max(indent));
        self.read_block_content(
            alloc,
            style,
            header.chomping,
            indent,
            indentation,
            leading.count,
        )
    }
}
