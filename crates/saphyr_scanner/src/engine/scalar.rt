//! Scalars of all styles, and what may follow a quoted one (YAML 1.2.2, 7.3 and 8.1).

ghost use Rattle.std.specs.Prelude.{◌≡◌, List, ℕ, ◌<◌, IsTrue, true, length, slice_index};
ghost use Rattle.saphyr_scanner.specs.Steps.Passing as passing;
ghost use Rattle.saphyr_scanner.specs.Steps.Scalar as scalar;
ghost use Rattle.saphyr_scanner.specs.Grammar.Tokens as tokens;
ghost use Rattle.saphyr_scanner.specs.Views.Reads.{is_entry_end};
ghost use Rattle.saphyr_scanner.specs.Views.Tokens.{kind_with, text_parts};
ghost use Rattle.saphyr_scalar.specs.Values.Flow as flow;

use crate::engine::Engine;
use crate::stopped::{Stopped, keep};
use crate::token::TokenKind;
use saphyr_input::input::Input;
use saphyr_scalar::FaultText;
use saphyr_scalar::values::{BlockStyle, Quote};

impl<T: Input> Engine<T> {
    ghost use Rattle.saphyr_scanner.specs.Views.Engine.{state, ActsBy, CarriesBy};
    ghost use Rattle.saphyr_scanner.specs.Steps.Queue.{next};

    // Passes what is between a quoted scalar and the next token. Often that is an indicator right here.
    #[inline(always)]
    #[tactic(auto, using(crate::proofs::Ahead::QuotedEnds::gap_at_indicator))]
    fn pass_gap_to(&mut self, is_at_indicator: bool) -> Result<(), Stopped>
        requires { IsTrue is_at_indicator
            → is_entry_end (slice_index (state self.old).core.cursor.rest 0) ≡ true }
        ensures { CarriesBy passing.pass_gap self.old result self.new }
    {
        if is_at_indicator {
            return self.check_comment();
        }
        self.pass_gap()
    }

    // Reads a quoted scalar, and passes what follows it.
    #[inline(always)]
    fn read_quoted(&mut self, quote: Quote) -> Result<(), Stopped>
        requires { slice_index (state self.old).core.cursor.rest 0 ≡ flow.mark quote }
        ensures { ActsBy (scalar.read_quoted quote) self.old result self.new }
    {
        let in_block = self.in_block();
        let least = self.least_column();
        let reader = &mut self.reader;
        let is_at_end = self.queue.put_quoted(reader, quote, in_block, least);
        let is_at_end = keep(&mut self.stop, is_at_end)?;
        self.pass_gap_to(is_at_end)?;
        self.adjacent = self.reader.mark().index;
        Ok(())
    }

    // A quoted scalar.
    #[inline(always)]
    #[tactic(auto, unfolding(crate::specs::Steps::Scalar::quoted_steps))]
    pub(super) fn fetch_flow_scalar(&mut self, quote: Quote) -> Result<(), Stopped>
        requires { slice_index (state self.old).core.cursor.rest 0 ≡ flow.mark quote }
        ensures { ActsBy (scalar.quoted_steps quote (next (state self.old).queue)) self.old result
            self.new }
    {
        self.save_key();
        self.key_allowed = false;
        self.read_quoted(quote)
    }

    // A plain scalar.
    #[inline(never)]
    #[tactic(auto, unfolding(crate::specs::Steps::Scalar::plain_steps, crate::specs::Steps::Scalar::read_plain))]
    pub(super) fn fetch_plain(&mut self) -> Result<(), Stopped>
        requires { 0 < length (state self.old).core.cursor.rest }
        ensures { ActsBy (scalar.plain_steps (next (state self.old).queue)) self.old result
            self.new }
    {
        self.save_key();
        self.key_allowed = false;
        self.deeper = false;
        let start = self.reader.mark();
        let in_flow = !self.in_block();
        if in_flow && start.col < self.indent {
            return Err(self.refuse_open_here(FaultText::FlowIndentation));
        }
        let reader = &mut self.reader;
        let comment = self.queue.put_plain(reader, in_flow, self.indent);
        self.comment = keep(&mut self.stop, comment)?;
        self.key_allowed = self.reader.blank_so_far();
        Ok(())
    }

    // A block scalar.
    #[tactic(auto, unfolding(crate::specs::Steps::Scalar::block_scalar_steps, crate::specs::Steps::Scalar::read_block))]
    pub(super) fn fetch_block_scalar(&mut self, style: BlockStyle) -> Result<(), Stopped>
        requires { 0 < length (state self.old).core.cursor.rest }
        ensures { ActsBy (scalar.block_scalar_steps style (next (state self.old).queue))
            self.old result self.new }
    {
        self.save_key();
        self.key_allowed = true;
        self.deeper = false;
        let scalar = self
            .reader
            .read_block_scalar(self.alloc, style, self.indent);
        let scalar = keep(&mut self.stop, scalar)?;
        let (span, text) = (scalar.span, scalar.text);
        let spare = &mut self.reader.spare;
        let put = self.queue.put_text(kind_of(style), &span, text, spare);
        keep(&mut self.stop, put)
    }
}

// The kind of a block scalar.
fn kind_of(style: BlockStyle) -> TokenKind
    ensures { (text : List ℕ) → kind_with result (text_parts text)
        ≡ tokens.Scalar (scalar.style_of style) text }
{
    match style {
        BlockStyle::Literal => TokenKind::Literal,
        BlockStyle::Folded => TokenKind::Folded,
    }
}
