//! The headers of block scalars: their indicators, and the rest of their lines (YAML 1.2.2, 8.1.1).

ghost use Rattle.std.specs.Prelude.{◌≡◌, ◌+◌, ◌-◌, ◌<◌, length};
ghost use Rattle.saphyr_scalar.specs.Steps.Block as spec;

use crate::scalar::fault::{FaultText, Refusal};
use crate::scalar::position::Marker;
use crate::scalar::reader::Reader;
use crate::values::Chomping;
use saphyr_input::char_traits::{is_breakz, is_digit};
use saphyr_input::input::{Input, SkipTabs};

// What a header says. The indentation indicator is 0 if there is none.
#[derive(Clone, Copy)]
pub(crate) struct BlockHeader {
    pub(crate) chomping: Chomping,
    pub(crate) indicator: usize,
}

// The indentation that an indicator gives: it counts from that of the enclosing collection.
#[tactic(auto, unfolding(crate::specs::Steps::Block::given_indentation))]
pub(crate) fn given_indentation(indent: usize, indicator: usize) -> Option<usize>
    ensures { result ≡ spec.given_indentation indent indicator }
{
    if indicator == 0 {
        return None;
    }
    Some(indent.saturating_sub(1).saturating_add(indicator))
}

impl<T: Input> Reader<T> {
    ghost use Rattle.saphyr_scalar.specs.Views.Reader.{cursor_of, GivesBy, PassesBy};

    // Takes off a chomping indicator, if one comes first.
    #[tactic(auto, using(crate::proofs::Block::Lines::read_left), unfolding(crate::specs::Steps::Block::chomping))]
    fn read_chomping(&mut self) -> Option<Chomping>
        ensures { (result, cursor_of self.new) ≡ spec.chomping (cursor_of self.old) }
    {
        let chomping = match self.look() {
            '+' => Chomping::Keep,
            '-' => Chomping::Strip,
            _ => return None,
        };
        self.skip_non_blank();
        Some(chomping)
    }

    // Takes off an indentation indicator, if one comes first. Otherwise returns 0.
    #[tactic(auto, unfolding(crate::specs::Steps::Block::indicator))]
    fn read_indentation_indicator(&mut self, start: Marker) -> Result<usize, Refusal>
        ensures { GivesBy (spec.indicator start) self.old result self.new }
    {
        let c = self.look();
        if !is_digit(c) {
            return Ok(0);
        }
        if c == '0' {
            return Err(Refusal {
                text: FaultText::BlockScalarIndicatorZero,
                mark: start,
                may_change: false,
            });
        }
        self.skip_non_blank();
        Ok(c as usize - '0' as usize)
    }

    // Takes off the end of a header's line with its break, behind which no tab may stand.
    #[tactic(auto, unfolding(crate::specs::Steps::Block::header_end, crate::specs::Steps::Block::header_break))]
    fn end_block_header(&mut self, start: Marker) -> Result<(), Refusal>
        ensures { PassesBy (spec.header_end start) self.old result self.new }
    {
        self.skip_ws_to_eol(SkipTabs::Yes)?;
        if !is_breakz(self.look()) {
            return Err(Refusal {
                text: FaultText::BlockScalarHeaderEndExpected,
                mark: start,
                may_change: false,
            });
        }
        self.skip_line_break();
        if self.look() == '\t' {
            return Err(Refusal {
                text: FaultText::BlockScalarTabFirst,
                mark: start,
                may_change: false,
            });
        }
        Ok(())
    }

    // The chomping, whose indicator may follow that of the indentation.
    #[tactic(auto, unfolding(crate::specs::Steps::Block::last_chomping))]
    fn read_last_chomping(&mut self, first: Option<Chomping>) -> Chomping
        ensures { (result, cursor_of self.new) ≡ spec.last_chomping first (cursor_of self.old) }
    {
        match first {
            Some(chomping) => chomping,
            None => self.read_chomping().unwrap_or(Chomping::Clip),
        }
    }

    // Takes off a header, from its `|` or `>` on, with its line.
    #[tactic(auto, unfolding(crate::specs::Steps::Block::header, crate::specs::Steps::Block::header_behind))]
    pub(crate) fn read_block_header(&mut self) -> Result<BlockHeader, Refusal>
        requires { 0 < length (cursor_of self.old).rest }
        ensures { GivesBy spec.header self.old result self.new }
    {
        let start = self.mark;
        self.skip_non_blank();
        let first = self.read_chomping();
        let indicator = self.read_indentation_indicator(start)?;
        let chomping = self.read_last_chomping(first);
        self.end_block_header(start)?;
        Ok(BlockHeader {
            chomping,
            indicator,
        })
    }
}
