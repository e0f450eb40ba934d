//! Which token comes next, by its first characters (YAML 1.2.2, 5.3).

ghost use Rattle.std.specs.Prelude.{◌≡◌, ◌<◌, ◌≤◌, ◌==◌, false, length, slice_index};
ghost use Rattle.saphyr_input.specs.Indicators.{
  colon,
  comma,
  hyphen,
  left_brace,
  left_bracket,
  quotation_mark,
  right_brace,
  right_bracket,
};
ghost use Rattle.saphyr_scanner.specs.Steps.Fetch as fetch;
ghost use Rattle.saphyr_scanner.specs.Steps.Scalar as scalar;

use crate::engine::{Context, Engine};
use crate::stopped::Stopped;
use crate::token::TokenKind;
use saphyr_input::char_traits::{is_blank_or_breakz, is_bom, is_flow, is_z};
use saphyr_input::input::Input;
use saphyr_scalar::FaultText;
use saphyr_scalar::values::{BlockStyle, Quote};

impl<T: Input> Engine<T> {
    ghost use Rattle.saphyr_scalar.specs.Views.Reader.{loaded};
    ghost use Rattle.saphyr_scanner.specs.Views.Ahead.{LeadsOn, with_second};
    ghost use Rattle.saphyr_scanner.specs.Views.Engine.{state, MovesBy, ActsBy};

    // Puts the token of the stream's start into the queue. It is separate for speed, since it comes once.
    #[inline(never)]
    fn start(&mut self) -> Result<(), Stopped>
        ensures { MovesBy (λ s. Ok (fetch.begin s)) self.old result self.new }
    {
        self.started = true;
        let mark = self.reader.mark();
        self.put(mark, mark, TokenKind::StreamStart)
    }

    // Puts the next token into the queue.
    #[tactic(auto, unfolding(crate::specs::Steps::Fetch::fetch))]
    pub(super) fn fetch(&mut self) -> Result<(), Stopped>
        ensures { MovesBy fetch.fetch self.old result self.new }
    {
        if !self.started {
            return self.start();
        }
        self.reader.load(2);
        let mut c = self.reader.input().peek();
        if !(self.has_arrived(c) && self.is_content(c)) {
            if !self.go_on(c)? {
                return Ok(());
            }
            self.reader.load(2);
            c = self.reader.input().peek();
        }
        self.fetch_content(c)
    }

    // Puts the token that begins here into the queue, if it is the end's, or one that is told by the start of its line.
    // `true`: it is another, which its first character tells.
    #[inline(always)]
    #[tactic(auto, unfolding(crate::specs::Steps::Fetch::fetch_here))]
    pub(super) fn fetch_mark(&mut self, c: char) -> Result<bool, Stopped>
        requires first { c ≡ slice_index (state self.old).core.cursor.rest 0 }
        requires loaded { 4 ≤ loaded self.old.reader }
        ensures { LeadsOn result (fetch.fetch_here (state self.old)) self.new }
    {
        let column = self.reader.mark().col;
        if is_z(c) {
            self.fetch_end()?;
        } else if is_bom(c) {
            self.fetch_byte_order_mark()?;
        } else if column == 0 && c == '%' {
            self.fetch_directive()?;
        } else if column == 0 && self.reader.input().next_is_document_start() {
            self.fetch_document_marker(TokenKind::DocumentStart)?;
        } else if column == 0 && self.reader.input().next_is_document_end() {
            self.fetch_document_end()?;
        } else if column < self.least_column() {
            return Err(self.refuse_open_here(FaultText::InvalidIndentation));
        } else {
            return Ok(true);
        }
        Ok(false)
    }

    // An entry of a block sequence, or a plain scalar that begins with `-`.
    #[inline(always)]
    #[tactic(auto, unfolding(crate::specs::Steps::Fetch::state_behind_content, crate::specs::Steps::Fetch::step))]
    fn fetch_dash(&mut self) -> Result<(), Stopped>
        requires some { 0 < length (state self.old).core.cursor.rest }
        requires first { slice_index (state self.old).core.cursor.rest 0 ≡ hyphen }
        requires loaded { 2 ≤ loaded self.old.reader }
        ensures { MovesBy (with_second hyphen) self.old result self.new }
    {
        let next = self.reader.input().peek_nth(1);
        if is_blank_or_breakz(next) {
            self.fetch_block_entry(next)
        } else {
            self.fetch_plain()
        }
    }

    // What a colon begins: a value, or a plain scalar.
    #[inline(always)]
    #[tactic(auto, unfolding(crate::specs::Steps::Fetch::state_behind_content, crate::specs::Steps::Fetch::step))]
    fn fetch_colon(&mut self) -> Result<(), Stopped>
        requires some { 0 < length (state self.old).core.cursor.rest }
        requires loaded { 2 ≤ loaded self.old.reader }
        ensures { MovesBy (with_second colon) self.old result self.new }
    {
        let next = self.reader.input().peek_nth(1);
        if is_blank_or_breakz(next) {
            self.fetch_value()
        } else if self.is_value_adjacent(next) {
            self.fetch_flow_value(next)
        } else {
            self.fetch_plain()
        }
    }

    // Puts the token that the first character begins into the queue.
    #[tactic(auto, unfolding(crate::specs::Steps::Fetch::state_behind_content, crate::specs::Steps::Fetch::step))]
    fn fetch_content(&mut self, c: char) -> Result<(), Stopped>
        requires some { 0 < length (state self.old).core.cursor.rest }
        requires first { c ≡ slice_index (state self.old).core.cursor.rest 0 }
        requires loaded { 2 ≤ loaded self.old.reader }
        ensures { MovesBy (with_second c) self.old result self.new }
    {
        match c {
            '[' => self.fetch_flow_start(Context::FlowSequence, TokenKind::FlowSequenceStart),
            '{' => self.fetch_flow_start(Context::FlowMapping, TokenKind::FlowMappingStart),
            ']' => self.fetch_sequence_end(),
            '}' => self.fetch_mapping_end(),
            ',' => self.fetch_flow_entry(),
            '-' => self.fetch_dash(),
            ':' => self.fetch_colon(),
            '"' => self.fetch_flow_scalar(Quote::Double),
            '?' | '\'' | '*' | '&' | '!' | '|' | '>' | '%' | '@' | '`' => {
                let next = self.reader.input().peek_nth(1);
                self.fetch_rare(c, next)
            }
            _ => self.fetch_plain(),
        }
    }

    // Puts the token that begins here into the queue, if few tokens begin with its first character. It is separate for
    // speed: the places for what its calls read are cleared here, and not for each token.
    #[inline(never)]
    #[tactic(auto, unfolding(crate::specs::Steps::Fetch::state_behind_content, crate::specs::Steps::Fetch::step))]
    fn fetch_rare(&mut self, c: char, next: char) -> Result<(), Stopped>
        requires some { 0 < length (state self.old).core.cursor.rest }
        requires first { c ≡ slice_index (state self.old).core.cursor.rest 0 }
        requires second { next ≡ slice_index (state self.old).core.cursor.rest 1 }
        requires outside_brackets { ((c == left_bracket) ≡ false) × ((c == left_brace) ≡ false)
            × ((c == right_bracket) ≡ false) × ((c == right_brace) ≡ false) }
        requires rare { ((c == comma) ≡ false) × ((c == hyphen) ≡ false) × ((c == colon) ≡ false)
            × ((c == quotation_mark) ≡ false) }
        ensures { MovesBy (fetch.state_behind_content c next) self.old result self.new }
    {
        match c {
            '?' if is_blank_or_breakz(next) => self.fetch_key(),
            '\'' => self.fetch_flow_scalar(Quote::Single),
            '*' => self.fetch_name(TokenKind::Alias),
            '&' => self.fetch_name(TokenKind::Anchor),
            '!' => self.fetch_tag(),
            '|' if self.in_block() => self.fetch_block_scalar(BlockStyle::Literal),
            '>' if self.in_block() => self.fetch_block_scalar(BlockStyle::Folded),
            '%' | '@' | '`' => Err(self.refuse_here(FaultText::UnexpectedCharacter(c))),
            _ => self.fetch_plain(),
        }
    }

    // Whether a colon inside flow, with no blank after it, is between a key and its value.
    fn is_value_adjacent(&self, next: char) -> bool
        ensures { result ≡ fetch.is_value_adjacent next (state self.now).core }
    {
        !self.in_block() && (is_flow(next) || self.reader.mark().index == self.adjacent)
    }

    // A colon inside flow with no blank after it.
    #[inline(never)]
    #[tactic(auto, unfolding(crate::specs::Steps::Fetch::flow_value_steps))]
    fn fetch_flow_value(&mut self, next: char) -> Result<(), Stopped>
        requires { 0 < length (state self.old).core.cursor.rest }
        ensures { ActsBy (fetch.flow_value_steps next) self.old result self.new }
    {
        if self.reader.mark().index != self.adjacent && (next == '[' || next == '{') {
            return Err(self.refuse_here(FaultText::ColonBeforeFlow));
        }
        self.fetch_value()
    }
}
