//! The indicators `-` and `?`: entries of block sequences, and explicit keys (YAML 1.2.2,
//! 8.2.1, 8.2.2 and 7.4.2).

ghost use Rattle.std.specs.Prelude.{◌≡◌, ◌+◌, ◌^◌, ◌==◌, ◌&&◌, false, IsTrue, Ok, ◌<◌, length, slice_index};
ghost use Rattle.saphyr_input.specs.Classes.{space};
ghost use Rattle.saphyr_input.specs.Indicators.{hyphen};
ghost use Rattle.saphyr_scanner.specs.Steps.Block as block;
ghost use Rattle.saphyr_scanner.specs.Steps.Core as spec;
ghost use Rattle.saphyr_scanner.specs.Steps.Passing as passing;
ghost use Rattle.saphyr_scanner.specs.Steps.State as spec_state;
ghost use Rattle.saphyr_scanner.specs.Views.Ahead.{may_begin_entry};

use crate::engine::Engine;
use crate::gap::skip_spaces;
use crate::stopped::Stopped;
use crate::token::TokenKind;
use saphyr_input::char_traits::{is_blank_or_breakz, is_break, is_flow};
use saphyr_input::input::Input;
use saphyr_scalar::FaultText;

// Whether the character is one that most entries begin with, and no blank, break, `#`, flow indicator or byte order
// mark. For speed the most frequent ones are tested first.
#[inline(always)]
fn may_begin_entry(c: char) -> bool
    ensures { result ≡ may_begin_entry c }
{
    let is_frequent = c >= '-' && c <= 'z' && !(c >= '[' && c <= ']');
    is_frequent || matches!(c, '"' | '$'..='+' | '\u{A0}'..='\u{D7FF}')
}

impl<T: Input> Engine<T> {
    ghost use Rattle.saphyr_scanner.specs.Views.Engine.{state, ActsBy, CarriesBy};

    // Whether a `-` is an indicator here.
    fn is_dash_next(&mut self) -> bool
        ensures value { result ≡ block.is_dash_next (state self.old).core }
        ensures same { state self.new ≡ state self.old }
    {
        self.reader.load(2);
        self.reader.input().peek() == '-' && is_blank_or_breakz(self.reader.input().peek_nth(1))
    }

    // Passes what follows `-` on its line. Only spaces may come before the `-` of a compact sequence.
    #[inline(always)]
    #[tactic(auto, unfolding(crate::specs::Steps::Block::pass_dash))]
    fn pass_dash(&mut self) -> Result<(), Stopped>
        ensures { CarriesBy block.pass_dash self.old result self.new }
    {
        let found = self.separate()?;
        if found.found_tabs() && self.is_dash_next() {
            return Err(self.refuse_open_here(FaultText::DashWithoutWhitespace));
        }
        self.deepen();
        Ok(())
    }

    // Passes `-` and the space behind it, if that is followed by what most entries begin with.
    #[inline(always)]
    fn passes_dash_and_space(&mut self, next: char) -> bool
        requires first { slice_index (state self.old).core.cursor.rest 0 ≡ hyphen }
        requires second { next ≡ slice_index (state self.old).core.cursor.rest 1 }
        ensures decides { result ≡ ((slice_index (state self.old).core.cursor.rest 1 == space)
            && may_begin_entry (slice_index (state self.old).core.cursor.rest 2)) }
        ensures passed { IsTrue result → state self.new
            ≡ spec_state.with_core (passing.pass_on 2 (state self.old).core) (state self.old) }
        ensures same { result ≡ false → state self.new ≡ state self.old }
    {
        if next != ' ' {
            return false;
        }
        self.reader.load(3);
        if may_begin_entry(self.reader.input().peek_nth(2)) {
            self.reader.skip_two_ascii();
            return true;
        }
        false
    }

    // Passes `-` and what follows it on its line, and a block sequence begins at its column, if one does.
    //
    // For speed the character behind `-` is used, which is known: mostly it is a space before content, or a line feed.
    #[inline(always)]
    fn begin_entry(&mut self, next: char, column: usize) -> Result<(), Stopped>
        requires some { 0 < length (state self.old).core.cursor.rest }
        requires first { slice_index (state self.old).core.cursor.rest 0 ≡ hyphen }
        requires second { next ≡ slice_index (state self.old).core.cursor.rest 1 }
        requires near { column + 1 < 2 ^ 64 }
        ensures { CarriesBy (λ c. block.pass_dash (spec.roll column (passing.pass_on 1 c)))
            self.old result self.new }
    {
        if self.passes_dash_and_space(next) {
            return self.roll(column);
        }
        self.reader.skip_non_blank();
        self.roll(column)?;
        if next == '\n' {
            self.go_deeper();
            return Ok(());
        }
        self.pass_dash()
    }

    // Content on a later line, and flow collections, must be right of the `-`.
    fn deepen(&mut self)
        ensures { state self.new ≡ spec_state.with_core (block.deepen (state self.old).core)
            (state self.old) }
    {
        let c = self.reader.look();
        if is_break(c) || is_flow(c) {
            self.go_deeper();
        }
    }

    // `-`.
    #[inline(always)]
    #[tactic(auto, unfolding(crate::specs::Steps::Block::block_entry_steps, crate::specs::Steps::Block::next_entry))]
    pub(super) fn fetch_block_entry(&mut self, next: char) -> Result<(), Stopped>
        requires some { 0 < length (state self.old).core.cursor.rest }
        requires first { slice_index (state self.old).core.cursor.rest 0 ≡ hyphen }
        requires second { next ≡ slice_index (state self.old).core.cursor.rest 1 }
        ensures { ActsBy block.block_entry_steps self.old result self.new }
    {
        let start = self.reader.mark();
        if !self.in_block() {
            return Err(self.refuse_behind(1, FaultText::DashInsideFlow, start));
        }
        if !self.key_allowed {
            return Err(self.refuse_behind(1, FaultText::SequenceEntryNotAllowed, start));
        }
        if self.is_further(start.col) {
            self.put(start, start, TokenKind::BlockSequenceStart)?;
        }
        self.begin_entry(next, start.col)?;
        self.remove_key()?;
        self.key_allowed = true;
        let mark = self.reader.mark();
        self.put(mark, mark, TokenKind::BlockEntry)
    }

    // `?`. Blanks must be behind it, without which it is no indicator.
    #[tactic(auto, unfolding(crate::specs::Steps::Block::key_steps, crate::specs::Steps::Block::begin_key, crate::specs::Steps::Block::behind_mark, crate::specs::Steps::Core::remove_key))]
    pub(super) fn fetch_key(&mut self) -> Result<(), Stopped>
        requires { 0 < length (state self.old).core.cursor.rest }
        ensures { ActsBy block.key_steps self.old result self.new }
    {
        let start = self.reader.mark();
        if self.in_block() && !self.key_allowed {
            return Err(self.refuse_behind(1, FaultText::KeyNotAllowed, start));
        }
        if self.is_further(start.col) {
            self.put(start, start, TokenKind::BlockMappingStart)?;
        }
        self.roll(start.col)?;
        self.level.context = self.level.context.behind_question();
        self.remove_key()?;
        self.key_allowed = self.in_block();
        self.reader.skip_non_blank();
        if !skip_spaces(&mut self.reader) {
            let mark = self.reader.mark();
            return Err(self.refuse_behind(0, FaultText::WhitespaceExpected, mark));
        }
        if self.reader.look() == '\t' {
            return Err(self.refuse_here(FaultText::TabNotAllowed));
        }
        let end = self.reader.mark();
        self.put(start, end, TokenKind::Key)
    }
}
