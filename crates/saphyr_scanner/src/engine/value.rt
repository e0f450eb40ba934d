//! The colon between a key and its value, which makes a key of what comes before it (YAML
//! 1.2.2, 7.4.2 and 8.2.2).

ghost use Rattle.std.specs.Prelude.{Ok, ◌+◌, ◌<◌, ◌^◌, length};
ghost use Rattle.saphyr_scanner.specs.Steps.Value as value;

use crate::engine::{Candidate, Engine};
use crate::queue::Opening;
use crate::stopped::Stopped;
use crate::token::TokenKind;
use saphyr_input::char_traits::is_alpha;
use saphyr_input::input::Input;
use saphyr_scalar::{FaultText, Marker};

impl<T: Input> Engine<T> {
    ghost use Rattle.saphyr_scanner.specs.Views.Engine.{state, candidate, ActsBy, CarriesBy};

    // Passes what follows a colon, if that begins with a tab. Outside flow there must be a space between the colon and
    // a word, not a tab alone.
    #[inline(always)]
    #[tactic(auto, unfolding(crate::specs::Steps::Value::check_tab))]
    fn check_tab(&mut self) -> Result<(), Stopped>
        ensures { CarriesBy value.check_tab self.old result self.new }
    {
        if self.reader.look() != '\t' {
            return Ok(());
        }
        let found = self.separate()?;
        if !self.in_block() || found.has_valid_yaml_ws() {
            return Ok(());
        }
        let c = self.reader.look();
        if c == '-' || is_alpha(c) {
            return Err(self.refuse_here(FaultText::ColonWithoutWhitespace));
        }
        Ok(())
    }

    // `:`.
    #[inline(always)]
    #[tactic(auto, unfolding(crate::specs::Steps::Value::value_steps, crate::specs::Steps::Value::behind_key))]
    pub(super) fn fetch_value(&mut self) -> Result<(), Stopped>
        requires { 0 < length (state self.old).core.cursor.rest }
        ensures { ActsBy value.value_steps self.old result self.new }
    {
        let start = self.reader.mark();
        let begins_pair = self.level.context.begins_pair();
        self.level.context = self.level.context.behind_colon();
        self.reader.skip_non_blank();
        self.check_tab()?;
        if self.level.has_key {
            self.fetch_value_of(self.level.key, begins_pair, start)
        } else {
            self.fetch_value_alone(begins_pair, start)
        }
    }

    // The candidate is the colon's key.
    #[inline(always)]
    #[tactic(auto, unfolding(crate::specs::Steps::Value::value_of_key))]
    fn fetch_value_of(
        &mut self,
        key: Candidate,
        begins_pair: bool,
        start: Marker,
    ) -> Result<(), Stopped>
        ensures { ActsBy (value.value_of_key (candidate key) begins_pair start)
            self.old result self.new }
    {
        if begins_pair && key.mark.line < start.line {
            return Err(self.refuse_behind(0, FaultText::MisplacedColon, start));
        }
        let opening = if begins_pair {
            Opening::FlowMappingAndKey
        } else if self.is_further(key.mark.col) {
            Opening::BlockMappingAndKey
        } else {
            Opening::Key
        };
        self.queue.set_opening(key.place, opening);
        self.roll(key.mark.col)?;
        self.go_deeper();
        self.forget_key();
        self.key_allowed = false;
        self.put(start, start, TokenKind::Value)
    }

    // The colon has no key on its line, or its key began with `?`.
    #[tactic(auto, unfolding(crate::specs::Steps::Value::value_alone, crate::specs::Steps::Value::opening_actions))]
    fn fetch_value_alone(&mut self, begins_pair: bool, start: Marker) -> Result<(), Stopped>
        requires { start.col + 1 < 2 ^ 64 }
        ensures { ActsBy (value.value_alone begins_pair start) self.old result self.new }
    {
        if begins_pair {
            self.put(start, start, TokenKind::FlowMappingStart)?;
        }
        if self.in_block() && !self.key_allowed {
            return Err(self.refuse_behind(0, FaultText::ValueNotAllowed, start));
        }
        if self.is_further(start.col) {
            self.put(start, start, TokenKind::BlockMappingStart)?;
        }
        self.roll(start.col)?;
        self.go_deeper();
        self.key_allowed = self.in_block();
        self.put(start, start, TokenKind::Value)
    }
}
