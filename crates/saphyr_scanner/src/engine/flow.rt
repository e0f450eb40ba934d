//! Flow collections: their brackets, and the commas between their entries (YAML 1.2.2, 7.4).

ghost use Rattle.std.specs.Prelude.{◌≡◌, Ok, false, ◌<◌, length};
ghost use Rattle.saphyr_scanner.specs.Grammar.Tokens as tokens;
ghost use Rattle.saphyr_scanner.specs.Steps.Core as spec;
ghost use Rattle.saphyr_scanner.specs.Steps.Flow as flow;
ghost use Rattle.saphyr_scanner.specs.Steps.State as spec_state;

use crate::engine::{Context, Engine, Level};
use crate::stopped::{Stopped, keep};
use crate::token::TokenKind;
use saphyr_input::input::Input;
use saphyr_scalar::FaultText;

// How many flow collections may be open at once.
const MOST_OPEN: usize = 255;

impl<T: Input> Engine<T> {
    ghost use Rattle.saphyr_scanner.specs.Views.Engine.{state, ActsBy, CarriesBy, Performs};
    ghost use Rattle.saphyr_scanner.specs.Steps.Queue.{next};
    ghost use Rattle.saphyr_scanner.specs.Views.Tokens.{kind_with, no_parts};

    // A flow collection is open.
    #[inline(always)]
    #[tactic(auto, using(crate::proofs::Levels::top_on))]
    fn enter(&mut self, context: Context) -> Result<(), Stopped>
        ensures { CarriesBy (λ c. Ok (flow.enter context c)) self.old result self.new }
    {
        keep(&mut self.stop, self.outer.reserve(1))?;
        self.outer.push_reserved(self.level);
        self.level.context = context;
        self.level.has_key = false;
        self.key_allowed = true;
        Ok(())
    }

    // The innermost flow collection is left.
    #[inline(always)]
    #[tactic(auto, using(crate::proofs::Levels::top_off))]
    fn leave(&mut self)
        ensures { state self.new ≡ spec_state.with_core (flow.leave (state self.old).core)
            (state self.old) }
    {
        self.level = match self.outer.pop() {
            Some(level) => level,
            None => Level::new(Context::Block),
        };
        self.key_allowed = false;
    }

    // `[` or `{`.
    #[inline(always)]
    #[tactic(auto, unfolding(crate::specs::Steps::Flow::opening_steps, crate::specs::Steps::Flow::open_collection))]
    pub(super) fn fetch_flow_start(
        &mut self,
        context: Context,
        kind: TokenKind,
    ) -> Result<(), Stopped>
        requires { 0 < length (state self.old).core.cursor.rest }
        ensures { ActsBy (flow.opening_steps context (kind_with kind no_parts)
            (next (state self.old).queue)) self.old result self.new }
    {
        self.save_key();
        self.go_deeper();
        if self.outer.len() >= MOST_OPEN {
            return Err(self.refuse_here(FaultText::RecursionLimit));
        }
        self.enter(context)?;
        let start = self.reader.mark();
        self.reader.skip_non_blank();
        self.separate()?;
        let end = self.reader.mark();
        self.put(start, end, kind)
    }

    // The innermost flow collection ends with the bracket here.
    #[inline(always)]
    #[tactic(auto, unfolding(crate::specs::Steps::Flow::close_collection))]
    fn close_collection(&mut self, kind: TokenKind) -> Result<(), Stopped>
        requires { 0 < length (state self.old).core.cursor.rest }
        ensures { ActsBy (flow.close_collection false (kind_with kind no_parts))
            self.old result self.new }
    {
        let start = self.reader.mark();
        self.leave();
        self.reader.skip_non_blank();
        self.separate()?;
        if !self.in_block() {
            self.adjacent = self.reader.mark().index;
        }
        let end = self.reader.mark();
        self.put(start, end, kind)
    }

    // An open pair without brackets of its own ends here. It is separate for speed: few pairs are open.
    #[inline(never)]
    fn put_pair_end(&mut self) -> Result<(), Stopped>
        ensures { Performs (spec.at_mark (state self.old).core.cursor.mark tokens.FlowMappingEnd)
            self.old result self.new }
    {
        let mark = self.reader.mark();
        self.put(mark, mark, TokenKind::FlowMappingEnd)
    }

    // `]`. An open pair without brackets of its own ends before it.
    #[inline(always)]
    #[tactic(auto, unfolding(crate::specs::Steps::Flow::closing_steps, crate::specs::Steps::Flow::close_collection))]
    pub(super) fn fetch_sequence_end(&mut self) -> Result<(), Stopped>
        requires { 0 < length (state self.old).core.cursor.rest }
        ensures { ActsBy flow.sequence_end_steps self.old result self.new }
    {
        if self.in_block() {
            return Err(self.refuse_here(FaultText::MisplacedBracket));
        }
        if self.level.context.ends_pair() {
            self.put_pair_end()?;
        }
        self.close_collection(TokenKind::FlowSequenceEnd)
    }

    // `}`.
    #[inline(always)]
    #[tactic(auto, unfolding(crate::specs::Steps::Flow::closing_steps))]
    pub(super) fn fetch_mapping_end(&mut self) -> Result<(), Stopped>
        requires { 0 < length (state self.old).core.cursor.rest }
        ensures { ActsBy flow.mapping_end_steps self.old result self.new }
    {
        if self.in_block() {
            return Err(self.refuse_here(FaultText::MisplacedBracket));
        }
        self.close_collection(TokenKind::FlowMappingEnd)
    }

    // `,`. An open pair without brackets of its own ends before it.
    #[inline(always)]
    #[tactic(auto, unfolding(crate::specs::Steps::Flow::flow_entry_steps, crate::specs::Steps::Flow::next_flow_entry, crate::specs::Steps::Core::remove_key))]
    pub(super) fn fetch_flow_entry(&mut self) -> Result<(), Stopped>
        requires { 0 < length (state self.old).core.cursor.rest }
        ensures { ActsBy flow.flow_entry_steps self.old result self.new }
    {
        self.remove_key()?;
        self.key_allowed = true;
        let start = self.reader.mark();
        if self.level.context.is_pair() {
            if self.level.context.ends_pair() {
                self.put_pair_end()?;
            }
            self.level.context = self.level.context.behind_entry();
        }
        self.reader.skip_non_blank();
        self.separate()?;
        let end = self.reader.mark();
        self.put(start, end, TokenKind::FlowEntry)
    }
}
