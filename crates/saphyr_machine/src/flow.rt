//! The states inside flow collections (YAML 1.2.2, 7.4).

ghost use Rattle.std.specs.Prelude.{◌≡◌, ℕ, List, Ok};
ghost use Rattle.saphyr_machine.specs.Steps.Flow as spec;

use crate::context::NodeContext;
use crate::event::Event;
use crate::machine::Machine;
use crate::state::State;
use saphyr_input::input::Input;
use saphyr_scalar::{FaultText, Marker, Span};
use saphyr_scanner::{Stopped, TokenKind};

impl<T: Input> Machine<T> {
    ghost use Rattle.saphyr_machine.specs.Views.Machines.{IsNext, machine_in, emitted_of, EmitsBy};

    // An entry of a flow sequence, which is the first or comes after a comma, or the end of the sequence. These are two
    // states with one function, so that what begins an entry has one caller: a function that is large is inlined only
    // there.
    #[tactic(auto, unfolding(crate::specs::Steps::Flow::flow_sequence_entry, crate::specs::Steps::Flow::flow_sequence_first_entry))]
    pub(super) fn flow_sequence_entry<'input>(
        &mut self,
        first: bool,
        next: &mut (Event<'input>, Span),
    ) -> Result<(), Stopped>
        ensures { EmitsBy (spec.flow_sequence_turn first) self.old result next.new self.new }
    {
        if !first {
            match self.peek()? {
                TokenKind::FlowEntry => {
                    self.skip();
                }
                TokenKind::FlowSequenceEnd => {
                    self.skip_into(&mut next.1);
                    self.end_sequence(next);
                    return Ok(());
                }
                _ => return Err(self.refuse_next(FaultText::FlowSequenceEndExpected)),
            }
        }
        self.flow_sequence_item(next)
    }

    // The entry, or the end of the sequence.
    #[inline(always)]
    #[tactic(auto, unfolding(crate::specs::Steps::Flow::flow_sequence_first_entry))]
    fn flow_sequence_item<'input>(
        &mut self,
        next: &mut (Event<'input>, Span),
    ) -> Result<(), Stopped>
        ensures { EmitsBy spec.flow_sequence_first_entry self.old result next.new self.new }
    {
        match self.peek()? {
            TokenKind::FlowSequenceEnd => {
                self.skip_into(&mut next.1);
                self.end_sequence(next);
                Ok(())
            }
            TokenKind::Key => {
                self.skip_into(&mut next.1);
                self.begin_mapping(State::FlowSequenceEntryMappingKey, 0, None, next);
                Ok(())
            }
            kind => self.inside(State::FlowSequenceEntry, NodeContext::Flow, kind, next),
        }
    }

    // The key of a pair of a flow sequence, after its `?`.
    #[tactic(auto, unfolding(crate::specs::Steps::Flow::flow_sequence_entry_mapping_key))]
    pub(super) fn flow_sequence_entry_mapping_key<'input>(
        &mut self,
        next: &mut (Event<'input>, Span),
    ) -> Result<(), Stopped>
        ensures { EmitsBy spec.flow_sequence_entry_mapping_key self.old result next.new self.new }
    {
        self.node_here(State::FlowSequenceEntryMappingValue, next)
    }

    // The value of a pair of a flow sequence.
    #[tactic(auto, unfolding(crate::specs::Steps::Flow::flow_sequence_entry_mapping_value))]
    pub(super) fn flow_sequence_entry_mapping_value<'input>(
        &mut self,
        next: &mut (Event<'input>, Span),
    ) -> Result<(), Stopped>
        ensures { EmitsBy spec.flow_sequence_entry_mapping_value self.old result next.new self.new }
    {
        match self.peek()? {
            TokenKind::Value => {
                self.skip();
                self.flow_sequence_entry_mapping_node(next)
            }
            _ => {
                let end = self.span().end;
                self.push_pair_end(end)?;
                self.leave_out_here(State::FlowSequenceEntryMappingEnd, next);
                Ok(())
            }
        }
    }

    // The node after the colon of a pair of a flow sequence. The pair's end has its place after the node's
    // first token.
    #[tactic(auto, unfolding(crate::specs::Steps::Flow::flow_sequence_entry_mapping_node))]
    fn flow_sequence_entry_mapping_node<'input>(
        &mut self,
        next: &mut (Event<'input>, Span),
    ) -> Result<(), Stopped>
        ensures { EmitsBy spec.flow_sequence_entry_mapping_node self.old result next.new self.new }
    {
        let kind = self.peek()?;
        let end = self.span().end;
        self.push_pair_end(end)?;
        let state = State::FlowSequenceEntryMappingEnd;
        if state.is_left_out(kind) {
            self.leave_out_here(state, next);
            return Ok(());
        }
        self.inside(state, NodeContext::Flow, kind, next)
    }

    // The end of a pair of a flow sequence.
    #[tactic(auto, unfolding(crate::specs::Steps::Flow::flow_sequence_entry_mapping_end))]
    pub(super) fn flow_sequence_entry_mapping_end<'input>(
        &mut self,
        next: &mut (Event<'input>, Span),
    )
        ensures { (more : List ℕ)
            → spec.flow_sequence_entry_mapping_end (machine_in more self.old)
            ≡ Ok (emitted_of (machine_in more self.new) next.new) }
    {
        self.state = State::FlowSequenceEntry;
        // There is always one.
        let place = self.pair_ends.pop().unwrap_or(Marker::new(0, 1, 0));
        let span = Span::empty(place);
        self.emit(next, Event::MappingEnd, span);
    }

    // The first pair of a flow mapping, or its end.
    #[tactic(auto, unfolding(crate::specs::Steps::Flow::flow_mapping_first_key, crate::specs::Steps::Flow::flow_mapping_pair_behind_comma))]
    pub(super) fn flow_mapping_first_key<'input>(
        &mut self,
        next: &mut (Event<'input>, Span),
    ) -> Result<(), Stopped>
        ensures { EmitsBy spec.flow_mapping_first_key self.old result next.new self.new }
    {
        let kind = self.peek()?;
        self.span_into(&mut next.1);
        self.flow_mapping_pair(kind, next)
    }

    // The comma before a pair of a flow mapping, with its key, or the end of the mapping.
    #[tactic(auto, unfolding(crate::specs::Steps::Flow::flow_mapping_key, crate::specs::Steps::Flow::flow_mapping_pair_behind_comma))]
    pub(super) fn flow_mapping_key<'input>(
        &mut self,
        next: &mut (Event<'input>, Span),
    ) -> Result<(), Stopped>
        ensures { EmitsBy spec.flow_mapping_key self.old result next.new self.new }
    {
        match self.peek()? {
            TokenKind::FlowEntry => {
                self.skip_into(&mut next.1);
                let kind = self.peek()?;
                self.flow_mapping_pair(kind, next)
            }
            TokenKind::FlowMappingEnd => {
                self.skip_into(&mut next.1);
                self.end_mapping(next);
                Ok(())
            }
            _ => Err(self.refuse_next(FaultText::FlowMappingEndExpected)),
        }
    }

    // A pair begins with the next token, or the mapping ends there, and its end has the span that is there.
    #[inline(always)]
    #[tactic(auto, unfolding(crate::specs::Steps::Flow::flow_mapping_pair_behind_comma))]
    fn flow_mapping_pair<'input>(
        &mut self,
        kind: TokenKind,
        next: &mut (Event<'input>, Span),
    ) -> Result<(), Stopped>
        requires { IsNext kind self.old }
        ensures { EmitsBy (spec.flow_mapping_pair_behind_comma next.old.1) self.old result next.new
            self.new }
    {
        match kind {
            TokenKind::Key => {
                self.skip();
                self.node_here(State::FlowMappingValue, next)
            }
            TokenKind::Value => {
                self.leave_out_here(State::FlowMappingValue, next);
                Ok(())
            }
            TokenKind::FlowMappingEnd => {
                self.skip();
                self.end_mapping(next);
                Ok(())
            }
            kind => self.inside(State::FlowMappingEmptyValue, NodeContext::Flow, kind, next),
        }
    }

    // The value of a pair of a flow mapping.
    #[tactic(auto, unfolding(crate::specs::Steps::Flow::flow_mapping_value))]
    pub(super) fn flow_mapping_value<'input>(
        &mut self,
        next: &mut (Event<'input>, Span),
    ) -> Result<(), Stopped>
        ensures { EmitsBy spec.flow_mapping_value self.old result next.new self.new }
    {
        match self.peek()? {
            TokenKind::Value => {
                self.skip_into(&mut next.1);
                self.node_behind(State::FlowMappingKey, next)
            }
            _ => {
                self.leave_out_here(State::FlowMappingKey, next);
                Ok(())
            }
        }
    }

    // The value of a pair that has only a key.
    #[tactic(auto, unfolding(crate::specs::Steps::Flow::flow_mapping_empty_value))]
    pub(super) fn flow_mapping_empty_value<'input>(
        &mut self,
        next: &mut (Event<'input>, Span),
    ) -> Result<(), Stopped>
        ensures { EmitsBy spec.flow_mapping_empty_value self.old result next.new self.new }
    {
        self.peek()?;
        self.leave_out_here(State::FlowMappingKey, next);
        Ok(())
    }
}
