//! The event with which a node begins, and those with which collections begin and end (YAML 1.2.2, 7.4, 7.5 and 8.2.3).
//! `property` has what is rare.

ghost use Rattle.std.specs.Prelude.{◌≡◌};
ghost use Rattle.saphyr_machine.specs.Steps.Nodes as spec;

use crate::context::NodeContext;
use crate::event::Event;
use crate::machine::Machine;
use crate::property::Properties;
use crate::state::State;
use crate::tag::Tag;
use saphyr_input::input::Input;
use saphyr_scalar::Span;
use saphyr_scanner::{Stopped, TokenKind};
use std::borrow::CowStr;

impl<T: Input> Machine<T> {
    ghost use Rattle.std.specs.Prelude.{List, ℕ, Ok, option_map};
    ghost use Rattle.saphyr_machine.specs.Views.Machines.{IsNext, machine_in, resolved_tag, emitted_of, EmitsBy};
    ghost use Rattle.saphyr_machine.specs.Views.Nodes.{properties as seen};
    ghost use Rattle.saphyr_scalar.specs.Views.Reader.{Moves};
    ghost use Rattle.saphyr_scanner.specs.Views.Engine.{stopped_by};

    // The sequence that is open ends. Its event has the span that is there. For speed this is a function of its own, as
    // the next ones are: the place of an event is cleared where the function that makes it begins.
    #[inline(always)]
    pub(super) fn end_sequence<'input>(&mut self, next: &mut (Event<'input>, Span))
        ensures { (more : List ℕ) → spec.ended_sequence next.old.1 (machine_in more self.old)
            ≡ Ok (emitted_of (machine_in more self.new) next.new) }
    {
        self.pop();
        // Many may end at one place. The event is then there already.
        if !matches!(next.0, Event::SequenceEnd) {
            self.write_over(&mut next.0, Event::SequenceEnd);
        }
    }

    // The mapping that is open ends. Its event has the span that is there.
    #[inline(always)]
    pub(super) fn end_mapping<'input>(&mut self, next: &mut (Event<'input>, Span))
        ensures { (more : List ℕ) → spec.ended_mapping next.old.1 (machine_in more self.old)
            ≡ Ok (emitted_of (machine_in more self.new) next.new) }
    {
        self.pop();
        if !matches!(next.0, Event::MappingEnd) {
            self.write_over(&mut next.0, Event::MappingEnd);
        }
    }

    // A sequence begins. Its event has the span that is there.
    #[inline(always)]
    fn begin_sequence<'input>(
        &mut self,
        state: State,
        anchor: usize,
        tag: Option<Tag>,
        next: &mut (Event<'input>, Span),
    )
        ensures { (more : List ℕ) → emitted_of (machine_in more self.new) next.new
            ≡ spec.begun_sequence state anchor (option_map resolved_tag tag) next.old.1
            (machine_in more self.old) }
    {
        self.state = state;
        // Many may begin one in another. The event is then there already.
        if anchor == 0 && tag.is_none() && matches!(next.0, Event::SequenceStart(0, None)) {
            return;
        }
        self.write_over(&mut next.0, Event::SequenceStart(anchor, tag));
    }

    // A mapping begins. Its event has the span that is there.
    #[inline(always)]
    pub(super) fn begin_mapping<'input>(
        &mut self,
        state: State,
        anchor: usize,
        tag: Option<Tag>,
        next: &mut (Event<'input>, Span),
    )
        ensures { (more : List ℕ) → emitted_of (machine_in more self.new) next.new
            ≡ spec.begun_mapping state anchor (option_map resolved_tag tag) next.old.1
            (machine_in more self.old) }
    {
        self.state = state;
        self.write_over(&mut next.0, Event::MappingStart(anchor, tag));
    }

    // A node begins with the next token, which is of this kind. It is an alias, or it may have properties.
    #[inline(never)]
    fn node_with_properties<'input>(
        &mut self,
        context: NodeContext,
        kind: TokenKind,
        next: &mut (Event<'input>, Span),
    ) -> Result<(), Stopped>
        requires { IsNext kind self.old }
        ensures { EmitsBy (spec.next_node context) self.old result next.new self.new }
    {
        // A name or a tag is read first, and then uses the memory of the event that is overwritten.
        self.give_back(&mut next.0);
        if let TokenKind::Alias = kind {
            return self.alias(next);
        }
        let properties = self.properties(kind)?;
        let start = properties.start;
        self.content(properties, context, next)?;
        next.1.start = start;
        Ok(())
    }

    // The content of a node after its properties begins with the next token. Its event has the span that is there, once
    // that begins with the properties.
    #[inline(always)]
    #[tactic(auto, unfolding(crate::specs::Steps::Nodes::next_content, crate::specs::Steps::Nodes::node_content))]
    fn content<'input>(
        &mut self,
        properties: Properties,
        context: NodeContext,
        next: &mut (Event<'input>, Span),
    ) -> Result<(), Stopped>
        ensures { (more : List ℕ) → Moves (λ _. emitted_of (machine_in more self.new)
            (next.new.0, spec.span_up_to (seen properties) next.new.1.end))
            (stopped_by result self.new.scanner.stop)
            (spec.next_content (seen properties) context (machine_in more self.old)) }
    {
        let Properties {
            behind,
            anchor,
            tag,
            ..
        } = properties;
        match self.peek()? {
            TokenKind::FlowSequenceStart => {
                self.skip_into(&mut next.1);
                self.begin_sequence(State::FlowSequenceFirstEntry, anchor, tag, next);
                Ok(())
            }
            TokenKind::FlowMappingStart => {
                self.skip_into(&mut next.1);
                self.begin_mapping(State::FlowMappingFirstKey, anchor, tag, next);
                Ok(())
            }
            TokenKind::BlockSequenceStart if context.allows_block() => {
                self.skip_into(&mut next.1);
                self.begin_sequence(State::BlockSequenceEntry, anchor, tag, next);
                Ok(())
            }
            TokenKind::BlockMappingStart if context.allows_block() => {
                self.skip_into(&mut next.1);
                self.begin_mapping(State::BlockMappingKey, anchor, tag, next);
                Ok(())
            }
            TokenKind::BlockEntry if context.allows_indentless() => {
                self.span_into(&mut next.1);
                self.begin_sequence(State::IndentlessSequenceEntry, anchor, tag, next);
                Ok(())
            }
            kind => match kind.style() {
                Some(style) => {
                    self.span_into(&mut next.1);
                    let text = CowStr::Owned(self.take_text()?);
                    self.pop();
                    let event = Event::Scalar(text, style, anchor, tag);
                    self.write_over(&mut next.0, event);
                    Ok(())
                }
                None => self.without_content(behind, anchor, tag, next),
            },
        }
    }

    // A node begins with the next token, which is of this kind, and is no block collection. It is separate for speed:
    // what calls `node` is small enough to be inlined.
    #[inline(never)]
    #[tactic(auto, unfolding(crate::specs::Steps::Nodes::node, crate::specs::Steps::Nodes::node_content))]
    fn other_node<'input>(
        &mut self,
        context: NodeContext,
        kind: TokenKind,
        next: &mut (Event<'input>, Span),
    ) -> Result<(), Stopped>
        requires { IsNext kind self.old }
        ensures { EmitsBy (spec.next_node context) self.old result next.new self.new }
    {
        match kind {
            TokenKind::FlowSequenceStart => {
                self.skip_into(&mut next.1);
                self.begin_sequence(State::FlowSequenceFirstEntry, 0, None, next);
                Ok(())
            }
            TokenKind::FlowMappingStart => {
                self.skip_into(&mut next.1);
                self.begin_mapping(State::FlowMappingFirstKey, 0, None, next);
                Ok(())
            }
            TokenKind::BlockEntry if context.allows_indentless() => {
                self.span_into(&mut next.1);
                self.begin_sequence(State::IndentlessSequenceEntry, 0, None, next);
                Ok(())
            }
            kind => self.node_with_properties(context, kind, next),
        }
    }

    // A node begins with the next token, which is of this kind. Most nodes have no properties, and none are made here
    // for them.
    #[inline(always)]
    #[tactic(auto, unfolding(crate::specs::Steps::Nodes::node, crate::specs::Steps::Nodes::node_content))]
    pub(super) fn node<'input>(
        &mut self,
        context: NodeContext,
        kind: TokenKind,
        next: &mut (Event<'input>, Span),
    ) -> Result<(), Stopped>
        requires { IsNext kind self.old }
        ensures { EmitsBy (spec.next_node context) self.old result next.new self.new }
    {
        match kind {
            TokenKind::BlockSequenceStart if context.allows_block() => {
                self.skip_into(&mut next.1);
                self.begin_sequence(State::BlockSequenceEntry, 0, None, next);
                Ok(())
            }
            TokenKind::BlockMappingStart if context.allows_block() => {
                self.skip_into(&mut next.1);
                self.begin_mapping(State::BlockMappingKey, 0, None, next);
                Ok(())
            }
            kind => self.other_node(context, kind, next),
        }
    }

    // A node inside a collection, which goes on in the given state after the node. After a scalar without
    // properties it does so at once: the state need not be kept for later.
    #[inline(always)]
    #[tactic(auto, unfolding(crate::specs::Steps::Nodes::node, crate::specs::Steps::Nodes::node_content), using(crate::proofs::Passing::scalar_of))]
    pub(super) fn inside<'input>(
        &mut self,
        state: State,
        context: NodeContext,
        kind: TokenKind,
        next: &mut (Event<'input>, Span),
    ) -> Result<(), Stopped>
        requires { IsNext kind self.old }
        ensures { EmitsBy (spec.next_inside state context) self.old result next.new self.new }
    {
        let Some(style) = kind.style() else {
            self.push(state)?;
            return self.node(context, kind, next);
        };
        self.span_into(&mut next.1);
        // Mostly the event that is there is a scalar too. Then its text is the place of this one's.
        if let Event::Scalar(CowStr::Owned(text), _, _, None) = &mut next.0 {
            self.take_text_into(text)?;
            next.0.restyle(style);
            self.state = state;
            return Ok(());
        }
        let text = self.take_text()?;
        self.state = state;
        let event = Event::Scalar(CowStr::Owned(text), style, 0, None);
        self.write_over(&mut next.0, event);
        Ok(())
    }

    // A node that begins with the next token, or that is left out before it and has the span that is there.
    #[inline(always)]
    #[tactic(auto, unfolding(crate::specs::Steps::Nodes::node_behind))]
    pub(super) fn node_behind<'input>(
        &mut self,
        state: State,
        next: &mut (Event<'input>, Span),
    ) -> Result<(), Stopped>
        ensures { EmitsBy (spec.node_behind state next.old.1) self.old result next.new self.new }
    {
        let kind = self.peek()?;
        if state.is_left_out(kind) {
            self.leave_out(state, next);
            return Ok(());
        }
        self.inside(state, state.context_before(), kind, next)
    }

    // A node that begins with the next token, or that is left out before it and has its span.
    #[inline(always)]
    #[tactic(auto, unfolding(crate::specs::Steps::Nodes::node_here))]
    pub(super) fn node_here<'input>(
        &mut self,
        state: State,
        next: &mut (Event<'input>, Span),
    ) -> Result<(), Stopped>
        ensures { EmitsBy (spec.node_here state) self.old result next.new self.new }
    {
        let kind = self.peek()?;
        if state.is_left_out(kind) {
            self.leave_out_here(state, next);
            return Ok(());
        }
        self.inside(state, state.context_before(), kind, next)
    }
}
