//! The states inside block collections (YAML 1.2.2, 8.2).

ghost use Rattle.saphyr_machine.specs.Steps.Block as spec;

use crate::context::NodeContext;
use crate::event::Event;
use crate::machine::Machine;
use crate::state::State;
use saphyr_input::input::Input;
use saphyr_scalar::{FaultText, Span};
use saphyr_scanner::{Stopped, TokenKind};

impl<T: Input> Machine<T> {
    ghost use Rattle.saphyr_machine.specs.Views.Machines.{EmitsBy};

    // A node that begins with the next token.
    #[tactic(auto, unfolding(crate::specs::Steps::Block::block_node))]
    pub(super) fn block_node<'input>(
        &mut self,
        next: &mut (Event<'input>, Span),
    ) -> Result<(), Stopped>
        ensures { EmitsBy spec.block_node self.old result next.new self.new }
    {
        let kind = self.peek()?;
        self.node(NodeContext::Block, kind, next)
    }

    // An entry of a block sequence, or its end.
    #[tactic(auto, unfolding(crate::specs::Steps::Block::block_sequence_entry))]
    pub(super) fn block_sequence_entry<'input>(
        &mut self,
        next: &mut (Event<'input>, Span),
    ) -> Result<(), Stopped>
        ensures { EmitsBy spec.block_sequence_entry self.old result next.new self.new }
    {
        match self.peek()? {
            TokenKind::BlockEntry => {
                self.skip_into(&mut next.1);
                self.node_behind(State::BlockSequenceEntry, next)
            }
            TokenKind::BlockEnd => {
                self.skip_into(&mut next.1);
                self.end_sequence(next);
                Ok(())
            }
            _ => Err(self.refuse_next(FaultText::SequenceEntryExpected)),
        }
    }

    // An entry of a sequence at the column of the mapping around it, or its end.
    #[tactic(auto, unfolding(crate::specs::Steps::Block::indentless_sequence_entry), using(crate::proofs::Passing::put_back_again))]
    pub(super) fn indentless_sequence_entry<'input>(
        &mut self,
        next: &mut (Event<'input>, Span),
    ) -> Result<(), Stopped>
        ensures { EmitsBy spec.indentless_sequence_entry self.old result next.new self.new }
    {
        match self.peek()? {
            TokenKind::BlockEntry => {
                self.skip_into(&mut next.1);
                self.node_behind(State::IndentlessSequenceEntry, next)
            }
            _ => {
                self.span_into(&mut next.1);
                self.end_sequence(next);
                Ok(())
            }
        }
    }

    // A key of a block mapping, or its end.
    #[tactic(auto, unfolding(crate::specs::Steps::Block::block_mapping_key))]
    pub(super) fn block_mapping_key<'input>(
        &mut self,
        next: &mut (Event<'input>, Span),
    ) -> Result<(), Stopped>
        ensures { EmitsBy spec.block_mapping_key self.old result next.new self.new }
    {
        match self.peek()? {
            TokenKind::Key => {
                self.skip();
                self.node_here(State::BlockMappingValue, next)
            }
            TokenKind::Value => {
                self.leave_out_here(State::BlockMappingValue, next);
                Ok(())
            }
            TokenKind::BlockEnd => {
                self.skip_into(&mut next.1);
                self.end_mapping(next);
                Ok(())
            }
            _ => Err(self.refuse_next(FaultText::BlockMappingKeyExpected)),
        }
    }

    // The value of a pair of a block mapping.
    #[tactic(auto, unfolding(crate::specs::Steps::Block::block_mapping_value))]
    pub(super) fn block_mapping_value<'input>(
        &mut self,
        next: &mut (Event<'input>, Span),
    ) -> Result<(), Stopped>
        ensures { EmitsBy spec.block_mapping_value self.old result next.new self.new }
    {
        match self.peek()? {
            TokenKind::Value => {
                self.skip_into(&mut next.1);
                self.node_behind(State::BlockMappingKey, next)
            }
            _ => {
                self.leave_out_here(State::BlockMappingKey, next);
                Ok(())
            }
        }
    }
}
