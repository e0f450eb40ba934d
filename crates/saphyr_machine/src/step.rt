//! One step of the machine: the next event, by the machine's state, or the fault in its place.

ghost use Rattle.std.specs.Prelude.{◌≡◌, ◌≢◌, ℕ, List, false};
ghost use Rattle.saphyr_machine.specs.Steps.Expected as spec;

use crate::event::Event;
use crate::fault::Fault;
use crate::machine::Machine;
use crate::progress::Progress;
use crate::state::State;
use saphyr_input::input::Input;
use saphyr_scalar::Span;
use saphyr_scanner::Stopped;
use std::mem::replace;

impl<T: Input> Machine<T> {
    ghost use Rattle.saphyr_machine.specs.Views.Machines.{machine_in, EmitsBy};
    ghost use Rattle.saphyr_machine.specs.Calls.{Reads, item_at};
    ghost use Rattle.saphyr_machine.specs.Faults.{IsFaultOf, is_foreign};
    ghost use Rattle.saphyr_machine.specs.declared.state.State.TheVariants.{End};

    // The fault in place of an event, by what ended the reading.
    #[inline(never)]
    fn fail(&self, fault: &mut Fault)
        ensures { IsFaultOf self.now.scanner.stop fault.new }
    {
        drop(replace(fault, Fault::new(self.alloc, self.scanner.stop())));
    }

    // Reads the next event or fault into its place, if there is one. The step is inlined here, and this is not
    // inlined, so that only a byte is returned: the room for a stop would be written and read at each event.
    #[inline(never)]
    #[tactic(auto, using(crate::proofs::Turns::refused))]
    pub(super) fn advance<'input>(
        &mut self,
        next: &mut (Event<'input>, Span),
        fault: &mut Fault,
    ) -> Progress
        ensures reads { (more : List ℕ) → Reads (item_at next.new fault.new result)
            (machine_in more self.old) (machine_in more self.new) }
        ensures own { is_foreign (item_at next.new fault.new result) ≡ false }
    {
        if matches!(self.state, State::End) {
            return Progress::Over;
        }
        match self.event(next) {
            Ok(()) => Progress::Event,
            Err(Stopped) => {
                self.fail(fault);
                Progress::Fault
            }
        }
    }

    // The next event, which is written into its place.
    #[inline(always)]
    #[tactic(auto, unfolding(crate::specs::Steps::Expected::event_step))]
    pub(super) fn event<'input>(&mut self, next: &mut (Event<'input>, Span)) -> Result<(), Stopped>
        requires { self.old.state ≢ End }
        ensures { EmitsBy spec.event_step self.old result next.new self.new }
    {
        let state = self.state;
        match state {
            State::StreamStart => self.stream_start(next),
            State::ImplicitDocumentStart => self.implicit_document_start(next),
            State::DocumentStart => self.document_start(next),
            State::DocumentContent => self.document_content(next),
            State::DocumentEnd => self.document_end(next),
            State::BlockNode => self.block_node(next),
            State::BlockSequenceEntry => self.block_sequence_entry(next),
            State::IndentlessSequenceEntry => self.indentless_sequence_entry(next),
            State::BlockMappingKey => self.block_mapping_key(next),
            State::BlockMappingValue => self.block_mapping_value(next),
            State::FlowSequenceFirstEntry | State::FlowSequenceEntry => {
                let first = matches!(state, State::FlowSequenceFirstEntry);
                self.flow_sequence_entry(first, next)
            }
            State::FlowSequenceEntryMappingKey => self.flow_sequence_entry_mapping_key(next),
            State::FlowSequenceEntryMappingValue => self.flow_sequence_entry_mapping_value(next),
            State::FlowSequenceEntryMappingEnd => {
                self.flow_sequence_entry_mapping_end(next);
                Ok(())
            }
            State::FlowMappingFirstKey => self.flow_mapping_first_key(next),
            State::FlowMappingKey => self.flow_mapping_key(next),
            State::FlowMappingValue => self.flow_mapping_value(next),
            State::FlowMappingEmptyValue => self.flow_mapping_empty_value(next),
            State::End => unreachable!(),
        }
    }
}
