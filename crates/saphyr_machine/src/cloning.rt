//! Copies of machines and of readers.

ghost use Rattle.std.specs.Prelude.{◌≡◌, ℕ, List, IfOk, option_map};
ghost use Rattle.saphyr_machine.specs.Cursor.{event_of};
ghost use Rattle.saphyr_machine.specs.Views.Kept.{kept_of};

use crate::event::Event;
use crate::kept::Kept;
use crate::machine::Machine;
use crate::reader::EventReader;
use saphyr_input::input::CloneInput;
use saphyr_scalar::Span;
use std::alloc::AllocError;

// An equal event at the same place, if there is one.
fn copy_event<'input>(
    event: &Option<(Event<'input>, Span)>,
) -> Result<Option<(Event<'input>, Span)>, AllocError>
    ensures { IfOk result (λ copy. option_map event_of copy ≡ option_map event_of event.now) }
{
    match event {
        Some((event, span)) => Ok(Some((event.try_clone()?, *span))),
        None => Ok(None),
    }
}

// An equal fault, handed out or not as it was, if there is one.
fn copy_kept(kept: &Option<Kept>) -> Result<Option<Kept>, AllocError>
    ensures { IfOk result (λ copy. option_map kept_of copy ≡ option_map kept_of kept.now) }
{
    match kept {
        Some(kept) => Ok(Some(Kept {
            fault: kept.fault.try_clone()?,
            given: kept.given,
        })),
        None => Ok(None),
    }
}

impl<T: CloneInput> Machine<T> {
    ghost use Rattle.saphyr_scanner.specs.Views.Tokens.{Remaining};
    ghost use Rattle.saphyr_machine.specs.Views.Machines.{machine_before};

    // An independent machine that expects the same and reads the same tokens.
    fn try_clone(&self) -> Result<Self, AllocError>
        ensures scanner { IfOk result (λ copy. copy.scanner ≡ self.now.scanner) }
        ensures machine { (tokens : Remaining) → IfOk result
            (λ copy. machine_before tokens copy ≡ machine_before tokens self.now) }
    {
        let states = self.states.clone()?;
        let pair_ends = self.pair_ends.clone()?;
        let anchors = self.anchors.try_clone()?;
        let prefixes = self.prefixes.try_clone()?;
        // The scanner comes last. So no copy of a scanner is dropped here, which would be expensive to prove.
        match self.scanner.try_clone() {
            Ok(scanner) => Ok(Machine {
                scanner,
                state: self.state,
                states,
                pair_ends,
                anchors,
                prefixes,
                keep_tags: self.keep_tags,
                alloc: self.alloc,
            }),
            Err(e) => Err(e),
        }
    }
}

impl<'input, T: CloneInput> EventReader<'input, T> {
    ghost use Rattle.saphyr_machine.specs.Views.Readers.{cursor_in, cursor_over, scanning_of};

    /// Has the copies that come share the names of anchors, of which they then take no time.
    pub fn share_names(&mut self)
        ensures { self.new ≡ self.old }
    {
        self.machine.anchors.share();
    }

    /// An independent reader at the same place.
    pub fn try_clone(&self) -> Result<Self, AllocError>
        ensures scanner { IfOk result (λ copy. scanning_of copy ≡ scanning_of self.now) }
        ensures over { IfOk result
            (λ copy. (rest : List ℕ) → cursor_over rest copy ≡ cursor_over rest self.now) }
        ensures cursor { IfOk result
            (λ copy. (more : List ℕ) → cursor_in more copy ≡ cursor_in more self.now) }
    {
        let kept = copy_kept(&self.kept)?;
        let current = match copy_event(&self.current) {
            Ok(current) => current,
            Err(e) => {
                drop(kept);
                return Err(e);
            }
        };
        // The machine comes last for the same reason.
        match self.machine.try_clone() {
            Ok(machine) => Ok(EventReader {
                machine,
                current,
                kept,
                inside: self.inside,
                finished: self.finished,
            }),
            Err(e) => {
                drop(current);
                drop(kept);
                Err(e)
            }
        }
    }
}
