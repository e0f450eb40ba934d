//! Copies of engines.

ghost use Rattle.std.specs.Prelude.{◌≡◌, IfOk};

use crate::engine::Engine;
use saphyr_input::input::CloneInput;
use std::alloc::AllocError;

impl<T: CloneInput> Engine<T> {
    ghost use Rattle.saphyr_scanner.specs.Views.Engine.{state};

    // An independent engine at the same place with the same tokens.
    pub(crate) fn try_clone(&self) -> Result<Self, AllocError>
        ensures same { IfOk result (λ copy. state copy ≡ state self.now) }
        ensures stop { IfOk result (λ copy. copy.stop ≡ self.now.stop) }
    {
        let outer = Vec::from_slice(self.alloc, &self.outer)?;
        let outer_indents = Vec::from_slice(self.alloc, &self.outer_indents)?;
        let reader = self.reader.try_clone()?;
        Ok(Engine {
            reader,
            queue: self.queue.try_clone()?,
            level: self.level,
            outer,
            required: self.required,
            key_allowed: self.key_allowed,
            adjacent: self.adjacent,
            indent: self.indent,
            deeper: self.deeper,
            outer_indents,
            comment: self.comment,
            started: self.started,
            ended: self.ended,
            stop: self.stop,
            alloc: self.alloc,
        })
    }
}
