//! Tags with prefixes in place of their handles (YAML 1.2.2, 6.8.2 and 6.9.1).

ghost use Rattle.std.specs.Prelude.{◌≡◌, ℕ, List, OnOk, string_bytes};
ghost use Rattle.saphyr_machine.specs.Steps.Tags as spec;

use crate::machine::Machine;
use saphyr_input::input::Input;
use saphyr_scalar::{FaultText, Marker};
use saphyr_scanner::Stopped;
use std::alloc::AllocError;

// Whether the handle has a word, and so must be declared.
fn is_named(handle: &str) -> bool
    ensures { result ≡ spec.is_named_handle handle.now }
{
    let bytes = handle.as_bytes();
    bytes.len() >= 2 && bytes[0] == b'!' && bytes[bytes.len() - 1] == b'!'
}

// Writes a text over another one, which mostly has room for it.
#[inline(always)]
fn write_over(text: &mut String, new: &str) -> Result<(), AllocError>
    ensures { OnOk result (string_bytes text.new ≡ new.now) }
{
    text.clear();
    text.push_str(new)
}

impl<T: Input> Machine<T> {
    ghost use Rattle.saphyr_scalar.specs.Views.Reader.{Moves};
    ghost use Rattle.saphyr_scanner.specs.Views.Engine.{stopped_by};
    ghost use Rattle.saphyr_machine.specs.Views.Machines.{machine_in};

    // Writes the prefix of the handle of a tag at this place over the handle.
    #[inline(always)]
    #[tactic(auto, unfolding(crate::specs::Steps::Tags::declared_prefix))]
    pub(super) fn write_prefix(&mut self, handle: &mut String, place: Marker) -> Result<(), Stopped>
        ensures written { Moves (λ _. string_bytes handle.new)
            (stopped_by result self.new.scanner.stop)
            (spec.declared_prefix self.old.prefixes (string_bytes handle.old) place) }
        ensures same { (more : List ℕ)
            → OnOk result (machine_in more self.new ≡ machine_in more self.old) }
    {
        if handle.is_empty() {
            return Ok(());
        }
        match self.prefixes.prefix_of(handle.as_str()) {
            Some(prefix) => {
                let written = write_over(handle, prefix);
                self.scanner.keep(written)
            }
            None => self.write_undeclared_prefix(handle, place),
        }
    }

    // Writes the prefix over a handle that no directive declares.
    fn write_undeclared_prefix(&mut self, handle: &mut String, place: Marker) -> Result<(), Stopped>
        ensures written { Moves (λ _. string_bytes handle.new)
            (stopped_by result self.new.scanner.stop)
            (spec.undeclared_prefix (string_bytes handle.old) place) }
        ensures same { (more : List ℕ)
            → OnOk result (machine_in more self.new ≡ machine_in more self.old) }
    {
        if handle.as_str() == "!!" {
            let written = write_over(handle, "tag:yaml.org,2002:");
            return self.scanner.keep(written);
        }
        if is_named(handle.as_str()) {
            return Err(self.refuse(FaultText::UndeclaredHandle, place));
        }
        Ok(())
    }
}
