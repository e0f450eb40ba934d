//! A fault that is kept, to be returned again.

ghost use Rattle.std.specs.Prelude.{◌≡◌, true};
ghost use Rattle.saphyr_machine.specs.Faults.{is_own};

use crate::fault::Fault;

// The fault that ended the events, and whether it was handed out.
#[derive(Drop)]
pub struct Kept {
    pub(super) fault: Fault,
    pub(super) given: bool,
    // Only `load` gives the other faults.
    ghost own: { is_own fault ≡ true },
}
