//! What a parser returns if it has no event to give.

ghost use Rattle.std.specs.Prelude.{◌≡◌, IfOk};
ghost use Rattle.saphyr_machine.specs.Faults.{IsFaultOf, IsCopy};

use saphyr_scalar::{ScanError, Stop, error_of_refusal};
use std::alloc::{AllocError, AllocFailed, Global};
use thiserror::Error;

/// Why the events ended before the text's end, or why a call was refused.
#[derive(Debug, PartialEq, Eq, Drop, Error)]
pub enum Fault {
    /// The text is refused.
    #[error("{0}")]
    Scan(ScanError),
    #[error("out of memory")]
    OutOfMemory,
    /// The receiver refused an event in this call.
    #[error("the receiver refused an event")]
    Receiver,
    /// A document has begun and not ended.
    #[error("load was called inside a document")]
    InsideDocument,
}

impl From<AllocError> for Fault {
    ghost use Rattle.saphyr_machine.specs.declared.fault.Fault.TheVariants.{OutOfMemory};

    ghost from_gives = { λ _ f. f ≡ OutOfMemory };

    fn from(_e: AllocError) -> Fault {
        Fault::OutOfMemory
    }
}

impl<X: Drop> From<AllocFailed<X>> for Fault {
    ghost use Rattle.saphyr_machine.specs.declared.fault.Fault.TheVariants.{OutOfMemory};

    ghost from_gives = { λ _ f. f ≡ OutOfMemory };

    fn from(_e: AllocFailed<X>) -> Fault {
        Fault::OutOfMemory
    }
}

impl Fault {
    // The fault that ended a reading.
    pub(super) fn new(alloc: Global, stop: Stop) -> Fault
        ensures { IsFaultOf stop result }
    {
        match stop {
            Stop::Refused(refusal) => match error_of_refusal(alloc, refusal) {
                Ok(error) => Fault::Scan(error),
                Err(_) => Fault::OutOfMemory,
            },
            Stop::OutOfMemory => Fault::OutOfMemory,
        }
    }

    /// An equal fault.
    pub fn try_clone(&self) -> Result<Fault, AllocError>
        ensures { IfOk result (λ f. IsCopy f self.now) }
    {
        match self {
            Fault::Scan(error) => Ok(Fault::Scan(error.try_clone()?)),
            Fault::OutOfMemory => Ok(Fault::OutOfMemory),
            Fault::Receiver => Ok(Fault::Receiver),
            Fault::InsideDocument => Ok(Fault::InsideDocument),
        }
    }
}
