//! Why `dump` ends before all lines are written.

ghost use Rattle.std.specs.Prelude.{◌≡◌};

use crate::printing::writing::Unwritten;
use saphyr_machine::Fault;
use thiserror::Error;

/// Why the lines of the events were not all written.
#[derive(Debug, PartialEq, Eq, Drop, Error)]
pub enum DumpFault {
    /// The parser gave a fault in place of an event.
    #[error(transparent)]
    Parse(Fault),
    /// The writer returned an error, or took none of some bytes.
    #[error("can't write")]
    Write,
}

impl From<Unwritten> for DumpFault {
    ghost use Rattle.saphyr_parser.specs.declared.printing.fault.DumpFault.TheVariants as variants;

    ghost from_gives = { λ _ fault. fault ≡ variants.Write };

    fn from(_failed: Unwritten) -> DumpFault {
        DumpFault::Write
    }
}
