//! Why documents were not loaded.
ghost use Rattle.std.specs.Prelude.{◌≡◌};

use saphyr_parser::{Fault, Marker};
use std::alloc::{AllocError, AllocFailed};
use std::fmt;
use thiserror::Error;

/// Why the documents of a text were not loaded.
#[derive(Debug, PartialEq, Eq, Drop, Error)]
pub enum TreeFault {
    /// The parser gave a fault in place of an event.
    #[error(transparent)]
    Parse(Fault),
    /// One node more than this many came, at this place.
    #[error("more than {1} nodes{place}", place = PrintedPlace(*.0))]
    TooManyNodes(Marker, usize),
    /// One collection more than this many would be open at once, at this place.
    #[error("more than {1} open collections{place}", place = PrintedPlace(*.0))]
    TooDeep(Marker, usize),
    /// There was no memory for the trees.
    #[error("out of memory")]
    OutOfMemory,
    /// The parser's next event isn't the stream's start. For `load_document`: the next event is inside a document.
    #[error("the parser has handed out events")]
    NotFresh,
}

impl From<Fault> for TreeFault {
    ghost use Rattle.yaml_tree.specs.declared.fault.TreeFault.TheVariants.{Parse};

    ghost from_gives = { λ fault f. f ≡ Parse fault };

    fn from(fault: Fault) -> TreeFault {
        TreeFault::Parse(fault)
    }
}

impl From<AllocError> for TreeFault {
    ghost use Rattle.yaml_tree.specs.declared.fault.TreeFault.TheVariants.{OutOfMemory};

    ghost from_gives = { λ _ f. f ≡ OutOfMemory };

    fn from(_e: AllocError) -> TreeFault {
        TreeFault::OutOfMemory
    }
}

impl<X: Drop> From<AllocFailed<X>> for TreeFault {
    ghost use Rattle.yaml_tree.specs.declared.fault.TreeFault.TheVariants.{OutOfMemory};

    ghost from_gives = { λ _ f. f ≡ OutOfMemory };

    fn from(_e: AllocFailed<X>) -> TreeFault {
        TreeFault::OutOfMemory
    }
}

// A place, as faults print it.
#[derive(Clone, Copy)]
struct PrintedPlace(Marker);

impl fmt::Display for PrintedPlace {
    fn fmt<W: fmt::Write>(&self, f: &mut fmt::Formatter<W>) -> fmt::Result {
        let Marker { index, line, col } = self.0;
        let column = col as u128 + 1;
        write!(f, " at byte {index} line {line} column {column}")
    }
}
