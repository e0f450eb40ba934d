//! A parser of YAML into events.
#![tactic(auto)]

mod cursor;
pub mod law;
mod printing;

pub use cursor::Parser;
pub use printing::{DumpFault, dump, run_dump};
pub use saphyr_input::law::lists_characters;
pub use saphyr_input::{BufferedInput, CloneInput, FaithfulClone, Input, StrInput, input};
pub use saphyr_machine::{
    Event, EventReceiver, Fault, Progress, Refused, SpannedEventReceiver, Tag, no_event,
};
pub use saphyr_scalar::{Marker, ScalarStyle, ScanError, Span};
