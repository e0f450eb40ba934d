//! Texts with the lists of their events, as the files of tests have them, and what compares with them. Besides these,
//! a plain function from documents to their events.
//!
//! A case begins with a line `= NAME`, with ` keep_tags` at its end where prefixes of tags hold for later
//! documents too. Then come the line `< TEXT`, a line `> EVENT @ START END` for each event, and a line
//! `! FAULT` where the text is refused. An event is written as `dump_events` prints it, but `+DOC ---`
//! where a marker begins the document, and a place as `INDEX,LINE,COLUMN`. In a text, an event and a
//! fault, `\\`, `\n`, `\r`, `\t` and `\u{HEX}` stand for the characters that they name.
#![tactic(auto)]

mod case;
mod difference;
mod escape;
mod expected;
mod printing;
mod receiving;
mod unloading;
mod writing;

pub use case::{Case, is_fault, parse_cases};
pub use difference::Difference;
pub use expected::Expected;
pub use printing::push_item;
pub use receiving::ComparingReceiver;
pub use unloading::events_of;
pub use writing::{KeepingWriter, Manner, printed};
