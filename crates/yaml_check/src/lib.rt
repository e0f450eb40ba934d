//! Checks texts of YAML for people: the parser's fault and warnings, each with its place and its line.
#![tactic(auto)]

mod allowed;
mod arguments;
mod brackets;
mod checking;
mod columns;
mod content;
mod counting;
mod encoding;
mod escapes;
mod finding;
mod first_places;
mod folders;
mod help;
mod json;
mod keys;
mod lines;
mod mended;
mod note;
mod open;
mod places;
mod quotes;
mod remarks;
mod rules;
mod run;
mod signs;
mod sizes;
mod standard;
mod telling;
mod told;
mod view;
mod warning;

pub use arguments::{Call, HELP, Options, WrongCall, parse_arguments};
pub use checking::{Limits, check_bytes, check_text};
pub use finding::{Finding, Findings, Notes, Problem, Severity, Verdict};
pub use folders::{Entry, FileName, Kind, Walk};
pub use note::{Note, Remark};
pub use rules::{Rule, RuleSet};
pub use run::{CheckFault, check_source, status_of, tell_unread};
pub use telling::{report, visible};
pub use told::Format;
pub use warning::{PlacedWarning, Warning};
