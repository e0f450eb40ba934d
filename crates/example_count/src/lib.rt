//! Counts the scalars of a YAML text, in each way to read a parser, and has an input of its own. An example of a crate
//! that uses `saphyr_parser`.
#![tactic(auto)]

pub mod characters;
pub mod inputs;
pub mod reading;
pub mod receivers;

pub use characters::Characters;
pub use inputs::{Counts, count_all};
