//! The tests of documents as trees, and of what users do with them, over the public names of `yaml_tree`. The examples
//! of `docs/READING.md` are here.
//!
//! What is loaded is stated as it prints, or is asked a question: so that few functions hold trees and faults, which
//! are dear to prove where they are dropped.

mod accessors;
mod documents;
mod expanding;
mod loaded;
mod one_by_one;
mod paths;
mod places;
mod questions;
mod tables;
