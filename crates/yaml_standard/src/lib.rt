//! A validator of YAML 1.2.2.
#![tactic(auto)]

mod ahead;
mod block;
mod block_body;
mod block_end;
mod block_lines;
mod block_scalar;
mod breaks;
mod broken;
mod broken_parts;
mod declared;
mod directive;
mod document;
mod flow;
mod front;
mod goal;
mod header;
mod hint;
mod lead;
mod leaf;
mod lines;
mod names;
mod percent;
mod place;
mod plain;
mod quoted;
mod refused;
mod resume;
mod rule;
mod spaces;
mod stream;
mod strict;
mod tag;
mod verdict;
mod walk;
mod words;

pub use rule::Rule;
pub use verdict::{Deviation, Verdict, deviations, validate};
