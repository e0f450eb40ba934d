//! Laws of the readers of scalars, which no reader needs: each scalar, name, tag and directive that is spelled is read,
//! and line breaks of all three kinds are read alike.
//!
//! The functions are laws: they do nothing, and what matters is their proved clauses.
#![tactic(auto)]

mod block_scalars;
mod directive_lines;
mod flow_scalars;
mod line_breaks;
mod properties;

pub use block_scalars::reads_each_block_scalar;
pub use directive_lines::{reads_each_directive, reads_each_reserved_directive};
pub use flow_scalars::{passes_to_one_place, reads_each_plain_text, reads_each_quoted};
pub use line_breaks::reads_breaks_alike;
pub use properties::{reads_each_anchor, reads_each_tag};
