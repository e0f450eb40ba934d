//! Positions and faults, and the reader that takes scalars off a text.
mod anchor;
mod block;
mod byte_sets;
mod came;
mod directive;
mod escape;
mod fault;
mod law;
mod percent_escape;
mod plain;
mod position;
mod quoted;
mod reader;
mod run;
mod spare;
mod style;
mod tag;

pub use block::BlockScalar;
pub use came::reads_what_came;
pub use directive::{Directive, DirectiveLine};
pub use fault::{FaultText, Refusal, ScanError, Stop, error_of_refusal};
pub use law::{
    reads_block_texts, reads_plain_values, refuses_inside, spells_each_directive,
    spells_each_property, spells_each_quoted, takes_characters,
};
pub use plain::PlainEnd;
pub use position::{Marker, Span};
pub use reader::Reader;
pub use spare::Spare;
pub use style::ScalarStyle;
pub use tag::TagParts;
