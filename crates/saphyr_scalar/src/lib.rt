//! Positions, faults and scalars of YAML, and the reader that takes scalars off a text.
#![tactic(auto)]

pub mod scalar;
pub mod values;

pub use scalar::{
    BlockScalar, Directive, DirectiveLine, FaultText, Marker, PlainEnd, Reader, Refusal,
    ScalarStyle, ScanError, Span, Spare, Stop, TagParts, error_of_refusal,
};
