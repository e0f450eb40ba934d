//! The tests of the reader of scalars, and of faults and places.

mod block;
mod directive;
mod plain;
mod printed;
mod property;
mod quoted;
