//! A parser of a text that comes in pieces: an event comes as soon as the characters that came decide it.
#![tactic(auto)]

mod owned;
mod parser;
mod pieces;

pub use parser::PieceParser;
