//! The tests of the crates that read a text, over their public names: of its characters, of its scalars, and of its
//! tokens.

mod input;
mod scalar;
mod scanner;
mod shown;
