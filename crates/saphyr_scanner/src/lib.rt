//! Tokens of YAML: what a text's tokens are, and which lists of tokens belong to which forests of nodes.
#![tactic(auto)]

mod engine;
mod gap;
mod growth;
pub mod law;
mod queue;
mod scanner;
mod stopped;
mod token;

pub use growth::Growth;
pub use queue::Opening;
pub use scanner::Scanner;
pub use stopped::Stopped;
pub use token::{TokenKind, TokenParts};
