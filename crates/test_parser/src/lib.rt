//! The tests of the libraries, over their public names: of a parser's events and faults, of its limit, of receivers,
//! and of the lines that it prints; in `reader` those of the crates that read a text, in `trees` those of documents as
//! trees, in `checker` those of the checker of files.
//!
//! They are in a crate of their own so that those crates are proved once and not a second time with their tests, and in
//! one crate, since the whole parser is linked with each crate of tests. A test states what is told as lines, and one
//! helper compares them: so that few functions hold events and faults, which are dear to prove where they are dropped.
#![tactic(auto)]

#[cfg(test)]
mod checker;
#[cfg(test)]
mod counting;
#[cfg(test)]
mod dumping;
#[cfg(test)]
mod events;
#[cfg(test)]
mod helpers;
#[cfg(test)]
mod limits;
#[cfg(test)]
mod loading;
#[cfg(test)]
mod parts;
#[cfg(test)]
mod reader;
#[cfg(test)]
mod running;
#[cfg(test)]
mod showing;
#[cfg(test)]
mod tags;
#[cfg(test)]
mod trees;
#[cfg(test)]
mod writer;
