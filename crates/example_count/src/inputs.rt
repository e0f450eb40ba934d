//! The inputs that a parser can have.
use crate::characters::Characters;
use crate::reading::{by_load, by_next_event, count_and_reach};
use saphyr_parser::{Fault, Parser, lists_characters};
use std::alloc::Global;

/// The scalars of a text by each input, and the furthest index of an event.
#[derive(Clone, Copy)]
pub struct Counts {
    pub from_text: usize,
    pub from_iterator: usize,
    pub from_own_input: usize,
    pub last_index: usize,
}

/// Counts the scalars of a text in each way, and finds where the last one begins.
pub fn count_all(alloc: Global, text: &str) -> Result<Counts, Fault> {
    let (from_text, last_index) = from_text(alloc, text)?;
    Ok(Counts {
        from_text,
        from_iterator: from_iterator(alloc, text)?,
        from_own_input: from_own_input(alloc, text)?,
        last_index,
    })
}

/// A text in memory. In this example prefixes of tags hold for later documents too.
fn from_text(alloc: Global, text: &str) -> Result<(usize, usize), Fault> {
    count_and_reach(Parser::new_from_str(alloc, text).keep_tags(true))
}

/// An iterator of characters. The law `lists_characters` says that it gives one list, as `new_from_iter` requires.
fn from_iterator(alloc: Global, text: &str) -> Result<usize, Fault> {
    let characters = text.chars();
    lists_characters(&characters);
    by_next_event(Parser::new_from_iter(alloc, characters)?)
}

/// An input of your own.
fn from_own_input(alloc: Global, text: &str) -> Result<usize, Fault> {
    let characters: Vec<char> = text.chars().collect(alloc)?;
    by_load(&mut Parser::new(alloc, Characters::new(characters.as_slice())))
}
