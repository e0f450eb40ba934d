//! A text through three inputs, and a case through one.

use example_count::Characters;
use saphyr_parser::{CloneInput, Parser, StrInput, lists_characters};
use std::alloc::Global;
use test_events::{Case, Difference};

/// A parser of the text of a case, from a string.
pub fn parser_of<'a>(alloc: Global, case: &'a Case) -> Parser<'a, StrInput<'a>> {
    Parser::new_from_str(alloc, case.text.as_str()).keep_tags(case.keeps_tags)
}

/// What is compared of a parser, over any input.
pub trait Comparison {
    fn compare<T: CloneInput>(&self, parser: Parser<'_, T>) -> Result<(), Difference>;
}

/// Compares what a text gives from a string, from an iterator and from a list of characters.
pub fn compare_inputs<C: Comparison>(
    alloc: Global,
    text: &str,
    comparison: &C,
) -> Result<(), Difference> {
    let of_text = compare_text(alloc, text, comparison);
    Difference::found_in(alloc, "from a string", of_text)?;
    let of_iterator = compare_iterator(alloc, text, comparison);
    Difference::found_in(alloc, "from an iterator", of_iterator)?;
    Difference::found_in(alloc, "from a list", compare_list(alloc, text, comparison))
}

fn compare_text<C: Comparison>(
    alloc: Global,
    text: &str,
    comparison: &C,
) -> Result<(), Difference> {
    comparison.compare(Parser::new_from_str(alloc, text))
}

fn compare_iterator<C: Comparison>(
    alloc: Global,
    text: &str,
    comparison: &C,
) -> Result<(), Difference> {
    let iter = text.chars();
    lists_characters(&iter);
    comparison.compare(Parser::new_from_iter(alloc, iter)?)
}

fn compare_list<C: Comparison>(
    alloc: Global,
    text: &str,
    comparison: &C,
) -> Result<(), Difference> {
    let characters: Vec<char> = text.chars().collect(alloc)?;
    comparison.compare(Parser::new(alloc, Characters::new(characters.as_slice())))
}
