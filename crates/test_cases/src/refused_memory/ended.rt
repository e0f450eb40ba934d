//! What comes after all that a parser gives.

use crate::refused_memory::loading::{is_over, load_next};
use crate::refused_memory::outcome::Outcome;
use crate::refused_memory::ways::{Kind, next_kind};
use crate::trees::ends_with_fault;
use saphyr_parser::{Input, Parser};
use std::alloc::Global;
use test_events::Difference;

/// Whether the line is that of a fault.
pub fn is_fault(line: &String) -> bool {
    test_events::is_fault(line.as_str())
}

/// Nothing is left to show or to give.
fn gives_nothing<T: Input>(alloc: Global, parser: &mut Parser<'_, T>) -> Result<(), Difference> {
    if parser.peek().is_some() {
        return Err(Difference::new(alloc, "`peek` shows more"));
    }
    if !matches!(next_kind(parser), Kind::Nothing) {
        return Err(Difference::new(alloc, "`next_event` gives more"));
    }
    Ok(())
}

/// Nothing is left, and each `load` answers lack of memory and sends nothing.
pub fn is_ended_by_memory<T: Input>(
    alloc: Global,
    parser: &mut Parser<'_, T>,
) -> Result<Outcome, Difference> {
    gives_nothing(alloc, parser)?;
    keeps_want(alloc, parser)?;
    keeps_want(alloc, parser)?;
    Ok(Outcome::Refused)
}

// `load` answers lack of memory and sends nothing, and nothing is left after it.
fn keeps_want<T: Input>(alloc: Global, parser: &mut Parser<'_, T>) -> Result<(), Difference> {
    let (outcome, _) = load_next(alloc, parser, &[], true)?;
    if outcome == Outcome::Whole {
        return Err(Difference::new(alloc, "`load` forgets lack of memory"));
    }
    gives_nothing(alloc, parser)
}

/// Nothing is left, and `load` sends the last line, which is the end of the stream, or answers it, a fault.
/// Where only that fault's copy is refused, the next `load` answers it.
pub fn is_ended<T: Input>(
    alloc: Global,
    parser: &mut Parser<'_, T>,
    last: &[String],
) -> Result<Outcome, Difference> {
    gives_nothing(alloc, parser)?;
    let (outcome, left) = load_next(alloc, parser, last, true)?;
    if outcome == Outcome::Refused {
        return loads_fault(alloc, parser, left);
    }
    is_over(alloc, left)?;
    Ok(Outcome::Whole)
}

// The line that is left is that of a fault, and `load` answers it.
fn loads_fault<T: Input>(
    alloc: Global,
    parser: &mut Parser<'_, T>,
    left: &[String],
) -> Result<Outcome, Difference> {
    if !ends_with_fault(left) {
        return Err(Difference::new(alloc, "`load` finds no memory for the end"));
    }
    // Where there is no memory again, the line stays.
    let (_, left) = load_next(alloc, parser, left, true)?;
    is_over(alloc, left)?;
    Ok(Outcome::Refused)
}
