//! The ways to read a parser, whatever its input.
use crate::receivers::{Reach, ScalarCounter};
use saphyr_parser::{CloneInput, Event, Fault, Input, Parser};

/// A parser is an iterator.
pub fn by_iterator<T: Input + Drop>(parser: Parser<'_, T>) -> Result<usize, Fault> {
    let mut scalars = 0usize;
    for item in parser {
        let (event, _span) = item?;
        if let Event::Scalar(..) = event {
            scalars = scalars.saturating_add(1);
        }
    }
    Ok(scalars)
}

/// A loop of your own. `proofs/reading/by_next_event/Invariants.antt` shows that it ends: each turn takes one of the
/// items that are still to come.
pub fn by_next_event<T: Input + Drop>(mut parser: Parser<'_, T>) -> Result<usize, Fault> {
    let mut scalars = 0usize;
    while let Some(item) = parser.next_event() {
        let (event, _span) = item?;
        if let Event::Scalar(..) = event {
            scalars = scalars.saturating_add(1);
        }
    }
    Ok(scalars)
}

/// A receiver gets the events.
pub fn by_load<T: Input>(parser: &mut Parser<'_, T>) -> Result<usize, Fault> {
    let mut counter = ScalarCounter { scalars: 0 };
    // A peek hands out nothing: what it shows comes again.
    if parser.peek().is_some() {
        parser.load(&mut counter, true)?;
    }
    Ok(counter.scalars)
}

/// The furthest index of the events that are still to come. A second parser at the same place reads them.
pub fn last_index<T: CloneInput + Drop>(parser: &Parser<'_, T>) -> Result<usize, Fault> {
    let mut twin = parser.try_clone()?;
    let mut reach = Reach { index: 0 };
    twin.load(&mut reach, true)?;
    Ok(reach.index)
}

/// The scalars, and the furthest index of an event.
pub fn count_and_reach<T: CloneInput + Drop>(
    parser: Parser<'_, T>,
) -> Result<(usize, usize), Fault> {
    let index = last_index(&parser)?;
    Ok((by_iterator(parser)?, index))
}
