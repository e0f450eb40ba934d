//! What is left where a receiver refuses an event.

use crate::inputs::parser_of;
use crate::ways::is_left_to_clone;
use saphyr_parser::{CloneInput, Fault, Input, Parser};
use std::alloc::Global;
use test_events::{Case, ComparingReceiver, Difference};

/// Refuses each event of a text in turn.
pub fn compare(alloc: Global, case: &Case) -> Result<(), Difference> {
    for place in 0..case.lines.len() {
        refuse_at(alloc, case, place)?;
    }
    Ok(())
}

// Refuses the event of this line, if it is that of one.
fn refuse_at(alloc: Global, case: &Case, place: usize) -> Result<(), Difference> {
    let lines = case.lines.as_slice();
    let Some(line) = lines.get(place) else {
        return Ok(());
    };
    if !line.starts_with("> ") {
        return Ok(());
    }
    let (before, behind) = lines.split_at(place);
    let refused = refuse_between(alloc, &mut parser_of(alloc, case), before, behind);
    Difference::found_in(alloc, line.as_str(), refused)
}

// Where the first of the lines after is refused, those before it have come, and the others are left.
fn refuse_between<T: CloneInput>(
    alloc: Global,
    parser: &mut Parser<'_, T>,
    before: &[String],
    behind: &[String],
) -> Result<(), Difference> {
    refuse_behind(alloc, parser, before)?;
    is_left_to_clone(alloc, parser, behind.get(1..).unwrap_or(&[]))?;
    if behind.len() == 1 {
        return ends_again(alloc, parser, behind);
    }
    Ok(())
}

// `load` hands over these lines and answers that the next event is refused.
fn refuse_behind<T: Input>(
    alloc: Global,
    parser: &mut Parser<'_, T>,
    before: &[String],
) -> Result<(), Difference> {
    let mut receiver = ComparingReceiver::refusing(alloc, before, before.len());
    let answer = parser.load(&mut receiver, true);
    let refused = matches!(answer, Err(Fault::Receiver));
    drop(answer);
    if refused {
        return receiver.check_end();
    }
    Err(Difference::new(alloc, "`load` doesn't answer the refusal"))
}

// `load` hands over the end of the stream, which was refused before, and nothing else.
fn ends_again<T: Input>(
    alloc: Global,
    parser: &mut Parser<'_, T>,
    end: &[String],
) -> Result<(), Difference> {
    loads(parser, &mut ComparingReceiver::new(alloc, end))
}

// `load` hands over and answers what the receiver expects.
fn loads<T: Input>(
    parser: &mut Parser<'_, T>,
    receiver: &mut ComparingReceiver<'_>,
) -> Result<(), Difference> {
    let answer = parser.load(receiver, true);
    receiver.check_answer(answer)?;
    receiver.check_end()
}
