//! The ways to take events by `load`.
use crate::refused_memory::ended::{is_ended, is_fault};
use crate::refused_memory::outcome::Outcome;
use crate::refused_memory::ways::{by_peek, give_want, last};
use crate::trees::ends_with_fault;
use saphyr_parser::{Fault, Input, Parser};
use std::alloc::Global;
use test_events::{ComparingReceiver, Difference, Expected};

/// The events are taken by `load`, all at once or a document at a time, and with at most one call for each line.
pub fn by_load<T: Input>(
    alloc: Global,
    parser: &mut Parser<'_, T>,
    lines: &[String],
    multi: bool,
) -> Result<Outcome, Difference> {
    let mut left = lines;
    for _ in lines {
        let (outcome, behind) = load_next(alloc, parser, left, multi)?;
        if outcome == Outcome::Refused {
            return load_again(alloc, parser, behind);
        }
        left = behind;
        if left.is_empty() {
            break;
        }
    }
    is_over(alloc, left)?;
    end_load(alloc, parser, last(lines))
}

/// `load` sends the lines that come next, and answers that of a fault. Or there is no memory. Tells what is left.
pub fn load_next<'a, T: Input>(
    alloc: Global,
    parser: &mut Parser<'_, T>,
    lines: &'a [String],
    multi: bool,
) -> Result<(Outcome, &'a [String]), Difference> {
    let mut receiver = ComparingReceiver::new(alloc, lines);
    let answer = parser.load(&mut receiver, multi);
    take_answer(&mut receiver, answer)
}

fn take_answer<'a>(
    receiver: &mut ComparingReceiver<'a>,
    answer: Result<(), Fault>,
) -> Result<(Outcome, &'a [String]), Difference> {
    if matches!(answer, Err(Fault::OutOfMemory)) {
        drop(answer);
        receiver.check()?;
        return Ok((Outcome::Refused, receiver.left()));
    }
    receiver.check_answer(answer)?;
    Ok((Outcome::Whole, receiver.left()))
}

/// No line is left.
pub fn is_over(alloc: Global, left: &[String]) -> Result<(), Difference> {
    let mut expected = Expected::new(alloc, left);
    expected.is_next(None)
}

// A fault that `load` answered is still to be given, and the end of the stream isn't.
fn end_load<T: Input>(
    alloc: Global,
    parser: &mut Parser<'_, T>,
    last: &[String],
) -> Result<Outcome, Difference> {
    if ends_with_fault(last) {
        return by_peek(alloc, parser, last);
    }
    is_ended(alloc, parser, last)
}

// `load` has answered lack of memory. If that was met in reading, it is kept, and nothing more is sent. Or
// all events were sent and only the copy of the text's fault was refused: then that is answered now.
fn load_again<T: Input>(
    alloc: Global,
    parser: &mut Parser<'_, T>,
    left: &[String],
) -> Result<Outcome, Difference> {
    match load_next(alloc, parser, left, true)? {
        (Outcome::Refused, behind) if behind.len() == left.len() => give_want(alloc, parser),
        (Outcome::Refused, _) => Err(Difference::new(alloc, "`load` sends more")),
        (Outcome::Whole, behind) => report_fault(alloc, parser, left, behind),
    }
}

// The only line that was left was answered, a fault, which is still to be given.
fn report_fault<T: Input>(
    alloc: Global,
    parser: &mut Parser<'_, T>,
    before: &[String],
    behind: &[String],
) -> Result<Outcome, Difference> {
    if !before.iter().all(is_fault) || !behind.is_empty() {
        return Err(Difference::new(alloc, "`load` goes on"));
    }
    end_load(alloc, parser, before)?;
    Ok(Outcome::Refused)
}
