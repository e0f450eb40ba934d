//! The events of a text by each way to take them: one by one, by `load`, with a peek before each, and by
//! clones.

use crate::inputs::{Comparison, compare_inputs};
use saphyr_parser::{CloneInput, Fault, Input, Parser};
use std::alloc::{AllocError, Global};
use test_events::{Case, ComparingReceiver, Difference, Expected};

/// How many lines a case may have whose parser is cloned at each place.
const MOST_CLONED: usize = 16;

/// Compares the events of a text with its lines, through each input and by each way.
pub fn compare(alloc: Global, case: &Case) -> Result<(), Difference> {
    compare_inputs(alloc, case.text.as_str(), &Ways { alloc, case })
}

#[derive(Clone, Copy)]
struct Ways<'a> {
    alloc: Global,
    case: &'a Case,
}

impl Comparison for Ways<'_> {
    fn compare<T: CloneInput>(&self, parser: Parser<'_, T>) -> Result<(), Difference> {
        let mut parser = parser.keep_tags(self.case.keeps_tags);
        by_each_way(self.alloc, &mut parser, self.case.lines.as_slice())
    }
}

/// Finds a difference between the events of a text and its lines, through each input and by each way.
pub fn differ(alloc: Global, case: &Case) -> Result<(), Difference> {
    compare_inputs(alloc, case.text.as_str(), &Differing { alloc, case })
}

#[derive(Clone, Copy)]
struct Differing<'a> {
    alloc: Global,
    case: &'a Case,
}

impl Comparison for Differing<'_> {
    fn compare<T: CloneInput>(&self, parser: Parser<'_, T>) -> Result<(), Difference> {
        let mut parser = parser.keep_tags(self.case.keeps_tags);
        each_way_differs(self.alloc, &mut parser, self.case.lines.as_slice())
    }
}

fn each_way_differs<T: CloneInput>(
    alloc: Global,
    parser: &mut Parser<'_, T>,
    lines: &[String],
) -> Result<(), Difference> {
    is_found(alloc, "by load", by_load(alloc, parser, lines))?;
    is_found(alloc, "by peek", by_peek(alloc, parser, lines))?;
    is_found(alloc, "by clones", by_clones(alloc, parser, lines))?;
    is_found(alloc, "one by one", is_left(alloc, parser, lines))
}

// A difference was found, for which there was memory.
fn is_found(alloc: Global, way: &str, found: Result<(), Difference>) -> Result<(), Difference> {
    match found {
        Ok(()) => Err(Difference::described(format!(in alloc; "{way}: no difference"))),
        Err(difference) => {
            drop(difference.text()?);
            Ok(())
        }
    }
}

/// What a parser has left to give is the lines.
pub fn is_left<T: Input + Drop>(
    alloc: Global,
    parser: &mut Parser<'_, T>,
    lines: &[String],
) -> Result<(), Difference> {
    is_passed(parser, &mut Expected::new(alloc, lines))
}

fn is_passed<T: Input + Drop>(
    parser: &mut Parser<'_, T>,
    expected: &mut Expected<'_>,
) -> Result<(), Difference> {
    for item in parser.by_ref() {
        expected.pass_given(Some(item))?;
    }
    expected.is_next(None)
}

/// What a clone of a parser has left to give is the lines.
pub fn is_left_to_clone<T: CloneInput>(
    alloc: Global,
    parser: &Parser<'_, T>,
    lines: &[String],
) -> Result<(), Difference> {
    let mut clone = parser.try_clone()?;
    is_left(alloc, &mut clone, lines)
}

// All ways but the last leave the parser as it is: each takes the events of a clone.
fn by_each_way<T: CloneInput>(
    alloc: Global,
    parser: &mut Parser<'_, T>,
    lines: &[String],
) -> Result<(), Difference> {
    Difference::found_in(alloc, "by load", by_load(alloc, parser, lines))?;
    Difference::found_in(alloc, "by peek", by_peek(alloc, parser, lines))?;
    if lines.len() <= MOST_CLONED {
        Difference::found_in(alloc, "by clones", by_clones(alloc, parser, lines))?;
    }
    is_left(alloc, parser, lines)
}

// `load` hands over the events, a document at a time, and answers the fault.
fn by_load<T: CloneInput>(
    alloc: Global,
    parser: &Parser<'_, T>,
    lines: &[String],
) -> Result<(), Difference> {
    let mut clone = parser.try_clone()?;
    load_each(alloc, &mut clone, &mut ComparingReceiver::new(alloc, lines))
}

fn load_each<T: CloneInput>(
    alloc: Global,
    parser: &mut Parser<'_, T>,
    receiver: &mut ComparingReceiver<'_>,
) -> Result<(), Difference> {
    // Each `load` takes a line at least, and then nothing more comes.
    for _ in 0..=receiver.left().len() {
        if !loads_on(alloc, parser, receiver)? {
            break;
        }
    }
    receiver.check_end()
}

// Has the next document handed over. Whether another may come: `load` is not called where nothing is left,
// nor after a fault, since it would hand over the end of the stream again, or answer that fault.
fn loads_on<T: CloneInput>(
    alloc: Global,
    parser: &mut Parser<'_, T>,
    receiver: &mut ComparingReceiver<'_>,
) -> Result<bool, Difference> {
    if !gives_more(parser)? {
        return Ok(false);
    }
    let answer = parser.load(receiver, false);
    is_unrefused(alloc, receiver, answer)
}

fn gives_more<T: CloneInput>(parser: &Parser<'_, T>) -> Result<bool, AllocError> {
    let mut clone = parser.try_clone()?;
    Ok(gives_one(&mut clone))
}

/// Whether a parser gives anything more, which is passed.
pub fn gives_one<T: Input>(parser: &mut Parser<'_, T>) -> bool {
    let item = parser.next_event();
    let gives = item.is_some();
    drop(item);
    gives
}

// All that was handed over is as expected, and so is the fault that was answered. Whether none was.
fn is_unrefused(
    alloc: Global,
    receiver: &mut ComparingReceiver<'_>,
    answer: Result<(), Fault>,
) -> Result<bool, Difference> {
    if matches!(answer, Err(Fault::Receiver)) {
        drop(answer);
        receiver.check()?;
        return Err(Difference::new(alloc, "an event is refused"));
    }
    let more = answer.is_ok();
    receiver.check_answer(answer)?;
    Ok(more)
}

// `peek` shows each line, twice, before `next_event` gives it, and nothing after the last.
fn by_peek<T: CloneInput>(
    alloc: Global,
    parser: &Parser<'_, T>,
    lines: &[String],
) -> Result<(), Difference> {
    let mut clone = parser.try_clone()?;
    peek_each(&mut clone, &mut Expected::new(alloc, lines))
}

fn peek_each<T: Input + Drop>(
    parser: &mut Parser<'_, T>,
    expected: &mut Expected<'_>,
) -> Result<(), Difference> {
    for _line in expected.left() {
        is_shown(parser, expected)?;
        is_shown(parser, expected)?;
        pass_next(parser, expected)?;
    }
    is_shown(parser, expected)?;
    is_passed(parser, expected)
}

// `peek` shows the next line.
fn is_shown<T: Input>(
    parser: &mut Parser<'_, T>,
    expected: &mut Expected<'_>,
) -> Result<(), Difference> {
    expected.is_next(parser.peek())
}

// `next_event` gives the next line.
fn pass_next<T: Input>(
    parser: &mut Parser<'_, T>,
    expected: &mut Expected<'_>,
) -> Result<(), Difference> {
    expected.pass_given(parser.next_event())
}

// At each place clones give what is left, before the next line is peeked and after that.
fn by_clones<T: CloneInput>(
    alloc: Global,
    parser: &Parser<'_, T>,
    lines: &[String],
) -> Result<(), Difference> {
    let mut clone = parser.try_clone()?;
    clone_each(alloc, &mut clone, &mut Expected::new(alloc, lines))
}

fn clone_each<T: CloneInput>(
    alloc: Global,
    parser: &mut Parser<'_, T>,
    expected: &mut Expected<'_>,
) -> Result<(), Difference> {
    for _line in expected.left() {
        clone_twice(alloc, parser, expected.left())?;
        pass_next(parser, expected)?;
    }
    is_passed(parser, expected)
}

fn clone_twice<T: CloneInput>(
    alloc: Global,
    parser: &mut Parser<'_, T>,
    lines: &[String],
) -> Result<(), Difference> {
    is_left_to_clone(alloc, parser, lines)?;
    let _ = parser.peek();
    is_left_to_clone(alloc, parser, lines)
}
