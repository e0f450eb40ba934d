//! Receivers that refuse an event of a long text, and writers that fail. To try each event or write of 20,000 would
//! take minutes, so some are tried.

use crate::writing::{WHOLE, is_dumped};
use saphyr_parser::{Event, EventReceiver, Fault, Parser, Refused};
use std::alloc::Global;
use test_events::{Difference, Manner};

/// How many are tried at the beginning, and around the last line.
const FEW: usize = 16;

/// Of the others each of so many.
const STEP: usize = 1_000;

/// Refuses some events of a text, and has some writes of its lines fail.
pub fn compare(
    alloc: Global,
    text: &str,
    lines: &str,
    fault: Option<&str>,
) -> Result<(), Difference> {
    refuse_some(alloc, text, lines, fault)?;
    fail_some(alloc, text, lines, fault, false)?;
    fail_some(alloc, text, lines, fault, true)
}

fn is_tried(place: usize, count: usize) -> bool {
    place < FEW || place % STEP == 0 || count.abs_diff(place) <= FEW
}

fn refuse_some(
    alloc: Global,
    text: &str,
    lines: &str,
    fault: Option<&str>,
) -> Result<(), Difference> {
    let count = lines.lines().count();
    let mut left = lines;
    for place in 0..count {
        let (_, behind) = left.split_once('\n').unwrap_or(("", ""));
        left = behind;
        if is_tried(place, count) {
            refuse_at(alloc, text, place, left, fault)?;
        }
    }
    Ok(())
}

// Refuses the event of this place. Then the lines behind it are left.
fn refuse_at(
    alloc: Global,
    text: &str,
    place: usize,
    left: &str,
    fault: Option<&str>,
) -> Result<(), Difference> {
    let mut parser = Parser::new_from_str(alloc, text);
    let answer = parser.load(&mut Refusing { before: place }, true);
    let is_refused = matches!(answer, Err(Fault::Receiver));
    drop(answer);
    if !is_refused {
        drop(parser);
        return Err(Difference::new(alloc, "`load` doesn't answer the refusal"));
    }
    is_dumped(alloc, parser, left, fault, WHOLE)?;
    Ok(())
}

// Has writes fail, up to a run in which none does.
fn fail_some(
    alloc: Global,
    text: &str,
    lines: &str,
    fault: Option<&str>,
    is_silent: bool,
) -> Result<(), Difference> {
    let count = lines.lines().count();
    for before_failure in 0..usize::MAX {
        let manner = Manner {
            before_failure,
            is_silent,
            ..WHOLE
        };
        if is_tried(before_failure, count) {
            let parser = Parser::new_from_str(alloc, text);
            if !is_dumped(alloc, parser, lines, fault, manner)? {
                break;
            }
        }
    }
    Ok(())
}

/// Refuses an event after so many.
#[derive(Drop)]
struct Refusing {
    before: usize,
}

impl<'input> EventReceiver<'input> for Refusing {
    ghost use Rattle.std.specs.Prelude.{⊤};

    ghost takes = { λ _ _ _ _. ⊤ };

    fn on_event(&mut self, _ev: Event<'input>) -> Result<(), Refused> {
        self.before = self.before.checked_sub(1).ok_or(Refused)?;
        Ok(())
    }
}
