//! Callers of a parser. Their contracts follow only from those of its calls.
ghost use Rattle.std.specs.Prelude.{◌≡◌, ◌↔◌, ◌++◌, List, None, IfSome, IsTrue, false};
ghost use Rattle.saphyr_scalar.specs.declared.scalar.position.Span.{Span as PlaceSpan};
ghost use Rattle.saphyr_machine.specs.Answer.{empty_answer};
ghost use Rattle.saphyr_machine.specs.Calls.{AdvancesOver, GivesNext, IsOver};
ghost use Rattle.saphyr_machine.specs.Cursor.{EventCursor, at_start, keeping_tags, to_come};
ghost use Rattle.saphyr_machine.specs.Views.Events.{happening};
ghost use Rattle.saphyr_machine.specs.Events.{Happening, StreamEnd};
ghost use Rattle.saphyr_machine.specs.Loading.{SendsOne};
ghost use Rattle.saphyr_scanner.specs.Views.Tokens.{Remaining};

use crate::cursor::Parser;
use saphyr_input::input::Input;
use saphyr_machine::{Event, Fault, SpannedEventReceiver};
use saphyr_scalar::Span;

/// A new parser keeps no prefixes of tags, so `keep_tags(false)` changes nothing.
pub fn keeps_no_prefixes_at_first()
    ensures { (r : Remaining) → keeping_tags false (at_start r) ≡ at_start r }
{}

fn ends_the_stream(event: Event<'_>) -> bool
    ensures { IsTrue result ↔ happening event.entry ≡ StreamEnd }
{
    matches!(event, Event::StreamEnd)
}

/// Events that are handed out one after the other are the first of those that were to come, and leave the others. If
/// nothing is handed out any more, nothing is to come.
pub fn hands_out_what_comes()
    ensures events { (handed : List (Happening × PlaceSpan)) (old new : EventCursor)
        → AdvancesOver handed old new
        → ((to_come old).events ≡ handed ++ (to_come new).events)
        × ((to_come old).fault ≡ (to_come new).fault) }
    ensures over { (parser : EventCursor) → IsOver parser → to_come parser ≡ empty_answer }
{}

/// After iteration up to the end of the stream, `load` hands over only that end. The result is `None` if a fault ends
/// the events, or if the end was handed out before.
pub fn loads_the_end_again<'input, T: Input, R: SpannedEventReceiver<'input>>(
    parser: &mut Parser<'input, T>,
    recv: &mut R,
) -> Option<Result<(), Fault>>
    requires { parser.old.kept ≡ None }
    ensures { IfSome result (λ answer. (span : PlaceSpan)
        × SendsOne R.receives answer (StreamEnd, span) recv.old recv.new) }
{
    while let Some(Ok((event, _))) = parser.next_event() {
        let last = ends_the_stream(event);
        if last {
            return Some(parser.load(recv, true));
        }
    }
    None
}

/// What is handed out, and the parser that is left, are the same if the next event was peeked before.
pub fn hands_out_what_was_peeked<'input, T: Input>(
    parser: &mut Parser<'input, T>,
) -> Option<Result<(Event<'input>, Span), Fault>>
    ensures { GivesNext result parser.old parser.new }
{
    let _ = parser.peek();
    parser.next_event()
}
