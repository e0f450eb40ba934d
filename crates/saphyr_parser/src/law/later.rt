//! Each call leaves a later parser. Promises such as that on spans hold of it, whatever was called before.
ghost use Rattle.std.specs.Prelude.{◌≡◌, Bool, List, None, Option, Result, Some, false, true, ℕ};
ghost use Rattle.saphyr_scalar.specs.declared.scalar.position.Span.{Span};
ghost use Rattle.saphyr_machine.specs.declared.event.Event.{Event as DeclaredEvent};
ghost use Rattle.saphyr_machine.specs.declared.fault.Fault.{Fault as DeclaredFault};
ghost use Rattle.saphyr_machine.specs.Events.{Happening};
ghost use Rattle.saphyr_machine.specs.Cursor.{EventCursor, IsKept};
ghost use Rattle.saphyr_machine.specs.Calls.{AdvancesOver, GivesNext, Looks};
ghost use Rattle.saphyr_machine.specs.Loading.{Loads, MeetsBehind, Portion};
ghost use Rattle.saphyr_parser.specs.declared.printing.fault.DumpFault.{DumpFault as DeclaredDumpFault};
ghost use Rattle.saphyr_parser.specs.Dumps.{Leaves};
ghost use Rattle.event_laws.specs.Promises.{KeepsSpans};
ghost use Rattle.event_laws.specs.SpansWithin.{IsLater};

use crate::cursor::Parser;
use saphyr_input::input::Input;
use saphyr_machine::{Fault, SpannedEventReceiver};

/// Each call leaves a later parser: `next` and `peek`; events that are handed out one after the other, and a peek after
/// them; and `dump`. What is later than a later parser is later.
pub fn leaves_later_parsers()
    ensures behind { (first middle last : EventCursor) → IsLater first middle → IsLater middle last
        → IsLater first last }
    ensures next { (item : Option (Result (DeclaredEvent × Span) DeclaredFault))
        (old new : EventCursor)
        → GivesNext item old new → IsLater old new }
    ensures look { (old new : EventCursor) → Looks old new → IsLater old new }
    ensures events { (handed : List (Happening × Span)) (old new : EventCursor)
        → AdvancesOver handed old new → IsLater old new }
    ensures met { (handed : List (Happening × Span)) (old new : EventCursor)
        → MeetsBehind handed old new → IsLater old new }
    ensures dump { (answer : Result (Unit {0}) DeclaredDumpFault) (old new : EventCursor)
        (held written : Option (List ℕ)) → Leaves answer old new held written → IsLater old new }
{}

/// So does `load` with this receiver, as its clauses say of the parser that is left.
pub fn loads_later_parsers<'input, R: SpannedEventReceiver<'input>>()
    ensures { (answer : Result (Unit {0}) DeclaredFault) (p : Portion) (old new : EventCursor)
        (first last : R) → (IsKept old.kept → new ≡ old)
        → (old.kept ≡ None → (span : Span) → old.finished ≡ Some span → new ≡ old)
        → (old.kept ≡ None → old.finished ≡ None → old.inside ≡ true → new ≡ old)
        → (old.kept ≡ None → old.finished ≡ None → old.inside ≡ false
        → Loads R.receives answer p old first last new)
        → IsLater old new }
{}

/// The spans of what a later parser gives are in the text too.
pub fn keeps_spans_later()
    ensures { (text : List ℕ) (old new : EventCursor) → KeepsSpans text old → IsLater old new
        → KeepsSpans text new }
{}

/// After a call of `load`, whatever it returns, the spans of what is still to come are in the text.
pub fn keeps_spans_over_load<'input, T: Input, R: SpannedEventReceiver<'input>>(
    parser: &mut Parser<'input, T>,
    recv: &mut R,
    multi: bool,
) -> Result<(), Fault>
    ensures later { IsLater parser.old parser.new }
    ensures spans { (text : List ℕ) → KeepsSpans text parser.old → KeepsSpans text parser.new }
{
    loads_later_parsers::<R>();
    keeps_spans_later();
    parser.load(recv, multi)
}
