//! The parser as its callers see it: a place in the list of a text's events.

ghost use Rattle.std.specs.Prelude.{◌≡◌, ◌≤◌, ◌<◌, ◌^◌, ℕ, ◌+◌, List, length, take, IfOk};
ghost use Rattle.std.specs.Str.{chars};
ghost use Rattle.saphyr_input.specs.Listed.{Lists, Listed};
ghost use Rattle.saphyr_scanner.specs.Steps.Remaining.{scan};
ghost use Rattle.event_laws.specs.Limits.{most_characters};
ghost use Rattle.saphyr_machine.specs.Cursor as spec;
ghost use Rattle.saphyr_machine.specs.Calls as calls;
ghost use Rattle.event_laws.specs.Promises.{KeepsSpans, ReadsClosedYaml, ReadsJson, ReadsYaml, TakesEvents};

use event_laws::takes_all_events;
use saphyr_input::input::{CloneInput, Input};
use saphyr_input::{BufferedInput, StrInput};
use saphyr_machine::{Event, EventReader, Fault, Progress, SpannedEventReceiver};
use saphyr_scalar::Span;
use saphyr_scanner::Scanner;
use saphyr_scanner::law::{bounds_tokens, ends_with_the_stream, places_taken_tokens};
use std::alloc::{AllocError, Global};
use std::marker::Model;
use yaml_laws::{hands_out_markers, is_yaml_text, scans_each_yaml_text};

/// How many characters a text may have.
const MOST_CHARACTERS: usize = 4294967295;

/// Returns the input unchanged. If one of its places is loaded, it has fewer than 2^63 characters.
fn counted<T: Input>(mut src: T) -> T
    ensures same { T.rest result ≡ T.rest src }
    ensures countable { length (T.rest result) < 2 ^ 63 }
{
    src.lookahead(1);
    src
}

/// The events of a text, one after the other. Each has a span within the text, whose start is at or before
/// its end.
///
/// Contracts see a cursor in the list of the events, which ends with at most one fault.
pub struct Parser<'input, T: Input> {
    reader: EventReader<'input, T>,
}

// Written out, so that crates that drop a parser call it. A derived one, with those of all inner types, would be
// copied to each place where a parser is dropped, and checked there.
impl<T: Input + Drop> Drop for Parser<'_, T> {
    fn drop(self) {
        let Parser { reader: _reader } = self;
    }
}

impl<'input, T: Input> Model for Parser<'input, T> {
    ghost use Rattle.saphyr_machine.specs.Calls.{IsSound};
    ghost use Rattle.saphyr_machine.specs.Cursor.{EventCursor};
    ghost use Rattle.saphyr_machine.specs.Views.Readers.{cursor};

    ghost Value = { EventCursor };

    ghost view = { λ p. cursor p.reader };

    ghost invariant = { λ p. IsSound (cursor p.reader) };
}

impl<'input, T: Input> Parser<'input, T> {
    ghost use Rattle.std.specs.Prelude.{⊤, [], Some, None, Err, true, false};
    ghost use Rattle.std.specs.Borrow.{sem};
    ghost use Rattle.saphyr_scalar.specs.declared.scalar.position.Span.{Span as PlaceSpan};
    ghost use Rattle.saphyr_machine.specs.declared.fault.Fault.TheVariants.{InsideDocument};
    ghost use Rattle.saphyr_machine.specs.Events.{StreamEnd};
    ghost use Rattle.saphyr_machine.specs.Loading as loading;
    ghost use Rattle.saphyr_parser.specs.Peeking.{LendsNext};

    /// The events of an input's text, which is refused past 4,294,967,295 characters.
    ///
    /// Each text of YAML's grammar gives exactly its forest's events, and so does each text of JSON. If
    /// one ends with a line of `---` or `...`, its events up to the marker's own come first, whatever
    /// follows.
    ///
    /// The events of every text are taken from it: all events of a forest, or a beginning of them and one
    /// fault. The text spells the forest's tokens in order, or a beginning of them. Before a fault a document
    /// ends only where the text has ended all of its collections, and never between a key and its colon. The
    /// place of a refusal is in the text, and so are both ends of each event's span.
    #[must_use]
    pub fn new(alloc: Global, src: T) -> Self
        ensures decided { result ≡ spec.at_start (scan most_characters (T.rest src)) }
        ensures json { ReadsJson most_characters (T.rest src) result }
        ensures yaml { ReadsYaml most_characters (T.rest src) result }
        ensures closed { ReadsClosedYaml most_characters (T.rest src) result }
        ensures spans { KeepsSpans (T.rest src) result }
        ensures taken { TakesEvents (T.rest src) result }
    {
        Parser::with_limit(alloc, src, MOST_CHARACTERS)
    }

    /// A parser with your own limit, for texts that you don't trust: a text with more than `limit` characters
    /// is refused. The events up to there come first, and then the fault that it is too long, unless another
    /// comes before. That fault names 4,294,967,295 characters, whatever the limit.
    ///
    /// The parser checks the limit after each token, and reads that token whole. If a token may be too long for the
    /// memory, bound the input too, by `BufferedInput::with_limit` with one item more than the limit here.
    #[must_use]
    pub fn with_limit(alloc: Global, src: T, limit: usize) -> Self
        ensures decided { result ≡ spec.at_start (scan limit (T.rest src)) }
        ensures json { ReadsJson limit (T.rest src) result }
        ensures yaml { limit ≤ most_characters → ReadsYaml limit (T.rest src) result }
        ensures closed { limit ≤ most_characters → ReadsClosedYaml limit (T.rest src) result }
        ensures spans { KeepsSpans (T.rest src) result }
        ensures taken { limit ≤ most_characters → TakesEvents (T.rest src) result }
    {
        is_yaml_text();
        scans_each_yaml_text();
        hands_out_markers();
        ends_with_the_stream();
        bounds_tokens();
        takes_all_events();
        places_taken_tokens();
        let src = counted(src);
        Parser {
            reader: EventReader::new(alloc, Scanner::new(alloc, src, limit)),
        }
    }

    /// Sets whether prefixes of tags hold for later documents too. In YAML they don't.
    ///
    /// The setting takes effect from the next end of a document that is read.
    #[must_use]
    pub fn keep_tags(mut self, value: bool) -> Self
        ensures { result ≡ spec.keeping_tags value self.entry }
    {
        self.reader.keep_tags(value);
        self
    }

    /// Hands out the next event. If a fault ends the events, hands out that fault, once.
    ///
    /// An event that was peeked is handed out without new memory. A fault is copied. If there is no memory for the
    /// copy, `OutOfMemory` is handed out, and is kept in place of the fault.
    #[inline(always)]
    pub fn next_event(&mut self) -> Option<Result<(Event<'input>, Span), Fault>>
        ensures hands { spec.HandsOutNext result (spec.to_come self.old) (spec.to_come self.new) }
        ensures remembers { spec.Remembers result self.old self.new }
        ensures given { spec.IsGiven result self.new.kept }
        ensures leaves { calls.GivesNext result self.old self.new }
        ensures over { calls.EndsTheStream self.new }
    {
        self.reader.next_event()
    }

    /// Hands out the next event, or the fault that ends the events, as `next_event` does, and writes it into its
    /// place. Use this in a loop that keeps nothing of an event: no event is moved, and the memory of a text is used
    /// again for the next.
    #[inline(always)]
    pub fn next_event_into(
        &mut self,
        next: &mut (Event<'input>, Span),
        fault: &mut Fault,
    ) -> Progress
        ensures hands { spec.HandsOutNext (calls.item_at next.new fault.new result)
            (spec.to_come self.old) (spec.to_come self.new) }
        ensures remembers { spec.Remembers (calls.item_at next.new fault.new result) self.old
            self.new }
        ensures given { spec.IsGiven (calls.item_at next.new fault.new result) self.new.kept }
        ensures leaves { calls.GivesNext (calls.item_at next.new fault.new result) self.old
            self.new }
        ensures over { calls.EndsTheStream self.new }
    {
        self.reader.advance(next, fault)
    }

    /// Shows what `next_event` hands out next, without handing it out. The same event or fault is shown again,
    /// without new memory, until it is handed out.
    pub fn peek(&mut self) -> Option<Result<&(Event<'input>, Span), &Fault>>
        ensures* { sem 𝓛 (LendsNext T.row T.Input self.entry result) }
    {
        self.reader.look();
        self.reader.shown()
    }

    /// Hands events to the receiver: those up to the end of a document or, with `multi` or if no document
    /// is left, all of them up to the end of the stream. An event that was peeked is the first.
    ///
    /// - If the stream's end was handed out before, only that event is handed over, with the same span.
    /// - A fault of the text, or `OutOfMemory` in reading, ends the events and is kept. This call and each
    ///   later one return it, and the later ones hand over nothing. `next_event` still gives it once. If it
    ///   can't be copied, `OutOfMemory` is returned.
    /// - `Receiver` says that the receiver refused an event. The parser is after that event.
    /// - `InsideDocument` says that the parser is inside a document. Nothing was handed over or changed.
    pub fn load<R: SpannedEventReceiver<'input>>(
        &mut self,
        recv: &mut R,
        multi: bool,
    ) -> Result<(), Fault>
        ensures ended { spec.IsKept self.old.kept
            → loading.ReportsFault result self.old.kept × (recv.new ≡ recv.old)
            × (self.new ≡ self.old) }
        ensures finished { self.old.kept ≡ None → (span : PlaceSpan) → self.old.finished ≡ Some span
            → loading.SendsOne R.receives result (StreamEnd, span) recv.old recv.new
            × (self.new ≡ self.old) }
        ensures inside { self.old.kept ≡ None → self.old.finished ≡ None → self.old.inside ≡ true
            → (result ≡ Err InsideDocument) × (recv.new ≡ recv.old) × (self.new ≡ self.old) }
        ensures between { self.old.kept ≡ None → self.old.finished ≡ None → self.old.inside ≡ false
            → loading.Loads R.receives result (loading.portion_to_send multi self.old) self.old recv.old
            recv.new self.new }
        ensures over { calls.EndsTheStream self.new }
    {
        self.reader.load(recv, multi)
    }
}

impl<'input, T: CloneInput> Parser<'input, T> {
    /// An independent parser at the same place of the events. It has the same events still to come, with one that
    /// was peeked, and the same setting of `keep_tags`. Advancing one doesn't move the other.
    ///
    /// Copies all that was read and not handed out, and the input by its `clone`. Over an iterator, both
    /// parsers read on from their own copies of it. The only error is that memory ran out, and it leaves
    /// this parser as it was.
    pub fn try_clone(&self) -> Result<Self, AllocError>
        ensures { IfOk result (λ copy. copy ≡ self.now) }
    {
        Ok(Parser {
            reader: self.reader.try_clone()?,
        })
    }
}

impl<'input> Parser<'input, StrInput<'input>> {
    /// The events of a text in memory, which is refused past 4,294,967,295 characters.
    #[must_use]
    pub fn new_from_str(alloc: Global, value: &'input str) -> Self
        ensures decided { result ≡ spec.at_start (scan most_characters (chars value.now)) }
        ensures json { ReadsJson most_characters (chars value.now) result }
        ensures yaml { ReadsYaml most_characters (chars value.now) result }
        ensures closed { ReadsClosedYaml most_characters (chars value.now) result }
        ensures spans { KeepsSpans (chars value.now) result }
        ensures taken { TakesEvents (chars value.now) result }
    {
        Parser::new(alloc, StrInput::new(value))
    }
}

impl<'input, I: Iterator<Item = char>> Parser<'input, BufferedInput<I>> {
    /// The events of the characters that an iterator gives up to its first `None`, which are refused past
    /// 4,294,967,295. They must be one list. The law `lists_characters` shows this for those of a text's `chars`.
    /// This call asks for the first of them.
    ///
    /// It fails if there is no memory for a window on the characters.
    pub fn new_from_iter(alloc: Global, iter: I) -> Result<Self, AllocError>
        requires { Listed I.can_next I.next_gives iter }
        ensures decided { (text : List ℕ) → Lists I.can_next I.next_gives iter text
            → IfOk result (λ parser. parser
            ≡ spec.at_start (scan most_characters (take (most_characters + 1) text))) }
        ensures json { (text : List ℕ) → Lists I.can_next I.next_gives iter text
            → IfOk result (λ parser. ReadsJson most_characters text parser) }
        ensures yaml { (text : List ℕ) → Lists I.can_next I.next_gives iter text
            → IfOk result (λ parser. ReadsYaml most_characters text parser) }
        ensures closed { (text : List ℕ) → Lists I.can_next I.next_gives iter text
            → IfOk result (λ parser. ReadsClosedYaml most_characters text parser) }
        ensures spans { (text : List ℕ) → Lists I.can_next I.next_gives iter text
            → IfOk result (λ parser. KeepsSpans (take (most_characters + 1) text) parser) }
        ensures taken { (text : List ℕ) → Lists I.can_next I.next_gives iter text
            → IfOk result (λ parser. TakesEvents (take (most_characters + 1) text) parser) }
    {
        Ok(Parser::new(alloc, BufferedInput::new(alloc, iter)?))
    }
}

impl<'input, T: Input + Drop> Iterator for Parser<'input, T> {
    type Item = Result<(Event<'input>, Span), Fault>;

    ghost use Rattle.std.specs.Iterator.{at_most};
    ghost use Rattle.saphyr_machine.specs.Calls.{EndsTheStream, GivesNext};
    ghost use Rattle.saphyr_machine.specs.Cursor.{HandsOutNext, IsGiven, Remembers, count, to_come};

    ghost next_gives = { λ s r t. HandsOutNext r (to_come s) (to_come t) × Remembers r s t
        × IsGiven r t.kept × GivesNext r s t × EndsTheStream t };

    ghost remaining = { λ s. at_most (count (to_come s)) };

    fn next(&mut self) -> Option<Result<(Event<'input>, Span), Fault>> {
        self.next_event()
    }
}
