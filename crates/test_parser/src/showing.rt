//! What a parser tells, call by call, in the lines of cases: `> EVENT @ START END` for each event, `! FAULT` for a
//! fault. Few functions then hold an event or a fault, of which each is dear to prove.
//!
//! What owns much is let go by `drop`, a call that is cheaper to prove than the end of a function.
//!
//! Where memory is lacking a piece of the lines is missing, so that they are not those that a test wants.
use example_count::Characters;
use saphyr_parser::{
    BufferedInput, Event, EventReceiver, Fault, Input, Marker, Parser, Refused, Span,
    SpannedEventReceiver, StrInput, lists_characters,
};
use std::alloc::{AllocError, Global};
use std::process::Abort;
use std::str::Chars;
use test_events::push_item;

/// A call of a parser.
#[derive(Clone, Copy)]
pub enum Call {
    Next,
    Peek,
    /// `load` up to the end of a document.
    Load,
    /// `load` up to the end of the stream.
    LoadAll,
    /// `load` of all documents, with a receiver of events alone.
    LoadPlaceless,
    /// `load` of all documents, with a receiver that takes so many events and refuses the next.
    LoadRefused(usize),
}

/// Calls, and then those after `keep_tags(true)`, where there is one.
pub type Calls<'a> = (&'a [Call], Option<&'a [Call]>);

// Writes down what it takes, and refuses an event after so many.
#[derive(Drop)]
struct Writing<'a> {
    lines: &'a mut String,
    before_refusal: usize,
}

impl<'input> SpannedEventReceiver<'input> for Writing<'_> {
    ghost use Rattle.std.specs.Prelude.{⊤};

    ghost receives = { λ _ _ _ _. ⊤ };

    fn on_event(&mut self, ev: Event<'input>, span: Span) -> Result<(), Refused> {
        if self.before_refusal == 0 {
            drop(ev);
            return Err(Refused);
        }
        self.before_refusal -= 1;
        push_given(self.lines, Some(Ok((ev, span))));
        Ok(())
    }
}

// Writes down what it takes, as if all of it was at the text's start.
#[derive(Drop)]
struct Placeless<'a> {
    lines: &'a mut String,
}

impl<'input> EventReceiver<'input> for Placeless<'_> {
    ghost use Rattle.std.specs.Prelude.{⊤};

    ghost takes = { λ _ _ _ _. ⊤ };

    fn on_event(&mut self, ev: Event<'input>) -> Result<(), Refused> {
        let span = Span::empty(Marker::new(0, 1, 0));
        push_given(self.lines, Some(Ok((ev, span))));
        Ok(())
    }
}

// Adds the line of what comes, or that nothing does.
fn push_line(lines: &mut String, item: Option<Result<&(Event<'_>, Span), &Fault>>) {
    let _ = match item {
        Some(item) => push_item(lines, item),
        None => lines.push_str("nothing"),
    };
    let _ = lines.push('\n');
}

// Adds the line of what is handed out.
fn push_given(lines: &mut String, item: Option<Result<(Event<'_>, Span), Fault>>) {
    match &item {
        Some(item) => push_line(lines, Some(item.as_ref())),
        None => push_line(lines, None),
    }
    drop(item);
}

// Adds the answer of `load`.
fn push_answer(lines: &mut String, answer: Result<(), Fault>) {
    match &answer {
        Ok(()) => {
            let _ = lines.push_str("loaded\n");
        }
        Err(fault) => push_line(lines, Some(Err(fault))),
    }
    drop(answer);
}

// Adds the lines of what `load` hands over, and its answer.
fn push_load<T: Input + Drop>(
    lines: &mut String,
    parser: &mut Parser<'_, T>,
    multi: bool,
    before_refusal: usize,
) {
    let mut receiver = Writing {
        lines: &mut *lines,
        before_refusal,
    };
    let answer = parser.load(&mut receiver, multi);
    push_answer(lines, answer);
}

// Adds the lines that a receiver of events alone takes.
fn push_placeless<T: Input + Drop>(lines: &mut String, parser: &mut Parser<'_, T>) {
    let mut receiver = Placeless { lines: &mut *lines };
    let answer = parser.load(&mut receiver, true);
    push_answer(lines, answer);
}

// Adds the lines of what a parser tells at a call.
fn push_call<T: Input + Drop>(lines: &mut String, parser: &mut Parser<'_, T>, call: Call) {
    match call {
        Call::Next => push_given(lines, parser.next_event()),
        Call::Peek => push_line(lines, parser.peek()),
        Call::Load => push_load(lines, parser, false, usize::MAX),
        Call::LoadAll => push_load(lines, parser, true, usize::MAX),
        Call::LoadPlaceless => push_placeless(lines, parser),
        Call::LoadRefused(count) => push_load(lines, parser, true, count),
    }
}

// Adds the lines of what a parser tells at each call.
fn push_calls<T: Input + Drop>(lines: &mut String, parser: &mut Parser<'_, T>, calls: &[Call]) {
    for &call in calls {
        push_call(lines, parser, call);
    }
}

// Adds the lines of what a parser has left to give.
fn push_left<T: Input + Drop>(lines: &mut String, parser: Parser<'_, T>) {
    for item in parser {
        push_given(lines, Some(item));
    }
}

/// The lines of what a parser tells at each call, and then of what it has left.
pub fn shown<T: Input + Drop>(
    alloc: Global,
    mut parser: Parser<'_, T>,
    (calls, behind): Calls<'_>,
) -> String {
    let mut lines = String::new(alloc);
    push_calls(&mut lines, &mut parser, calls);
    match behind {
        Some(behind) => {
            let mut keeping = parser.keep_tags(true);
            push_calls(&mut lines, &mut keeping, behind);
            push_left(&mut lines, keeping);
        }
        None => push_left(&mut lines, parser),
    }
    lines
}

// The lines of an input, whose parser is made by `new` where there is no limit.
fn shown_of<T: Input + Drop>(
    alloc: Global,
    input: T,
    limit: Option<usize>,
    calls: Calls<'_>,
) -> String {
    let parser = match limit {
        Some(limit) => Parser::with_limit(alloc, input, limit),
        None => Parser::new(alloc, input),
    };
    shown(alloc, parser, calls)
}

/// The lines of a text at these calls, where no more characters than the limit may be read.
pub fn shown_by_str(alloc: Global, text: &str, limit: Option<usize>, calls: Calls<'_>) -> String {
    shown_of(alloc, StrInput::new(text), limit, calls)
}

fn characters_of<'a>(alloc: Global, text: &'a str) -> Result<BufferedInput<Chars<'a>>, AllocError> {
    let iter = text.chars();
    lists_characters(&iter);
    BufferedInput::new(alloc, iter)
}

/// The lines of a text from an iterator.
pub fn shown_by_iter(alloc: Global, text: &str, limit: Option<usize>, calls: Calls<'_>) -> String {
    match characters_of(alloc, text) {
        Ok(input) => shown_of(alloc, input, limit, calls),
        Err(_) => String::new(alloc),
    }
}

/// The lines of a text from a list of characters.
pub fn shown_by_list(alloc: Global, text: &str, limit: Option<usize>, calls: Calls<'_>) -> String {
    match text.chars().collect::<Vec<char>>(alloc) {
        Ok(list) => shown_of(alloc, Characters::new(list.as_slice()), limit, calls),
        Err(_) => String::new(alloc),
    }
}

/// Stops the test where other lines were told.
pub fn expect_lines(rt: &impl Abort, shown: String, lines: &str) {
    assert_eq!(rt; shown.as_str(), lines);
    drop(shown);
}

/// A text, calls, and the lines that a parser tells at these, those that are left after them included.
pub type Row<'a> = (&'a str, Calls<'a>, &'a str);

/// A parser tells these lines of each text from a string, from an iterator and from a list of characters.
pub fn expect_each(rt: &impl Abort, alloc: Global, rows: &[Row]) {
    for &(text, calls, lines) in rows {
        expect_lines(rt, shown_by_str(alloc, text, None, calls), lines);
        expect_lines(rt, shown_by_iter(alloc, text, None, calls), lines);
        expect_lines(rt, shown_by_list(alloc, text, None, calls), lines);
    }
}
