//! The calls of an input as values: a test is a table of texts and steps, and few functions hold an input.

use crate::helpers::expect;
use example_count::Characters;
use saphyr_input::input::{CloneInput, Input, SkipTabs};
use saphyr_input::law::lists_characters;
use saphyr_input::{BufferedInput, StrInput};
use std::alloc::{AllocError, Global};
use std::process::Abort;
use std::str::Chars;

/// A question about what comes next.
#[derive(Clone, Copy)]
pub(super) enum Ask {
    Char(char),
    CharAt(usize, char),
    Two(char, char),
    Three(char, char, char),
    DocumentIndicator,
    DocumentStart,
    DocumentEnd,
    PlainInBlock,
    PlainInFlow,
    BlankOrBreak,
    BlankOrBreakz,
    Blank,
    Break,
    Breakz,
    Z,
    Flow,
    Digit,
    Alpha,
}

/// A call of an input, and what it is to answer.
#[derive(Clone, Copy)]
pub(super) enum Step<'a> {
    /// `lookahead`, by no more places than can be loaded.
    Load(usize),
    /// `buflen`.
    Loaded(usize),
    /// `buf_is_empty`.
    Empty,
    /// `raw_read_ch`, where no place is loaded.
    Read(char),
    /// `raw_read_non_breakz_ch`, where no place is loaded.
    ReadInLine(Option<char>),
    /// `look_ch`.
    Look(char),
    /// `peek`, where a place is loaded.
    Peek(char),
    /// `peek_opt`, where a place is loaded.
    PeekOpt(Option<char>),
    /// `peek_nth`, where so many places are loaded.
    PeekNth(usize, char),
    /// `skip`, where a place is loaded.
    Skip,
    /// `skip_n`, where so many places are loaded.
    SkipMany(usize),
    /// `skip_while_blank`.
    SkipBlanks(usize),
    /// `skip_while_non_breakz`.
    SkipLine(usize),
    /// `skip_ws_to_eol`: of which kind, how many are skipped, and what was met.
    Separate(SkipTabs, usize, Result<SkipTabs, &'a str>),
    /// `fetch_while_is_yaml_non_space`: how many, and what was fetched until then.
    Word(usize, &'a str),
    /// `fetch_while_is_alpha`, likewise.
    Letters(usize, &'a str),
    /// Four places are loaded, and the answer is yes.
    Is(Ask),
    /// Four places are loaded, and the answer is no.
    IsNot(Ask),
    /// Just these characters remain.
    Rest(&'a str),
    /// `clone`: the copy has as much loaded, and just these characters remain of it.
    Copy(&'a str),
}

/// A text, and the steps that are taken on it.
pub(super) type Row<'a> = (&'a str, &'a [Step<'a>]);

// Whether four places are loaded, and this is so of them.
fn is_so<T: Input>(input: &T, ask: Ask, wanted: bool) -> bool {
    if input.buflen() < 4 {
        return false;
    }
    let answer = match ask {
        Ask::Char(c) => input.next_char_is(c),
        Ask::CharAt(n, c) => n < 4 && input.nth_char_is(n, c),
        Ask::Two(first, second) => input.next_2_are(first, second),
        Ask::Three(first, second, third) => input.next_3_are(first, second, third),
        Ask::DocumentIndicator => input.next_is_document_indicator(),
        Ask::DocumentStart => input.next_is_document_start(),
        Ask::DocumentEnd => input.next_is_document_end(),
        Ask::PlainInBlock => input.next_can_be_plain_scalar(false),
        Ask::PlainInFlow => input.next_can_be_plain_scalar(true),
        Ask::BlankOrBreak => input.next_is_blank_or_break(),
        Ask::BlankOrBreakz => input.next_is_blank_or_breakz(),
        Ask::Blank => input.next_is_blank(),
        Ask::Break => input.next_is_break(),
        Ask::Breakz => input.next_is_breakz(),
        Ask::Z => input.next_is_z(),
        Ask::Flow => input.next_is_flow(),
        Ask::Digit => input.next_is_digit(),
        Ask::Alpha => input.next_is_alpha(),
    };
    answer == wanted
}

// Whether so many places can be loaded. They are, then.
fn loads<T: Input>(input: &mut T, count: usize) -> bool {
    if count > input.bufmaxlen() {
        return false;
    }
    input.lookahead(count);
    true
}

// Whether so many places are loaded. They are taken off, then.
fn skips<T: Input>(input: &mut T, count: usize) -> bool {
    if count > input.buflen() {
        return false;
    }
    input.skip_n(count);
    true
}

// Whether a place is loaded. It is taken off, then.
fn skips_one<T: Input>(input: &mut T) -> bool {
    if input.buflen() == 0 {
        return false;
    }
    input.skip();
    true
}

// Whether the white space and the comment that come next are this long, and this is met in them.
fn separates<T: Input>(
    input: &mut T,
    tabs: SkipTabs,
    count: usize,
    answer: Result<SkipTabs, &str>,
) -> bool {
    let (skipped, met) = match tabs {
        SkipTabs::Yes => input.skip_ws_to_eol(SkipTabs::Yes),
        _ => input.skip_ws_to_eol(SkipTabs::No),
    };
    skipped == count && met == answer
}

// Whether just these characters remain.
fn remains<T: Input>(input: &mut T, rest: &str) -> bool {
    for c in rest.chars() {
        if input.look_ch() != c || input.peek_opt() != Some(c) {
            return false;
        }
        input.skip();
    }
    input.look_ch() == '\0' && input.peek_opt().is_none()
}

// Whether so many characters were fetched, and the text is this after them.
fn is_fetched(fetched: Result<usize, AllocError>, count: usize, out: &String, text: &str) -> bool {
    matches!(fetched, Ok(n) if n == count) && out.as_str() == text
}

// Whether a copy was made, has as much loaded, and just these characters remain of it.
fn is_copied<T: Input + Drop>(copied: Result<T, AllocError>, loaded: usize, rest: &str) -> bool {
    match copied {
        Ok(mut copy) => {
            let holds = copy.buflen() == loaded && remains(&mut copy, rest);
            drop(copy);
            holds
        }
        Err(_) => false,
    }
}

// Whether a step is answered as it is to be.
fn answers<T: CloneInput + Drop>(input: &mut T, out: &mut String, step: Step<'_>) -> bool {
    match step {
        Step::Load(count) => loads(input, count),
        Step::Loaded(count) => input.buflen() == count,
        Step::Empty => input.buf_is_empty(),
        Step::Read(c) => input.buflen() == 0 && input.raw_read_ch() == c,
        Step::ReadInLine(c) => input.buflen() == 0 && input.raw_read_non_breakz_ch() == c,
        Step::Look(c) => input.look_ch() == c,
        Step::Peek(c) => input.buflen() > 0 && input.peek() == c,
        Step::PeekOpt(c) => input.buflen() > 0 && input.peek_opt() == c,
        Step::PeekNth(n, c) => n < input.buflen() && input.peek_nth(n) == c,
        Step::Skip => skips_one(input),
        Step::SkipMany(count) => skips(input, count),
        Step::SkipBlanks(count) => input.skip_while_blank() == count,
        Step::SkipLine(count) => input.skip_while_non_breakz() == count,
        Step::Separate(tabs, count, answer) => separates(input, tabs, count, answer),
        Step::Word(count, text) => {
            let fetched = input.fetch_while_is_yaml_non_space(out);
            is_fetched(fetched, count, out, text)
        }
        Step::Letters(count, text) => {
            let fetched = input.fetch_while_is_alpha(out);
            is_fetched(fetched, count, out, text)
        }
        Step::Is(ask) => is_so(input, ask, true),
        Step::IsNot(ask) => is_so(input, ask, false),
        Step::Rest(rest) => remains(input, rest),
        Step::Copy(rest) => is_copied(input.clone(), input.buflen(), rest),
    }
}

fn answers_all<T: CloneInput + Drop>(input: &mut T, out: &mut String, steps: &[Step]) -> bool {
    for &step in steps {
        if !answers(input, out, step) {
            return false;
        }
    }
    true
}

// Whether each step is answered as it is to be, with nothing fetched before.
fn follows<T: CloneInput + Drop>(alloc: Global, mut input: T, steps: &[Step]) -> bool {
    let mut out = String::new(alloc);
    answers_all(&mut input, &mut out, steps)
}

/// Whether an input over an iterator follows the steps.
pub(super) fn iter_follows(alloc: Global, input: BufferedInput<Chars<'_>>, steps: &[Step]) -> bool {
    follows(alloc, input, steps)
}

// The characters of a text as those of an iterator.
fn characters_of<'a>(alloc: Global, text: &'a str) -> Result<BufferedInput<Chars<'a>>, AllocError> {
    let iter = text.chars();
    lists_characters(&iter);
    BufferedInput::new(alloc, iter)
}

fn text_follows_by_iter(alloc: Global, text: &str, steps: &[Step]) -> bool {
    match characters_of(alloc, text) {
        Ok(input) => iter_follows(alloc, input, steps),
        Err(_) => false,
    }
}

fn text_follows(alloc: Global, text: &str, steps: &[Step]) -> bool {
    follows(alloc, StrInput::new(text), steps)
}

// Whether a list of characters does, whose calls have the default bodies.
fn list_follows(alloc: Global, characters: &[char], steps: &[Step]) -> bool {
    follows(alloc, Characters::new(characters), steps)
}

fn text_follows_by_list(alloc: Global, text: &str, steps: &[Step]) -> bool {
    match text.chars().collect::<Vec<char>>(alloc) {
        Ok(characters) => list_follows(alloc, characters.as_slice(), steps),
        Err(_) => false,
    }
}

/// Each text answers as it is to, as a text, as an iterator and as a list of characters.
pub(super) fn expect_steps(rt: &impl Abort, alloc: Global, rows: &[Row]) {
    for &(text, steps) in rows {
        expect(rt, text_follows(alloc, text, steps), text);
        expect(rt, text_follows_by_iter(alloc, text, steps), text);
        expect(rt, text_follows_by_list(alloc, text, steps), text);
    }
}
