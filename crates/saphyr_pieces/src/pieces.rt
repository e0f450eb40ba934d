//! A reader of events over a text that comes in pieces. It reads ahead over what came. Where an event depends on
//! characters that did not come, it goes back to a copy of itself, and waits for more.

mod copy;
mod ending;
mod passed;
mod waiting;

ghost use Rattle.std.specs.Prelude.{◌≡◌, List, ◌++◌, [], IfOk, OnErr, ℕ, None, Some, true, false, string_bytes};
ghost use Rattle.std.specs.Str.{chars};
ghost use Rattle.saphyr_scanner.specs.Steps.Remaining.{scan};
ghost use Rattle.saphyr_scanner.specs.Views.Scanning.{text_in};
ghost use Rattle.saphyr_machine.specs.Answer.{OutOfMemory};
ghost use Rattle.saphyr_machine.specs.Cursor.{at_start, keeping_tags};
ghost use Rattle.saphyr_machine.specs.Views.Readers.{cursor, cursor_in, scanning_of};
ghost use Rattle.saphyr_pieces.specs.Pieces.{AddsText, FaultIsLast, HandsOutOrWaits, IsLost, LosesText, NeedsNoMore, at, waiting, wants_more};
ghost use Rattle.saphyr_pieces.specs.Passed.{passed_tokens};
ghost use Rattle.saphyr_pieces.specs.Views as spec;
ghost use Rattle.saphyr_pieces.specs.declared.pieces.Source.TheVariants.{Given};

use crate::owned::OwnedText;
use crate::pieces::copy::grow;
use crate::pieces::ending::Ending;
use crate::pieces::passed::Passed;
use saphyr_machine::{Event, EventReader, Fault, Progress};
use saphyr_scalar::Span;
use saphyr_scanner::{Growth, Scanner};
use std::alloc::{AllocError, Global};
use std::mem::replace;

/// How much of the text came.
#[derive(Clone, Copy, PartialEq, Eq)]
pub(crate) enum Source {
    /// More may come.
    Text,
    /// All came, or what came is refused.
    Given,
    /// Memory ran out while the text came. The next call for an event says so.
    Lost,
}

/// A reader of events, with what came of the text.
#[derive(Drop)]
pub(crate) struct PieceReader {
    source: Source,
    // It owns the text that it reads, from its place on.
    reader: EventReader<'static, OwnedText>,
    // The tokens that it passed since its last event.
    passed: Option<Passed>,
    // What came behind that text, and room for both.
    more: String,
    room: String,
    // Whether the next event depends on what is behind that text.
    starved: bool,
    // The reader as it was before it handed out the last events, and how many these are.
    copy: Option<EventReader<'static, OwnedText>>,
    events: usize,
    // How many bytes the copy's text has, with what came behind that.
    copied: usize,
    since: String,
    // How much there is to copy but the text.
    weight: usize,
    // The reader tries again as soon as more bytes wait than these.
    look_past: usize,
    // What ends what waits, and how many bytes of `more` were looked at for that.
    ending: Ending,
    seen: usize,
    // How many bytes of `more` were looked at for what may decide an event.
    looked: usize,
    alloc: Global,
}

// A reader of an empty text, of which more may come.
fn empty_reader(alloc: Global, limit: usize) -> EventReader<'static, OwnedText>
    ensures start { (text : List ℕ) → cursor_in text result ≡ at_start (scan limit text) }
    ensures rest { (scanning_of result).state.core.cursor.rest ≡ [] }
{
    let text = OwnedText::new(alloc, String::new(alloc));
    let mut scanner = Scanner::new(alloc, text, limit);
    let text = OwnedText::new(alloc, String::new(alloc));
    drop(scanner.exchange(text, Growth::Growing));
    EventReader::new(alloc, scanner)
}

// The tokens that a copy of a reader passed.
#[tactic(auto, using(crate::proofs::IdleTokens::nothing_behind))]
fn copy_passed(passed: &Option<Passed>) -> Option<Passed>
    ensures { passed_tokens result ≡ passed_tokens passed.now }
{
    if passed.is_some() {
        Some(Passed::and(passed, &None))
    } else {
        None
    }
}

impl PieceReader {
    /// A reader of a text of which nothing came, and which is refused past so many characters.
    pub(crate) fn new(alloc: Global, limit: usize) -> Self
        ensures start { (text : List ℕ) → at (spec.pieces_of result) text
            ≡ at_start (scan limit text) }
        ensures wants { wants_more (spec.pieces_of result) ≡ true }
        ensures waits { waiting (spec.pieces_of result) ≡ [] }
        ensures sound { spec.IsSoundReader result }
    {
        PieceReader {
            source: Source::Text,
            reader: empty_reader(alloc, limit),
            passed: None,
            more: String::new(alloc),
            room: String::new(alloc),
            starved: false,
            copy: None,
            events: 0,
            copied: 0,
            since: String::new(alloc),
            weight: 0,
            look_past: usize::MAX,
            ending: Ending::Any,
            seen: 0,
            looked: 0,
            alloc,
        }
    }

    // The reader goes on over its text and what came behind that. If memory runs out, nothing changes.
    #[inline(never)]
    fn take_in(&mut self, growth: Growth) -> Result<(), AllocError>
        requires sound { spec.IsSoundReader self.old }
        requires wants { wants_more (spec.pieces_of self.old) ≡ true }
        ensures at { IfOk result (λ _. (later : List ℕ)
            → spec.place_in later (passed_tokens self.new.passed) self.new.reader
            ≡ at (spec.pieces_of self.old) (text_in growth later [])) }
        ensures more { IfOk result (λ _. chars (string_bytes self.new.more) ≡ []) }
        ensures waits { waiting (spec.pieces_of self.new) ≡ waiting (spec.pieces_of self.old) }
        ensures source { self.new.source ≡ self.old.source }
        ensures sound { spec.IsSoundReader self.new }
        ensures same { OnErr result (spec.pieces_of self.new ≡ spec.pieces_of self.old) }
    {
        grow(
            self.alloc,
            &mut self.reader,
            &self.more,
            growth,
            &mut self.room,
        )?;
        self.extend_copy(growth);
        self.more.clear();
        self.seen = 0;
        self.looked = 0;
        self.starved = self.may_be_key();
        Ok(())
    }

    // Hands out the next event, if what the reader has of the text decides it.
    fn step(&mut self, next: &mut (Event<'static>, Span), fault: &mut Fault) -> Option<Progress>
        requires sound { spec.IsSoundReader self.old }
        requires wants { wants_more (spec.pieces_of self.old) ≡ true }
        ensures next { HandsOutOrWaits result next.new fault.new (spec.pieces_of self.old)
            (spec.pieces_of self.new) }
        ensures sound { spec.IsSoundReader self.new }
    {
        if self.starved {
            return None;
        }
        self.renew_copy();
        match self.reader.advance(next, fault) {
            Progress::Event => {
                self.passed = None;
                self.count(&next.0);
                self.starved = self.tells_nothing(&next.0);
                Some(Progress::Event)
            }
            Progress::Fault => self.fault_or_wait(fault),
            Progress::Over => Some(Progress::Over),
        }
    }

    // Reports the fault that the reader gave, which is the last. If the reader only starved, it goes back.
    #[inline(never)]
    fn fault_or_wait(&mut self, fault: &mut Fault) -> Option<Progress>
        ensures { spec.FailsOrWaits result fault.old fault.new self.old self.new }
    {
        if self.reader.growth() != Growth::Starved {
            self.source = Source::Given;
            self.passed = None;
            return Some(Progress::Fault);
        }
        match self.go_back() {
            Ok(()) => None,
            Err(_) => Some(self.fail(fault)),
        }
    }

    // Hands out the next event of a text of which more may come.
    fn next_of_text(
        &mut self,
        next: &mut (Event<'static>, Span),
        fault: &mut Fault,
    ) -> Option<Progress>
        requires sound { spec.IsSoundReader self.old }
        requires wants { wants_more (spec.pieces_of self.old) ≡ true }
        ensures next { HandsOutOrWaits result next.new fault.new (spec.pieces_of self.old)
            (spec.pieces_of self.new) }
        ensures sound { spec.IsSoundReader self.new }
    {
        if let Some(progress) = self.step(next, fault) {
            return Some(progress);
        }
        self.go_on(next, fault)
    }

    // Goes on over more of the text, if enough came, and hands out the next event.
    #[inline(never)]
    fn go_on(&mut self, next: &mut (Event<'static>, Span), fault: &mut Fault) -> Option<Progress>
        requires sound { spec.IsSoundReader self.old }
        requires wants { wants_more (spec.pieces_of self.old) ≡ true }
        ensures next { HandsOutOrWaits result next.new fault.new (spec.pieces_of self.old)
            (spec.pieces_of self.new) }
        ensures sound { spec.IsSoundReader self.new }
    {
        if !self.has_enough() {
            return None;
        }
        if self.reader.is_over() {
            return Some(Progress::Over);
        }
        match self.take_in(Growth::Growing) {
            Ok(()) => {
                let progress = self.step(next, fault);
                if progress.is_some() {
                    self.ending = Ending::Any;
                }
                progress
            }
            Err(_) => Some(self.fail(fault)),
        }
    }

    /// Hands out the next event or fault, which is written into its place. `None`: it waits for more of the text.
    pub(crate) fn next_event_into(
        &mut self,
        next: &mut (Event<'static>, Span),
        fault: &mut Fault,
    ) -> Option<Progress>
        requires { spec.IsSoundReader self.old }
        ensures next { HandsOutOrWaits result next.new fault.new (spec.pieces_of self.old)
            (spec.pieces_of self.new) }
        ensures ended { FaultIsLast result (spec.pieces_of self.new) }
        ensures enough { NeedsNoMore (spec.pieces_of self.old) (spec.pieces_of self.new) }
        ensures sound { spec.IsSoundReader self.new }
    {
        match self.source {
            Source::Text => self.next_of_text(next, fault),
            Source::Given => {
                self.passed = None;
                Some(self.reader.advance(next, fault))
            }
            Source::Lost => Some(self.fail(fault)),
        }
    }

    // Says that memory ran out. Nothing is left after that.
    fn fail(&mut self, fault: &mut Fault) -> Progress
        ensures reader { cursor self.new.reader ≡ spec.failed (cursor self.old.reader) }
        ensures says { spec.IsLack result fault.new }
        ensures all { self.new.source ≡ Given }
        ensures passed { passed_tokens self.new.passed ≡ [] }
    {
        self.source = Source::Given;
        self.passed = None;
        self.reader.run_out_of_memory();
        drop(replace(fault, Fault::OutOfMemory));
        Progress::Fault
    }

    // Loses the text after memory ran out. The next call for an event says so.
    fn lose(&mut self)
        requires { spec.IsSoundReader self.old }
        ensures lost { IsLost (spec.pieces_of self.new) }
        ensures waits { waiting (spec.pieces_of self.new) ≡ waiting (spec.pieces_of self.old) }
        ensures sound { spec.IsSoundReader self.new }
    {
        self.source = Source::Lost;
    }

    /// Loses the text after memory ran out, if more of it is wanted. The next call for an event says so.
    pub(crate) fn run_out_of_memory(&mut self)
        requires { spec.IsSoundReader self.old }
        ensures loses { LosesText (spec.pieces_of self.old) (spec.pieces_of self.new) }
        ensures sound { spec.IsSoundReader self.new }
    {
        if self.wants_more() {
            self.lose();
        }
    }

    /// Adds the next characters of the text. They are ignored where none is wanted.
    ///
    /// If memory runs out, the text is lost, and the next call for an event says so.
    pub(crate) fn add(&mut self, more: &str) -> Result<(), AllocError>
        requires { spec.IsSoundReader self.old }
        ensures at { IfOk result (λ _. (later : List ℕ)
            → at (spec.pieces_of self.new) later
            ≡ at (spec.pieces_of self.old) (chars more.now ++ later)) }
        ensures waits { IfOk result (λ _.
            AddsText (chars more.now) (spec.pieces_of self.old) (spec.pieces_of self.new)) }
        ensures enough { NeedsNoMore (spec.pieces_of self.old) (spec.pieces_of self.new) }
        ensures lost { OnErr result
            (LosesText (spec.pieces_of self.old) (spec.pieces_of self.new)) }
        ensures sound { spec.IsSoundReader self.new }
    {
        if !self.wants_more() {
            return Ok(());
        }
        match self.more.push_str(more) {
            Ok(()) => Ok(()),
            Err(_) => {
                self.lose();
                Err(AllocError)
            }
        }
    }

    /// Says that no more of the text comes.
    ///
    /// If memory runs out, the text is lost, and the next call for an event says so.
    pub(crate) fn end(&mut self) -> Result<(), AllocError>
        requires { spec.IsSoundReader self.old }
        ensures at { IfOk result (λ _. (later : List ℕ)
            → at (spec.pieces_of self.new) later ≡ at (spec.pieces_of self.old) []) }
        ensures all { wants_more (spec.pieces_of self.new) ≡ false }
        ensures waits { waiting (spec.pieces_of self.new) ≡ waiting (spec.pieces_of self.old) }
        ensures lost { OnErr result
            (LosesText (spec.pieces_of self.old) (spec.pieces_of self.new)) }
        ensures sound { spec.IsSoundReader self.new }
    {
        if !self.wants_more() {
            return Ok(());
        }
        if self.take_in(Growth::Whole).is_err() {
            self.lose();
            return Err(AllocError);
        }
        self.source = Source::Given;
        Ok(())
    }

    /// Whether more of the text is wanted: its end did not come, and nothing that came is refused.
    pub(crate) fn wants_more(&self) -> bool
        ensures { result ≡ wants_more (spec.pieces_of self.now) }
    {
        self.source == Source::Text
    }

    /// Sets whether prefixes of tags hold for later documents too.
    pub(crate) fn keep_tags(&mut self, value: bool)
        requires { spec.IsSoundReader self.old }
        ensures at { (later : List ℕ)
            → at (spec.pieces_of self.new) later
            ≡ keeping_tags value (at (spec.pieces_of self.old) later) }
        ensures wants { wants_more (spec.pieces_of self.new)
            ≡ wants_more (spec.pieces_of self.old) }
        ensures waits { waiting (spec.pieces_of self.new) ≡ waiting (spec.pieces_of self.old) }
        ensures sound { spec.IsSoundReader self.new }
    {
        self.reader.keep_tags(value);
        // The copy would read its events with the old setting.
        drop(self.copy.take());
    }

    /// An independent reader at the same place, unless memory runs out.
    pub(crate) fn try_clone(&self) -> Result<PieceReader, AllocError>
        requires { spec.IsSoundReader self.now }
        ensures same { IfOk result (λ copy. spec.pieces_of copy ≡ spec.pieces_of self.now) }
        ensures sound { IfOk result (λ copy. spec.IsSoundReader copy) }
    {
        let more = String::from_str(self.alloc, &self.more)?;
        Ok(PieceReader {
            source: self.source,
            reader: self.reader.try_clone()?,
            passed: copy_passed(&self.passed),
            more,
            room: String::new(self.alloc),
            starved: self.starved,
            copy: None,
            events: 0,
            copied: 0,
            since: String::new(self.alloc),
            weight: self.weight,
            look_past: self.look_past,
            ending: self.ending,
            seen: self.seen,
            looked: self.looked,
            alloc: self.alloc,
        })
    }
}
