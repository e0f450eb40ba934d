//! A machine with at most one event read ahead, so that an event can be shown before it is handed out.

ghost use Rattle.std.specs.Prelude.{◌≡◌, ◌+◌, ◌<◌, ◌^◌, ℕ, List, None, Some, true, false, IfNone, IsTrue, length};
ghost use Rattle.saphyr_scanner.specs.Steps.State.{with_rest};
ghost use Rattle.saphyr_scanner.specs.Views.Scanning.{tokens_in};
ghost use Rattle.saphyr_machine.specs.Answer.{OutOfMemory};
ghost use Rattle.saphyr_machine.specs.Cursor.{EventCursor as Cursor, with_event_handed};
ghost use Rattle.saphyr_machine.specs.Faults.{is_own};
ghost use Rattle.saphyr_machine.specs.Views.Machines.{happening};
ghost use Rattle.saphyr_machine.specs.Steps.Documents as documents;

use crate::event::Event;
use crate::fault::Fault;
use crate::kept::Kept;
use crate::machine::Machine;
use crate::progress::Progress;
use crate::state::State;
use saphyr_input::input::Input;
use saphyr_scalar::{Marker, Span};
use saphyr_scanner::{Growth, Scanner};
use std::alloc::Global;
use std::mem::replace;

/// A place for an event.
#[inline(always)]
pub fn no_event<'input>() -> (Event<'input>, Span) {
    let start = Marker::new(0, 0, 0);
    (Event::Nothing, Span::empty(start))
}

/// A machine, with what was read ahead and what is remembered of the events that were handed out.
pub struct EventReader<'input, T: Input> {
    pub(super) machine: Machine<T>,
    // An event that was read and not yet handed out.
    pub(super) current: Option<(Event<'input>, Span)>,
    pub(super) kept: Option<Kept>,
    // Whether a document's start was handed out and its end was not.
    pub(super) inside: bool,
    // The span of the stream's end, once that was handed out.
    pub(super) finished: Option<Span>,
}

// Written out, so that whoever drops a reader calls it. A derived one, with those of all inner types, would be copied
// to each place where a reader is dropped, and checked there.
impl<T: Input + Drop> Drop for EventReader<'_, T> {
    fn drop(self) {
        let EventReader {
            machine: _machine,
            current: _current,
            kept: _kept,
            inside: _inside,
            finished: _finished,
        } = self;
    }
}

impl<'input, T: Input> EventReader<'input, T> {
    ghost use Rattle.saphyr_machine.specs.Views.Machines.{happening};
    ghost use Rattle.saphyr_machine.specs.Cursor as spec;
    ghost use Rattle.saphyr_machine.specs.Calls as calls;
    ghost use Rattle.saphyr_machine.specs.Views.Readers.{cursor, cursor_in, cursor_over, scanning_of};

    /// A reader that has read nothing.
    pub fn new(alloc: Global, scanner: Scanner<T>) -> Self
        ensures cursor { (more : List ℕ)
            → cursor_in more result ≡ spec.at_start (tokens_in more scanner) }
        ensures scanner { scanning_of result ≡ scanner }
    {
        EventReader {
            machine: Machine::new(alloc, scanner),
            current: None,
            kept: None,
            inside: false,
            finished: None,
        }
    }

    /// Goes on before the characters of another input, behind which more may come or not. Returns the input that was
    /// there.
    #[tactic(auto, unfolding(saphyr_scanner::specs::Views::Scanning::tokens_over))]
    pub fn exchange(&mut self, input: T, growth: Growth) -> T
        requires { (scanning_of self.old).state.core.cursor.mark.index + length (T.rest input)
            < 2 ^ 64 }
        ensures scanner { scanning_of self.new ≡ record (scanning_of self.old)
            { state = with_rest (T.rest input) (scanning_of self.old).state; growth = growth } }
        ensures cursor { (rest : List ℕ) → cursor_over rest self.new ≡ cursor_over rest self.old }
        ensures input { T.rest result ≡ (scanning_of self.old).state.core.cursor.rest }
    {
        self.machine.scanner.exchange(input, growth)
    }

    /// Where a node comes next in block style, of which no token was read: the first column of its later lines.
    pub fn node_column(&self) -> Option<usize> {
        self.machine.scanner.node_column()
    }

    /// What is known of the text's end.
    pub fn growth(&self) -> Growth
        ensures { result ≡ (scanning_of self.now).growth }
    {
        self.machine.scanner.growth()
    }

    /// The input, from the place that is reached.
    pub fn input(&self) -> &T
        ensures { T.rest result.now ≡ (scanning_of self.now).state.core.cursor.rest }
    {
        self.machine.scanner.input()
    }

    /// Passes so many lines, if the next token was not read yet. They should have no token, and end in LF or CR LF.
    /// `false`: one is not so, and nothing is known of the reader any more.
    pub fn pass_lines(&mut self, lines: usize) -> bool
        ensures { IsTrue result → (more : List ℕ)
            → cursor_in more self.new ≡ cursor_in more self.old }
    {
        self.machine.scanner.pass_lines(lines)
    }

    /// How many characters are before the place that is reached.
    pub fn index(&self) -> usize
        ensures { result ≡ (scanning_of self.now).state.core.cursor.mark.index }
    {
        self.machine.scanner.index()
    }

    /// Keeps the lack of memory as a fault that was handed out.
    pub fn run_out_of_memory(&mut self)
        ensures cursor { (more : List ℕ)
            → cursor_in more self.new ≡ record (cursor_in more self.old)
            { kept = Some (record { fault = OutOfMemory; given = true }) } }
        ensures over { (rest : List ℕ)
            → cursor_over rest self.new ≡ record (cursor_over rest self.old)
            { kept = Some (record { fault = OutOfMemory; given = true }) } }
        ensures scanner { scanning_of self.new ≡ scanning_of self.old }
    {
        self.keep_fault(Fault::OutOfMemory, true);
    }

    /// Whether the end of the stream was read, so that no token is read any more.
    pub fn is_over(&self) -> bool
        ensures { result ≡ documents.is_over (cursor self.now).machine.state }
    {
        matches!(self.machine.state, State::End)
    }

    /// Sets whether prefixes of tags hold for later documents too. The setting takes effect from the next end of a
    /// document that is read.
    #[inline(always)]
    pub fn keep_tags(&mut self, value: bool)
        ensures cursor { (more : List ℕ)
            → cursor_in more self.new ≡ spec.keeping_tags value (cursor_in more self.old) }
        ensures over { (rest : List ℕ)
            → cursor_over rest self.new ≡ spec.keeping_tags value (cursor_over rest self.old) }
        ensures scanner { scanning_of self.new ≡ scanning_of self.old }
    {
        self.machine.keep_tags = value;
    }

    /// Reads one event ahead, or the fault in place of it.
    #[inline(always)]
    pub fn look(&mut self)
        ensures { calls.Looks (cursor self.old) (cursor self.new) }
    {
        if self.current.is_some() || self.kept.is_some() {
            return;
        }
        let mut next = no_event();
        let mut fault = Fault::OutOfMemory;
        match self.machine.advance(&mut next, &mut fault) {
            Progress::Event => {
                drop(fault);
                drop(self.current.replace(next));
            }
            Progress::Fault => {
                drop(next);
                self.keep_fault(fault, false);
            }
            Progress::Over => {
                drop(next);
                drop(fault);
            }
        }
    }

    /// What was read ahead.
    pub fn shown(&self) -> Option<Result<&(Event<'input>, Span), &Fault>>
        ensures { calls.IsShown result (cursor self.now) }
    {
        if let Some(event) = &self.current {
            return Some(Ok(event));
        }
        match &self.kept {
            Some(kept) if !kept.given => Some(Err(&kept.fault)),
            _ => None,
        }
    }

    // Remembers what an event says of the place after it.
    #[inline(always)]
    pub(super) fn remember(&mut self, event: &Event<'input>, span: &Span)
        ensures { (more : List ℕ) → cursor_in more self.new
            ≡ spec.with_event_handed (happening event.now) span.now (cursor_in more self.old) }
    {
        // Most events say nothing, and one test tells that.
        if matches!(
            event,
            Event::StreamEnd | Event::DocumentStart(_) | Event::DocumentEnd
        ) {
            self.remember_place(event, span);
        }
    }

    // Remembers it for an event that says something. It is separate for speed, since most say nothing.
    #[inline(never)]
    fn remember_place(&mut self, event: &Event<'input>, span: &Span)
        ensures { (more : List ℕ) → cursor_in more self.new
            ≡ spec.with_event_handed (happening event.now) span.now (cursor_in more self.old) }
    {
        match event {
            Event::DocumentStart(_) => self.inside = true,
            Event::DocumentEnd => self.inside = false,
            Event::StreamEnd => self.finished = Some(*span),
            _ => {}
        }
    }

    // Keeps the fault that ended the events, which was given or not.
    fn keep_fault(&mut self, fault: Fault, given: bool)
        requires { is_own fault ≡ true }
        ensures kept { (more : List ℕ) → cursor_in more self.new ≡ record (cursor_in more self.old)
            { kept = Some (record { fault = spec.ending_of_fault fault; given = given }) } }
        ensures machine { self.new.machine ≡ self.old.machine }
    {
        drop(self.kept.replace(Kept { fault, given }));
    }

    // Keeps a copy of the fault that is handed out. If it can't be copied, it is lost, and `OutOfMemory` replaces it.
    #[inline(never)]
    fn keep_copy(&mut self, fault: &mut Fault)
        requires { is_own fault.old ≡ true }
        ensures reported { calls.IsReportedAs (spec.ending_of_fault fault.old) fault.new }
        ensures kept { (more : List ℕ) → cursor_in more self.new
            ≡ record (cursor_in more self.old) { kept = calls.given_fault fault.new } }
    {
        match fault.try_clone() {
            Ok(copy) => self.keep_fault(copy, true),
            Err(_) => {
                drop(replace(fault, Fault::OutOfMemory));
                self.keep_fault(Fault::OutOfMemory, true);
            }
        }
    }

    // Hands out what was read ahead: an event, or the fault in place of it, unless that was handed out before.
    #[inline(never)]
    fn advance_ahead(&mut self, next: &mut (Event<'input>, Span), fault: &mut Fault) -> Progress
        requires { IfNone self.old.current (spec.IsKept (cursor self.old).kept) }
        ensures { (more : List ℕ) → calls.GivesNext (calls.item_at next.new fault.new result)
            (cursor_in more self.old) (cursor_in more self.new) }
    {
        if let Some(item) = self.current.take() {
            self.remember(&item.0, &item.1);
            drop(replace(next, item));
            return Progress::Event;
        }
        let Some(kept) = self.kept.take() else {
            return Progress::Over;
        };
        if kept.given {
            self.keep_fault(kept.fault, true);
            return Progress::Over;
        }
        drop(replace(fault, kept.fault));
        self.keep_copy(fault);
        Progress::Fault
    }

    /// Hands out the next event or fault, which is written into its place. Use this in a loop over the events: the
    /// result has no room for a fault, which would be cleared on each turn.
    #[inline(always)]
    pub fn advance(&mut self, next: &mut (Event<'input>, Span), fault: &mut Fault) -> Progress
        ensures { (more : List ℕ) → calls.GivesNext (calls.item_at next.new fault.new result)
            (cursor_in more self.old) (cursor_in more self.new) }
    {
        if self.current.is_some() || self.kept.is_some() {
            return self.advance_ahead(next, fault);
        }
        let progress = self.machine.advance(next, fault);
        match progress {
            Progress::Event => self.remember(&next.0, &next.1),
            Progress::Fault => self.keep_copy(fault),
            Progress::Over => {}
        }
        progress
    }

    /// Hands out the next event.
    #[inline(always)]
    pub fn next_event(&mut self) -> Option<Result<(Event<'input>, Span), Fault>>
        ensures { calls.GivesNext result (cursor self.old) (cursor self.new) }
    {
        let mut next = no_event();
        let mut fault = Fault::OutOfMemory;
        match self.advance(&mut next, &mut fault) {
            Progress::Event => {
                drop(fault);
                Some(Ok(next))
            }
            Progress::Fault => {
                drop(next);
                Some(Err(fault))
            }
            Progress::Over => {
                drop(next);
                drop(fault);
                None
            }
        }
    }
}
