//! The machine that turns tokens into events: what it holds, and the moves that its states share. `document`,
//! `block` and `flow` have the functions of the states, `node` reads the nodes, and `step` chooses the state's
//! function.

ghost use Rattle.std.specs.Prelude.{◌≡◌, None, false, string_bytes};
ghost use Rattle.saphyr_machine.specs.Events.{empty_scalar};
ghost use Rattle.saphyr_machine.specs.Steps.Machine as spec;
ghost use Rattle.saphyr_machine.specs.Views.Events.{has_tag};

use crate::anchors::Anchors;
use crate::event::Event;
use crate::prefixes::Prefixes;
use crate::state::State;
use crate::tag::Tag;
use saphyr_input::input::Input;
use saphyr_scalar::scalar::TagParts;
use saphyr_scalar::{FaultText, Marker, Refusal, ScalarStyle, Span, Stop};
use saphyr_scanner::{Scanner, Stopped, TokenKind, TokenParts};
use std::alloc::Global;
use std::borrow::CowStr;
use std::mem::replace;

/// What turns tokens into events.
///
/// Its steps are inlined, and write the event into a place that they are given, since events are large to move. What
/// ended the reading, once a step has stopped, is kept by the scanner.
#[derive(Drop)]
pub struct Machine<T: Input> {
    // Where the tokens come from.
    pub(super) scanner: Scanner<T>,
    // What is expected next.
    pub(super) state: State,
    // What is expected after each node that is open.
    pub(super) states: Vec<State>,
    // Where the pairs of flow sequences end that are open in these.
    pub(super) pair_ends: Vec<Marker>,
    // The anchors of the document, which its aliases name.
    pub(super) anchors: Anchors,
    // What the directives of the document declare and, if `keep_tags` is set, those of documents before it.
    pub(super) prefixes: Prefixes,
    // Whether prefixes hold for later documents too.
    pub(super) keep_tags: bool,
    // Where the memory of events comes from.
    pub(super) alloc: Global,
}

impl<T: Input> Machine<T> {
    ghost use Rattle.std.specs.Prelude.{List, ℕ, IfOk, OnErr, OnOk, Ok, Some};
    ghost use Rattle.saphyr_scalar.specs.Views.Reader.{Moves};
    ghost use Rattle.saphyr_scalar.specs.declared.scalar.fault.Stop.TheVariants.{OutOfMemory, Refused};
    ghost use Rattle.saphyr_scanner.specs.Views.Engine.{stopped_by};
    ghost use Rattle.saphyr_scanner.specs.Views.Scanning.{IsReady, tokens_in};
    ghost use Rattle.saphyr_scanner.specs.Views.Tokens.{Piece, kind_with, parts_view, text_of, token_kind};
    ghost use Rattle.saphyr_machine.specs.Steps.Machine.{Machine as Seen};
    ghost use Rattle.saphyr_machine.specs.Views.Machines.{machine_in, happening, emitted_of, PeeksBy};

    // A machine that has read nothing.
    pub(super) fn new(alloc: Global, scanner: Scanner<T>) -> Self
        ensures machine { (more : List ℕ)
            → machine_in more result ≡ spec.fresh_machine (tokens_in more scanner) }
        ensures scanner { result.scanner ≡ scanner }
    {
        Machine {
            scanner,
            state: State::StreamStart,
            states: Vec::new(alloc),
            pair_ends: Vec::new(alloc),
            anchors: Anchors::new(alloc),
            prefixes: Prefixes::new(alloc),
            keep_tags: false,
            alloc,
        }
    }

    // Gives back the text and the tag of the event that is overwritten, so the next one uses their memory.
    #[inline(always)]
    pub(super) fn give_back<'input>(&mut self, place: &mut Event<'input>)
        ensures same { self.new ≡ self.old }
        ensures untagged { has_tag place.new ≡ false }
    {
        if let Event::Scalar(_, _, _, tag) = place {
            // Mostly there is none, and a test costs less than a move.
            if tag.is_some() {
                self.give_back_tag(tag);
            }
        } else {
            place.clear_tagged();
            return;
        }
        if let Event::Scalar(CowStr::Owned(text), _, _, _) = place {
            let empty = String::new(self.alloc);
            self.scanner.give_back(replace(text, empty));
        }
    }

    // Gives back a tag. It is separate for speed, since few scalars have one.
    #[inline(never)]
    fn give_back_tag(&mut self, tag: &mut Option<Tag>)
        ensures same { self.new ≡ self.old }
        ensures taken { tag.new ≡ None }
    {
        if let Some(Tag { handle, suffix }) = tag.take() {
            self.scanner.give_back_tag(TagParts { handle, suffix });
        }
    }

    // Writes an event over another, whose memory is given back.
    #[inline(always)]
    pub(super) fn write_over<'input>(&mut self, place: &mut Event<'input>, event: Event<'input>)
        ensures same { self.new ≡ self.old }
        ensures emitted { place.new ≡ event.entry }
    {
        self.give_back(place);
        place.write_over_untagged(event);
    }

    // Writes an event and its span over another event.
    #[inline(always)]
    pub(super) fn emit<'input>(
        &mut self,
        next: &mut (Event<'input>, Span),
        event: Event<'input>,
        span: Span,
    )
        ensures same { self.new ≡ self.old }
        ensures emitted { next.new ≡ (event.entry, span) }
    {
        self.write_over(&mut next.0, event);
        next.1 = span;
    }

    // The text is refused at a place.
    pub(super) fn refuse(&mut self, text: FaultText, mark: Marker) -> Stopped
        ensures { self.new.scanner.stop
            ≡ Refused (record { text = text; mark = mark; may_change = false }) }
    {
        self.scanner.stop_at(Stop::Refused(Refusal {
            text,
            mark,
            may_change: false,
        }))
    }

    // The tokens are over, where a refusal doesn't end them.
    #[inline(never)]
    fn refuse_end(&mut self) -> Stopped
        ensures { self.new.scanner.stop ≡ Refused (spec.ending_refusal None) }
    {
        self.refuse(FaultText::DocumentStartExpected, Marker::new(0, 0, 0))
    }

    // The kind of the next token, which stays.
    #[inline(always)]
    pub(super) fn peek(&mut self) -> Result<TokenKind, Stopped>
        ensures { PeeksBy self.old result self.new }
    {
        match self.scanner.peek()? {
            Some(kind) => Ok(kind),
            None => Err(self.refuse_end()),
        }
    }

    // The span of the next token goes into the place of another.
    #[inline(always)]
    pub(super) fn span_into(&self, span: &mut Span)
        requires { IsReady self.now.scanner }
        ensures { (more : List ℕ) → IfOk (spec.taken_token (machine_in more self.now))
            (λ taken. span.new ≡ taken.0.span) }
    {
        self.scanner.span_into(span);
    }

    // The span of the next token.
    #[inline(always)]
    pub(super) fn span(&self) -> Span
        requires { IsReady self.now.scanner }
        ensures { (more : List ℕ) → IfOk (spec.taken_token (machine_in more self.now))
            (λ taken. result ≡ taken.0.span) }
    {
        let mut span = Span::empty(Marker::new(0, 0, 0));
        self.span_into(&mut span);
        span
    }

    // Takes the next token. Its span goes into the place of another.
    #[inline(always)]
    pub(super) fn skip_into(&mut self, span: &mut Span)
        requires { IsReady self.old.scanner }
        ensures span { (more : List ℕ) → IfOk (spec.taken_token (machine_in more self.old))
            (λ taken. span.new ≡ taken.0.span) }
        ensures left { (more : List ℕ) → IfOk (spec.taken_token (machine_in more self.old))
            (λ taken. machine_in more self.new ≡ taken.1) }
    {
        self.scanner.skip_into(span);
    }

    // Takes the next token, and returns its span.
    #[inline(always)]
    pub(super) fn skip(&mut self) -> Span
        requires { IsReady self.old.scanner }
        ensures span { (more : List ℕ) → IfOk (spec.taken_token (machine_in more self.old))
            (λ taken. result ≡ taken.0.span) }
        ensures left { (more : List ℕ) → IfOk (spec.taken_token (machine_in more self.old))
            (λ taken. machine_in more self.new ≡ taken.1) }
    {
        let mut span = Span::empty(Marker::new(0, 0, 0));
        self.skip_into(&mut span);
        span
    }

    // Takes the next token. Its text goes into the place of another.
    #[inline(always)]
    pub(super) fn take_text_into(&mut self, into: &mut String) -> Result<(), Stopped>
        requires { IsReady self.old.scanner }
        ensures text { (more text : List ℕ) → IfOk (spec.taken_token (machine_in more self.old))
            (λ taken. text_of taken.0.kind ≡ Some text
            → OnOk result (string_bytes into.new ≡ text)) }
        ensures left { (more : List ℕ) → IfOk (spec.taken_token (machine_in more self.old))
            (λ taken. OnOk result (machine_in more self.new ≡ taken.1)) }
        ensures failed { OnErr result (self.new.scanner.stop ≡ OutOfMemory) }
    {
        self.scanner.take_text_into(into)
    }

    // Takes the next token, and returns its text.
    #[inline(always)]
    pub(super) fn take_text(&mut self) -> Result<String, Stopped>
        requires { IsReady self.old.scanner }
        ensures text { (more text : List ℕ) → IfOk (spec.taken_token (machine_in more self.old))
            (λ taken. text_of taken.0.kind ≡ Some text → IfOk result (λ x. string_bytes x ≡ text)) }
        ensures left { (more : List ℕ) → IfOk (spec.taken_token (machine_in more self.old))
            (λ taken. OnOk result (machine_in more self.new ≡ taken.1)) }
        ensures failed { OnErr result (self.new.scanner.stop ≡ OutOfMemory) }
    {
        let mut text = String::new(self.alloc);
        self.take_text_into(&mut text)?;
        Ok(text)
    }

    // Takes the next token, and returns its parts.
    pub(super) fn take_parts(&mut self) -> Result<TokenParts, Stopped>
        requires { IsReady self.old.scanner }
        ensures parts { (more : List ℕ) → IfOk (spec.taken_token (machine_in more self.old))
            (λ taken. IfOk result
            (λ x. taken.0.kind ≡ kind_with (token_kind taken.0.kind) (parts_view x))) }
        ensures left { (more : List ℕ) → IfOk (spec.taken_token (machine_in more self.old))
            (λ taken. OnOk result (machine_in more self.new ≡ taken.1)) }
        ensures failed { OnErr result (self.new.scanner.stop ≡ OutOfMemory) }
    {
        self.scanner.take_parts()
    }

    // The text is refused at the next token.
    #[inline(never)]
    pub(super) fn refuse_next(&mut self, text: FaultText) -> Stopped
        requires { IsReady self.old.scanner }
        ensures { (more : List ℕ) → IfOk (spec.taken_token (machine_in more self.old)) (λ taken.
            self.new.scanner.stop ≡ Refused (record { text = text; mark = taken.0.span.start; may_change = false })) }
    {
        let mark = self.span().start;
        self.refuse(text, mark)
    }

    // Goes back to what is expected after the node that has ended.
    #[inline(always)]
    pub(super) fn pop(&mut self)
        ensures moved { (more : List ℕ)
            → machine_in more self.new ≡ spec.pop (machine_in more self.old) }
        ensures scanner { self.new.scanner ≡ self.old.scanner }
    {
        self.state = self.states.pop().unwrap_or(State::End);
    }

    // What is expected after the node that begins.
    #[inline(always)]
    pub(super) fn push(&mut self, state: State) -> Result<(), Stopped>
        ensures moved { (more : List ℕ) → OnOk result
            (machine_in more self.new ≡ spec.push state (machine_in more self.old)) }
        ensures state { OnOk result (self.new.scanner.state ≡ self.old.scanner.state) }
        ensures failed { OnErr result (self.new.scanner.stop ≡ OutOfMemory) }
    {
        let pushed = self.states.push(state);
        self.scanner.keep(pushed)
    }

    // A pair of a flow sequence ends here.
    pub(super) fn push_pair_end(&mut self, place: Marker) -> Result<(), Stopped>
        ensures moved { (more : List ℕ) → OnOk result
            (machine_in more self.new ≡ spec.with_pair_end place (machine_in more self.old)) }
        ensures state { OnOk result (self.new.scanner.state ≡ self.old.scanner.state) }
        ensures failed { OnErr result (self.new.scanner.stop ≡ OutOfMemory) }
    {
        let pushed = self.pair_ends.push(place);
        self.scanner.keep(pushed)
    }

    // The event of a node that is left out.
    #[inline(always)]
    pub(super) fn empty_scalar<'input>(&self) -> Event<'input>
        ensures { happening result ≡ empty_scalar }
    {
        Event::Scalar(
            CowStr::Owned(String::new(self.alloc)),
            ScalarStyle::Plain,
            0,
            None,
        )
    }

    // A node is left out before the next token. The span of its event is there already.
    #[inline(always)]
    #[tactic(auto, using(crate::proofs::Passing::put_back_again))]
    pub(super) fn leave_out<'input>(&mut self, state: State, next: &mut (Event<'input>, Span))
        ensures { (more : List ℕ) → IfOk (spec.taken_token (machine_in more self.old)) (λ taken.
            spec.left_out_event taken.0 state next.old.1 taken.1
            ≡ Ok (emitted_of (machine_in more self.new) next.new)) }
    {
        self.state = state;
        let event = self.empty_scalar();
        self.write_over(&mut next.0, event);
    }

    // A node is left out before the next token, whose span its event has.
    #[inline(always)]
    pub(super) fn leave_out_here<'input>(&mut self, state: State, next: &mut (Event<'input>, Span))
        requires { IsReady self.old.scanner }
        ensures { (more : List ℕ) → IfOk (spec.taken_token (machine_in more self.old)) (λ taken.
            spec.left_out_event taken.0 state taken.0.span taken.1
            ≡ Ok (emitted_of (machine_in more self.new) next.new)) }
    {
        self.span_into(&mut next.1);
        self.leave_out(state, next);
    }
}
