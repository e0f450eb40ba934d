//! The scanner as its callers see it. It reads as far into the text as the next token needs.

ghost use Rattle.std.specs.Prelude.{◌≡◌, ◌+◌, ◌<◌, ◌^◌, true, false, List, ℕ, IfOk, IsTrue, OnErr, OnOk, Some, length, string_bytes};
ghost use Rattle.saphyr_scalar.specs.declared.scalar.fault.Stop.TheVariants.{OutOfMemory};
ghost use Rattle.saphyr_scanner.specs.Steps.Fetch.{fill, is_at_start, needs_token, without_far_key};
ghost use Rattle.saphyr_scanner.specs.Steps.Remaining.{scan};
ghost use Rattle.saphyr_scanner.specs.Steps.State as spec;
ghost use Rattle.saphyr_scanner.specs.declared.growth.Growth.TheVariants.{Starved, Whole};
ghost use Rattle.saphyr_scanner.specs.Views.Engine.{Keeps};
ghost use Rattle.saphyr_scanner.specs.Views.Scanning.{Drops, EndsTokens, IsReady, IsUndecided, PeeksToken, Readies, is_growing, tokens_in};
ghost use Rattle.saphyr_scanner.specs.Views.Tokens.{Piece, Remaining, before, kind_with, parts_view, text_of, token_kind};
ghost use Rattle.saphyr_scanner.specs.SpansInOrder.{AreInOrder};
ghost use Rattle.saphyr_scanner.specs.TokensTaken.{AreTakenFrom};

use crate::engine::Engine;
use crate::growth::Growth;
use crate::law::{orders_spans, takes_all_tokens, takes_characters_off};
use crate::stopped::{Stopped, keep};
use crate::token::{TokenKind, TokenParts};
use saphyr_input::input::{CloneInput, Input};
use saphyr_scalar::{Span, Stop, TagParts};
use std::alloc::{AllocError, Global};
use std::marker::Model;

/// The tokens of a text, one after the other.
///
/// `peek` shows the kind of the next token, and leaves it. Its span and its text are asked for only where they are
/// needed, and `skip_into`, `take_text_into` and `take_parts` take it.
///
/// Contracts see its state, of which `tokens_in` gives the tokens that are still to come if some characters come behind
/// those of the input, and the refusal after them, if one ends them. They also see what ended the reading, once a call
/// has returned `Stopped`.
pub struct Scanner<T: Input> {
    pub(crate) engine: Engine<T>,
    pub(crate) limit: usize,
    pub(crate) growth: Growth,
}

// Written out, so that whoever drops a scanner calls it. A derived one, with those of all inner types, would be copied
// to each place where a scanner is dropped, and checked there.
impl<T: Input + Drop> Drop for Scanner<T> {
    fn drop(self) {
        let Scanner {
            engine: _engine,
            limit: _limit,
            growth: _growth,
        } = self;
    }
}

impl<T: Input> Model for Scanner<T> {
    ghost use Rattle.saphyr_scanner.specs.Views.Engine.{state};
    ghost use Rattle.saphyr_scanner.specs.Views.Scanning.{Scanning};

    ghost Value = { Scanning };

    ghost view = { λ s. record
        { state = state s.engine; limit = s.limit; growth = s.growth; stop = s.engine.stop } };
}

impl<T: Input> Scanner<T> {
    /// The tokens of the input's text. If it has more than `limit` characters, it is refused once
    /// a token has passed the limit, and that token is not given.
    ///
    /// The spans of the tokens come one after the other, within the text. The tokens are taken from the
    /// text: up to the last it is their spellings in order, with only blanks, breaks and comments between
    /// them. A refusal that ends them is at a place of the text.
    pub fn new(alloc: Global, input: T, limit: usize) -> Self
        ensures state { result.state ≡ spec.start (T.rest input) }
        ensures limit { result.limit ≡ limit }
        ensures growth { result.growth ≡ Whole }
        ensures tokens { (more : List ℕ) → tokens_in more result ≡ scan limit (T.rest input) }
        ensures spans { AreInOrder (length (T.rest input)) 0 (scan limit (T.rest input)).pieces }
        ensures taken { AreTakenFrom (T.rest input) (scan limit (T.rest input)) }
    {
        orders_spans();
        takes_all_tokens();
        Scanner {
            engine: Engine::new(alloc, input),
            limit,
            growth: Growth::Whole,
        }
    }

    /// The kind of the next token, which stays, or `None` after the last.
    ///
    /// What it tells is so whatever comes behind the characters of the input. Where that is not known, the scanner has
    /// starved: it returns `Stopped`, as if memory had run out, and `growth` tells so.
    ///
    /// After an error, nothing is known of what a further call gives.
    #[inline(always)]
    pub fn peek(&mut self) -> Result<Option<TokenKind>, Stopped>
        ensures { PeeksToken result self.old self.new }
    {
        self.fill()?;
        Ok(self.engine.queue.peek())
    }

    // Reads until the next token can be handed out, unless all were. Mostly there is no candidate, and then this looks
    // at the queue alone.
    #[inline(always)]
    fn fill(&mut self) -> Result<(), Stopped>
        ensures { Readies result self.old self.new }
    {
        if !self.engine.has_no_candidate() {
            return self.fill_past_candidate();
        }
        if self.engine.has_none() {
            return self.read_on();
        }
        Ok(())
    }

    // A candidate that is too far is dropped. If it had to be a key, that ends the tokens. It starves where what comes
    // may change that.
    #[inline(always)]
    fn drop_far_key(&mut self) -> Result<(), Stopped>
        ensures dropped { OnOk result (Drops self.old self.new) }
        ensures refused { OnErr result ((more : List ℕ)
            → EndsTokens self.new.stop (tokens_in more self.old)) }
    {
        let dropped = self.engine.drop_far_key();
        if dropped.is_ok() {
            return dropped;
        }
        if !matches!(self.growth, Growth::Growing) {
            return dropped;
        }
        if self.engine.is_decided(dropped) {
            return dropped;
        }
        self.growth = Growth::Starved;
        Err(self.stop_at(Stop::OutOfMemory))
    }

    // Reads until the next token can be handed out, where a candidate may be far or hold it.
    #[inline(never)]
    fn fill_past_candidate(&mut self) -> Result<(), Stopped>
        ensures { Readies result self.old self.new }
    {
        self.drop_far_key()?;
        if self.engine.needs_token() {
            return self.read_on();
        }
        Ok(())
    }

    // Reads until the next token can be handed out. It starves where what came does not tell that token.
    #[inline(always)]
    fn read_on(&mut self) -> Result<(), Stopped>
        requires needed { needs_token self.old.state ≡ true }
        requires settled { without_far_key self.old.state ≡ Ok self.old.state }
        ensures read { Readies result self.old self.new }
        ensures starved { is_growing self.old.growth ≡ true → self.new.growth ≡ Starved
            → (is_at_start self.old.state.core ≡ false)
            × IsUndecided (fill self.old.limit self.old.state) }
    {
        if matches!(self.growth, Growth::Growing) {
            return self.read_growing();
        }
        // A law. It does nothing when it runs.
        takes_characters_off();
        self.engine.read_tokens(self.limit)
    }

    // Reads on where more of the text may come. It is separate for speed: a text is mostly whole.
    #[inline(never)]
    fn read_growing(&mut self) -> Result<(), Stopped>
        requires needed { needs_token self.old.state ≡ true }
        requires settled { without_far_key self.old.state ≡ Ok self.old.state }
        requires growing { is_growing self.old.growth ≡ true }
        ensures read { Readies result self.old self.new }
        ensures starved { self.new.growth ≡ Starved
            → (is_at_start self.old.state.core ≡ false)
            × IsUndecided (fill self.old.limit self.old.state) }
    {
        // A law. It does nothing when it runs.
        takes_characters_off();
        let starts = self.engine.is_at_start();
        let read = self.engine.read_tokens(self.limit);
        if starts {
            return read;
        }
        if self.engine.is_decided(read) {
            return read;
        }
        self.growth = Growth::Starved;
        Err(self.stop_at(Stop::OutOfMemory))
    }

    /// Passes so many lines, if the next token was not read yet. They should have no token, and end in LF or CR LF.
    /// `false`: one is not so, and nothing is known of the scanner any more.
    pub fn pass_lines(&mut self, lines: usize) -> bool
        ensures { IsTrue result → (more : List ℕ)
            → tokens_in more self.new ≡ tokens_in more self.old }
    {
        if !matches!(self.growth, Growth::Growing) || !self.engine.is_between() {
            return true;
        }
        // A law. It does nothing when it runs.
        takes_characters_off();
        self.engine.pass_lines(lines)
    }

    /// The span of the next token goes into the place of another. To be called where it was peeked.
    #[inline(always)]
    pub fn span_into(&self, span: &mut Span)
        requires { IsReady self.now }
        ensures { (more : List ℕ) (t : Piece) (left : Remaining)
            → tokens_in more self.now ≡ before t left
            → span.new ≡ t.span }
    {
        self.engine.queue.span_into(span);
    }

    /// Takes the next token. Its span goes into the place of another. To be called where it was peeked.
    #[inline(always)]
    pub fn skip_into(&mut self, span: &mut Span)
        requires { IsReady self.old }
        ensures span { (more : List ℕ) (t : Piece) (left : Remaining)
            → tokens_in more self.old ≡ before t left
            → span.new ≡ t.span }
        ensures left { (more : List ℕ) (t : Piece) (left : Remaining)
            → tokens_in more self.old ≡ before t left
            → tokens_in more self.new ≡ left }
    {
        self.engine.queue.skip_into(span);
    }

    /// Takes the next token. Its text, which is empty where its kind has none, goes into the place of another. To be
    /// called where it was peeked.
    #[inline(always)]
    pub fn take_text_into(&mut self, into: &mut String) -> Result<(), Stopped>
        requires { IsReady self.old }
        ensures text { (more : List ℕ) (t : Piece) (left : Remaining) (text : List ℕ)
            → tokens_in more self.old ≡ before t left → text_of t.kind ≡ Some text
            → OnOk result (string_bytes into.new ≡ text) }
        ensures left { (more : List ℕ) (t : Piece) (left : Remaining)
            → tokens_in more self.old ≡ before t left
            → OnOk result (tokens_in more self.new ≡ left) }
        ensures failed { OnErr result (self.new.stop ≡ OutOfMemory) }
    {
        let engine = &mut self.engine;
        let spare = &mut engine.reader.spare;
        let taken = engine.queue.take_text_into(engine.alloc, spare, into);
        keep(&mut engine.stop, taken)
    }

    /// Takes the next token, and returns all its parts. To be called where it was peeked.
    pub fn take_parts(&mut self) -> Result<TokenParts, Stopped>
        requires { IsReady self.old }
        ensures parts { (more : List ℕ) (t : Piece) (left : Remaining)
            → tokens_in more self.old ≡ before t left
            → IfOk result (λ x. t.kind ≡ kind_with (token_kind t.kind) (parts_view x)) }
        ensures left { (more : List ℕ) (t : Piece) (left : Remaining)
            → tokens_in more self.old ≡ before t left
            → OnOk result (tokens_in more self.new ≡ left) }
        ensures failed { OnErr result (self.new.stop ≡ OutOfMemory) }
    {
        let engine = &mut self.engine;
        let taken = engine
            .queue
            .take_parts(engine.alloc, &mut engine.reader.spare);
        keep(&mut engine.stop, taken)
    }

    /// What ended the reading, once a call has returned `Stopped`.
    pub fn stop(&self) -> Stop
        ensures { result ≡ self.now.stop }
    {
        self.engine.stop
    }

    /// Keeps what ended the reading, for a caller that stops.
    pub fn stop_at(&mut self, stop: Stop) -> Stopped
        ensures { self.new.stop ≡ stop }
    {
        self.engine.stop = stop;
        Stopped
    }

    /// Passes on what a call returned, and keeps what ended the reading, if something did.
    #[inline(always)]
    #[tactic(auto, unfolding(crate::specs::Views::Scanning::tokens_over, crate::specs::Views::Scanning::tokens_in))]
    pub fn keep<R, E: Into<Stop>>(&mut self, read: Result<R, E>) -> Result<R, Stopped>
        ensures kept { Keeps E.converts read result self.new.stop }
        ensures tokens { (more : List ℕ) → tokens_in more self.new ≡ tokens_in more self.old }
        ensures state { self.new.state ≡ self.old.state }
        ensures limit { self.new.limit ≡ self.old.limit }
        ensures growth { self.new.growth ≡ self.old.growth }
    {
        keep(&mut self.engine.stop, read)
    }

    /// Takes a text that is no longer needed. The next one may use its memory.
    #[inline(always)]
    pub fn give_back(&mut self, text: String)
        ensures { self.new ≡ self.old }
    {
        self.engine.reader.spare.keep(text);
    }

    /// Takes the texts of a tag that is no longer needed. The next one may use their memory.
    pub fn give_back_tag(&mut self, tag: TagParts)
        ensures { self.new ≡ self.old }
    {
        self.engine.reader.spare.keep_tag(tag);
    }

    /// The input, from the place that is reached.
    pub fn input(&self) -> &T
        ensures { T.rest result.now ≡ self.now.state.core.cursor.rest }
    {
        self.engine.reader.input()
    }

    /// How many characters are before the place that is reached.
    pub fn index(&self) -> usize
        ensures { result ≡ self.now.state.core.cursor.mark.index }
    {
        self.engine.reader.mark().index
    }

    /// What is known of the text's end.
    pub fn growth(&self) -> Growth
        ensures { result ≡ self.now.growth }
    {
        self.growth
    }

    /// Goes on before the characters of another input, behind which more may come or not. Returns the input that was
    /// there.
    pub fn exchange(&mut self, input: T, growth: Growth) -> T
        requires { self.old.state.core.cursor.mark.index + length (T.rest input) < 2 ^ 64 }
        ensures scanner { self.new ≡ record self.old
            { state = spec.with_rest (T.rest input) self.old.state; growth = growth } }
        ensures input { T.rest result ≡ self.old.state.core.cursor.rest }
    {
        self.growth = growth;
        self.engine.reader.exchange(input)
    }

    /// Where a node comes next in block style, of which no token was read: the first column of its later lines.
    pub fn node_column(&self) -> Option<usize> {
        let engine = &self.engine;
        if engine.started && engine.outer.is_empty() && engine.queue.has_no_node() {
            Some(engine.indent)
        } else {
            None
        }
    }
}

impl<T: CloneInput> Scanner<T> {
    ghost use Rattle.std.specs.Prelude.{IfOk};

    /// An independent scanner with the same tokens still to come, unless memory runs out.
    pub fn try_clone(&self) -> Result<Self, AllocError>
        ensures { IfOk result (λ copy. copy ≡ self.now) }
    {
        Ok(Scanner {
            engine: self.engine.try_clone()?,
            limit: self.limit,
            growth: self.growth,
        })
    }
}
