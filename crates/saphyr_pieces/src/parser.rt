//! The parser of a text that comes in pieces, as its callers see it.

ghost use Rattle.std.specs.Prelude.{◌≡◌, ◌≤◌, ◌++◌, length, ℕ, List, [], IfOk, OnErr, true, false};
ghost use Rattle.std.specs.Str.{chars, encode_utf8_all};
ghost use Rattle.saphyr_scanner.specs.Limits.{most_characters};
ghost use Rattle.saphyr_scanner.specs.Steps.Remaining.{scan};
ghost use Rattle.saphyr_machine.specs.Cursor.{at_start, keeping_tags};
ghost use Rattle.saphyr_pieces.specs.Pieces.{AddsText, FaultIsLast, HandsOutOrWaits, LosesText, NeedsNoMore, at, waiting, wants_more};

use crate::pieces::PieceReader;
use saphyr_machine::{Event, Fault, Progress};
use saphyr_scalar::Span;
use std::alloc::{AllocError, Global};
use std::marker::Model;

/// How many characters a text may have.
const MOST_CHARACTERS: usize = 4294967295;

/// A parser of a text that comes in pieces: its caller adds the next characters, and reads the events that they decide.
///
/// Wherever the text is cut, the events are those of all pieces, one behind the other: contracts see the parser of the
/// whole text, for all characters that may still come.
///
/// An event comes when what came decides it. Where much waits for its end, as a long scalar does, as much has to come
/// again before the parser looks, and what may be the end. Of a root collection in brackets nothing comes before its
/// last bracket, since what follows that may make it a key.
pub struct PieceParser {
    reader: PieceReader,
}

// Written out, so that crates that drop a parser call it.
impl Drop for PieceParser {
    fn drop(self) {
        let PieceParser { reader: _reader } = self;
    }
}

impl Model for PieceParser {
    ghost use Rattle.saphyr_pieces.specs.Pieces.{Pieces};
    ghost use Rattle.saphyr_pieces.specs.Views.{IsSoundReader, pieces_of};

    ghost Value = { Pieces };

    ghost view = { λ p. pieces_of p.reader };

    ghost invariant = { λ p. IsSoundReader p.reader };
}

impl PieceParser {
    /// A parser of a text of which nothing came. The text is refused past 4,294,967,295 characters.
    pub fn new(alloc: Global) -> Result<Self, AllocError>
        ensures decided { IfOk result (λ p. (text : List ℕ)
            → at p text ≡ at_start (scan most_characters text)) }
        ensures wants { IfOk result (λ p. wants_more p ≡ true) }
        ensures waits { IfOk result (λ p. waiting p ≡ []) }
    {
        PieceParser::with_limit(alloc, MOST_CHARACTERS)
    }

    /// A parser with your own limit: a text with more than `limit` characters is refused, as by `Parser::with_limit`.
    ///
    /// What waits for an event, as an endless scalar does, is bounded by its caller: see `waiting`.
    pub fn with_limit(alloc: Global, limit: usize) -> Result<Self, AllocError>
        ensures decided { IfOk result (λ p. (text : List ℕ)
            → at p text ≡ at_start (scan limit text)) }
        ensures wants { IfOk result (λ p. wants_more p ≡ true) }
        ensures waits { IfOk result (λ p. waiting p ≡ []) }
    {
        Ok(PieceParser {
            reader: PieceReader::new(alloc, limit),
        })
    }

    /// How many bytes wait: those that came, and of which no event was handed out. Where `next_event_into` answered
    /// `None`, these were looked at, if they are more than the bytes of `look_past`.
    #[must_use]
    pub fn waiting(&self) -> usize
        ensures bytes { result ≡ length (encode_utf8_all (waiting self.now)) }
        ensures characters { length (waiting self.now) ≤ result }
    {
        self.reader.waiting()
    }

    /// Has the parser look for an event as soon as more bytes wait than these, once. Otherwise it looks when as much
    /// came again as waited, if that may decide one.
    ///
    /// So a caller that lets no more wait gives up only where no event can be told.
    pub fn look_past(&mut self, bytes: usize)
        ensures { self.new ≡ self.old }
    {
        self.reader.look_past(bytes);
    }

    /// Adds the next characters of the text. Once `wants_more` is false they are not read.
    ///
    /// If memory runs out, the text is lost: `next_event_into` says so, once, and no event comes any more.
    pub fn add(&mut self, more: &str) -> Result<(), AllocError>
        ensures at { IfOk result (λ _. (later : List ℕ)
            → at self.new later ≡ at self.old (chars more.now ++ later)) }
        ensures waits { IfOk result (λ _. AddsText (chars more.now) self.old self.new) }
        ensures enough { NeedsNoMore self.old self.new }
        ensures lost { OnErr result (LosesText self.old self.new) }
    {
        self.reader.add(more)
    }

    /// Says that no more of the text comes. After it `next_event_into` gives all that is left.
    ///
    /// If memory runs out, the text is lost, as in `add`.
    pub fn end(&mut self) -> Result<(), AllocError>
        ensures at { IfOk result (λ _. (later : List ℕ) → at self.new later ≡ at self.old []) }
        ensures all { wants_more self.new ≡ false }
        ensures waits { waiting self.new ≡ waiting self.old }
        ensures lost { OnErr result (LosesText self.old self.new) }
    {
        self.reader.end()
    }

    /// Loses the text, if more of it is wanted: for a caller that has no memory for what it was to add.
    pub fn run_out_of_memory(&mut self)
        ensures { LosesText self.old self.new }
    {
        self.reader.run_out_of_memory();
    }

    /// Whether more of the text is wanted: its end did not come, and nothing that came is refused.
    #[must_use]
    pub fn wants_more(&self) -> bool
        ensures { result ≡ wants_more self.now }
    {
        self.reader.wants_more()
    }

    /// Hands out the next event, or the fault that ends the events, and writes it into its place. `None` says that it
    /// depends on characters that did not come.
    pub fn next_event_into(
        &mut self,
        next: &mut (Event<'static>, Span),
        fault: &mut Fault,
    ) -> Option<Progress>
        ensures next { HandsOutOrWaits result next.new fault.new self.old self.new }
        ensures ended { FaultIsLast result self.new }
        ensures enough { NeedsNoMore self.old self.new }
    {
        self.reader.next_event_into(next, fault)
    }

    /// Sets whether prefixes of tags hold for later documents too. In YAML they don't.
    ///
    /// The setting takes effect from the next end of a document that is read.
    pub fn keep_tags(&mut self, value: bool)
        ensures at { (later : List ℕ) → at self.new later ≡ keeping_tags value (at self.old later) }
        ensures wants { wants_more self.new ≡ wants_more self.old }
        ensures waits { waiting self.new ≡ waiting self.old }
    {
        self.reader.keep_tags(value);
    }

    /// An independent parser at the same place, unless memory runs out. Adding to one adds nothing to the other.
    pub fn try_clone(&self) -> Result<Self, AllocError>
        ensures { IfOk result (λ copy. copy ≡ self.now) }
    {
        Ok(PieceParser {
            reader: self.reader.try_clone()?,
        })
    }
}
