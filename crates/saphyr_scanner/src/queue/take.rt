//! The first token of a queue, or what comes in front of it: it is looked at where it is, and taken off.

#![tactic(auto, using(crate::proofs::FirstQueued::first_token), unfolding(crate::specs::Views::Queue::queue_places))]

ghost use Rattle.std.specs.Prelude.{◌≡◌, ◌<◌, ◌+◌, ◌^◌, List, ℕ, IfOk, OnErr, OnOk, Some, string_bytes};
ghost use Rattle.saphyr_scanner.specs.Views.Queue.{BeginsWithPlace, behind_first, first_of, kind_shown, queue};
ghost use Rattle.saphyr_scanner.specs.Views.Tokens.{Piece, kind_with, parts_view, text_of, token_kind};

use crate::queue::place::Place;
use crate::queue::{Opening, Queue};
use crate::token::{TokenKind, TokenParts};
use saphyr_scalar::{Marker, Span, Spare};
use std::alloc::{AllocError, Global};

impl Queue {
    // The place of the token that is handed out next.
    #[inline(always)]
    fn first_place(&self) -> Option<Place>
        ensures { BeginsWithPlace result self.now }
    {
        self.places.get(self.spent).copied()
    }

    /// The kind of the token that is handed out next, if there is one.
    #[inline(always)]
    pub(crate) fn peek(&self) -> Option<TokenKind>
        ensures kind { result ≡ kind_shown (first_of (queue self.now)) }
        ensures counted { (queue self.now).handed + 1 < 2 ^ 64 }
    {
        let place = self.first_place()?;
        if !place.is_opened() {
            return Some(place.kind);
        }
        Some(match place.opening() {
            Opening::Nothing => place.kind,
            Opening::Key => TokenKind::Key,
            Opening::BlockMappingAndKey => TokenKind::BlockMappingStart,
            Opening::FlowMappingAndKey => TokenKind::FlowMappingStart,
        })
    }

    /// Whether there is no token but for one behind which a node comes.
    pub(crate) fn has_no_node(&self) -> bool {
        match self.peek() {
            Some(TokenKind::BlockEntry | TokenKind::Value) => self.len() == 1,
            Some(_) => false,
            None => true,
        }
    }

    /// The span of the token that is handed out next goes into the place of another.
    #[inline(always)]
    pub(crate) fn span_into(&self, span: &mut Span)
        ensures { (t : Piece) → first_of (queue self.now) ≡ Some t → span.new ≡ t.span }
    {
        let Some(place) = self.first_place() else {
            return;
        };
        place.span_into(&self.texts, span);
        if place.is_opened() {
            span.end = span.start;
        }
    }

    /// Takes off the token that is handed out next. Its span goes into the place of another.
    #[inline(always)]
    pub(crate) fn skip_into(&mut self, span: &mut Span)
        ensures span { (t : Piece) → first_of (queue self.old) ≡ Some t → span.new ≡ t.span }
        ensures left { queue self.new ≡ behind_first (queue self.old) }
    {
        let Some(place) = self.places.get_mut(self.spent) else {
            return;
        };
        // For speed a copy is read: the one in the queue might change where the span is written.
        let first = *place;
        first.span_into(&self.texts, span);
        if !first.is_opened() {
            first.pass_texts(&mut self.texts);
            self.spent += 1;
            return;
        }
        span.end = span.start;
        match first.opening() {
            Opening::Key => place.open(Opening::Nothing),
            // Behind the start of a mapping comes its first key.
            _ => place.open(Opening::Key),
        }
    }

    // Takes off the token that is handed out next. It is separate for speed: what has a text or parts has mostly
    // nothing in front of it.
    #[inline(never)]
    fn skip_opening(&mut self)
        ensures { queue self.new ≡ behind_first (queue self.old) }
    {
        self.skip_into(&mut Span::empty(Marker::new(0, 0, 0)));
    }

    /// Takes off the token that is handed out next. Its text goes into the place of another.
    #[inline(always)]
    pub(crate) fn take_text_into(
        &mut self,
        alloc: Global,
        spare: &mut Spare,
        into: &mut String,
    ) -> Result<(), AllocError>
        ensures text { (t : Piece) (text : List ℕ) → first_of (queue self.old) ≡ Some t
            → text_of t.kind ≡ Some text → OnOk result (string_bytes into.new ≡ text) }
        ensures left { OnOk result (queue self.new ≡ behind_first (queue self.old)) }
        ensures failed { OnErr result (queue self.new ≡ queue self.old) }
    {
        spare.begin_again(into, alloc)?;
        let Some(place) = self.first_place() else {
            return Ok(());
        };
        if place.is_opened() {
            self.skip_opening();
            return Ok(());
        }
        place.take_texts_into(&mut self.texts, into)?;
        self.spent += 1;
        Ok(())
    }

    /// Takes off the token that is handed out next, and returns its parts.
    pub(crate) fn take_parts(
        &mut self,
        alloc: Global,
        spare: &mut Spare,
    ) -> Result<TokenParts, AllocError>
        ensures parts { (t : Piece) → first_of (queue self.old) ≡ Some t
            → IfOk result (λ x. t.kind ≡ kind_with (token_kind t.kind) (parts_view x)) }
        ensures left { OnOk result (queue self.new ≡ behind_first (queue self.old)) }
        ensures failed { OnErr result (queue self.new ≡ queue self.old) }
    {
        let Some(place) = self.first_place() else {
            return Ok(TokenParts::none(alloc));
        };
        if place.is_opened() {
            self.skip_opening();
            return Ok(TokenParts::none(alloc));
        }
        let parts = place.take_parts(alloc, &mut self.texts, spare)?;
        self.spent += 1;
        Ok(parts)
    }
}
