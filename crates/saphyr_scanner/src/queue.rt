//! Tokens that wait to be handed out, and what comes in front of one that becomes a key.

mod near;
mod place;
mod read;
mod take;
mod texts;

ghost use Rattle.std.specs.Prelude.{◌≡◌, ◌++◌, ◌<◌, ◌≤◌, ◌^◌, length, drop, IfOk, OnOk, string_bytes, vec_len, vec_capacity};
ghost use Rattle.saphyr_scanner.specs.Steps.Queue as spec;
ghost use Rattle.saphyr_scanner.specs.Views.Places.{Fit, Fit-prop, parts_at};

use crate::queue::place::Place;
pub(crate) use crate::queue::texts::Extent;
use crate::queue::texts::Texts;
use crate::token::TokenKind;
use saphyr_scalar::{Marker, Span, Spare};
use std::alloc::{AllocError, Global};

// How many more places there is room for when more are needed.
const FEW: usize = 16;

// The largest number that the first place here may have.
const MOST: usize = usize::MAX / 2;

/// What comes in front of a token: nothing, or the tokens that make it a key. The definitions of what a queue gives
/// speak of it, so it is public.
#[derive(Clone, Copy)]
pub enum Opening {
    Nothing,
    /// The token of a key, if its mapping is open.
    Key,
    /// The start of a block mapping, and the token of its first key.
    BlockMappingAndKey,
    /// The start of a flow mapping and a key, for a pair in a flow sequence: `[a: b]` has a mapping of its own.
    FlowMappingAndKey,
}

/// The tokens that were read and not handed out, in places that are numbered from the text's start.
///
/// A token that may still become a key may need a mapping's start and a key before it. So it is held here until
/// that is known, with all tokens after it: in `[a, b]: c` the bracket and the tokens after it wait for the
/// colon. The place of a token also says what makes it a key, so no token moves.
///
/// A place that is handed out stays where it is until there is no room for another.
#[derive(Drop)]
pub(crate) struct Queue {
    places: Vec<Place>,
    // How many of the places were handed out.
    spent: usize,
    // The texts of the others.
    texts: Texts,
    // The number of the first place here, counted from the text's start.
    base: usize,
    // So no number of a place is too large.
    ghost few: { base < 2 ^ 63 },
    ghost within: { spent ≤ length places.items },
    ghost fit: { Fit (drop spent places.items) texts } by { Fit-prop (drop spent places.items) texts },
}

impl Queue {
    ghost use Rattle.saphyr_scanner.specs.Views.Tokens.{no_parts, piece_with, text_parts};
    ghost use Rattle.saphyr_scanner.specs.Views.Queue.{queue, queue_places, with_block_ends};

    #[tactic(auto, unfolding(crate::specs::Views::Queue::queue_places))]
    pub(crate) fn new(alloc: Global) -> Self
        ensures { queue result ≡ spec.empty }
    {
        Queue {
            places: Vec::new(alloc),
            spent: 0,
            texts: Texts::new(alloc),
            base: 0,
        }
    }

    #[tactic(auto, using(crate::proofs::QueuedPlaces::queued_length))]
    fn len(&self) -> usize
        ensures { result ≡ length (queue_places self.now) }
    {
        self.places.len() - self.spent
    }

    #[inline(always)]
    #[tactic(auto, using(crate::proofs::QueuedPlaces::is_none))]
    pub(crate) fn is_empty(&self) -> bool
        ensures { result ≡ spec.is_empty (queue self.now) }
    {
        self.len() == 0
    }

    /// The number of the first place that was not handed out.
    pub(crate) fn first(&self) -> usize
        ensures { result ≡ (queue self.now).handed }
    {
        self.base + self.spent
    }

    /// The number of the place that comes next.
    #[tactic(auto, using(crate::proofs::QueuedPlaces::queued_length))]
    pub(crate) fn next(&self) -> usize
        ensures { result ≡ spec.next (queue self.now) }
    {
        self.base + self.places.len()
    }

    // Makes room for one more place.
    #[inline(always)]
    fn make_room(&mut self) -> Result<(), AllocError>
        ensures same { queue self.new ≡ queue self.old }
        ensures room { OnOk result (vec_len self.new.places < vec_capacity self.new.places) }
    {
        if self.places.len() >= self.places.capacity() {
            self.grow()?;
        }
        Ok(())
    }

    // Makes room where there is none: places that were handed out are taken off, if they are most of them. For speed
    // that is not done at each token that is handed out.
    #[inline(never)]
    #[tactic(auto, using(crate::proofs::QueuedPlaces::moved_down), unfolding(crate::specs::Views::Queue::queue_places))]
    fn grow(&mut self) -> Result<(), AllocError>
        ensures same { queue self.new ≡ queue self.old }
        ensures room { OnOk result (vec_len self.new.places < vec_capacity self.new.places) }
    {
        self.texts.clear_spent();
        if self.spent > self.places.len() / 2 {
            let base = self.first();
            if base > MOST {
                return Err(AllocError);
            }
            let left = self.places.len() - self.spent;
            self.places.copy_within(self.spent.., 0);
            self.places.truncate(left);
            self.base = base;
            self.spent = 0;
            return Ok(());
        }
        self.places.reserve(FEW)?;
        Ok(())
    }

    /// Puts a token without parts at the end.
    #[inline(always)]
    #[tactic(auto, using(crate::proofs::QueuedPlaces::put_behind), unfolding(crate::specs::Views::Queue::queue_places))]
    pub(crate) fn put(
        &mut self,
        kind: TokenKind,
        start: &Marker,
        end: &Marker,
    ) -> Result<(), AllocError>
        ensures { OnOk result (queue self.new ≡ spec.with_piece
            (piece_with (record { start = start.now; end = end.now }) kind no_parts)
            (queue self.old)) }
    {
        self.make_room()?;
        let place = Place::bare(kind, start, end, &mut self.texts)?;
        self.places.push_reserved(place);
        Ok(())
    }

    /// Puts a token with a text alone at the end.
    #[tactic(auto, using(crate::proofs::QueuedPlaces::put_behind), unfolding(crate::specs::Views::Queue::queue_places))]
    pub(crate) fn put_text(
        &mut self,
        kind: TokenKind,
        span: &Span,
        text: String,
        spare: &mut Spare,
    ) -> Result<(), AllocError>
        ensures { OnOk result (queue self.new ≡ spec.with_piece
            (piece_with span.now kind (text_parts (string_bytes text))) (queue self.old)) }
    {
        self.make_room()?;
        match Place::with_text(kind, span, text, &mut self.texts, spare) {
            Ok(place) => {
                self.places.push_reserved(place);
                Ok(())
            }
            Err(error) => Err(self.texts.forget(&mut self.places, &mut self.spent, error)),
        }
    }

    /// Puts a token of this extent with these texts at the end.
    #[tactic(auto, using(crate::proofs::QueuedPlaces::put_behind), unfolding(crate::specs::Views::Queue::queue_places))]
    pub(crate) fn put_parts(
        &mut self,
        kind: TokenKind,
        extent: Extent,
        handle: &str,
        text: &str,
    ) -> Result<(), AllocError>
        requires handle { extent.handle ≡ length handle.now }
        requires text { extent.text ≡ length text.now }
        ensures { OnOk result (queue self.new ≡ spec.with_piece
            (piece_with extent.span kind (parts_at extent (handle.now ++ text.now)))
            (queue self.old)) }
    {
        self.make_room()?;
        match Place::with_parts(kind, extent, handle, text, &mut self.texts) {
            Ok(place) => {
                self.places.push_reserved(place);
                Ok(())
            }
            Err(error) => Err(self.texts.forget(&mut self.places, &mut self.spent, error)),
        }
    }

    /// Puts so many ends of block collections at the end, all at one place of the text.
    #[inline(always)]
    #[tactic(auto, using(crate::proofs::Queues::next_end))]
    pub(crate) fn put_block_ends(&mut self, mark: Marker, count: usize) -> Result<(), AllocError>
        ensures { OnOk result (queue self.new ≡ with_block_ends count mark (queue self.old)) }
    {
        for _done in 0..count {
            self.put(TokenKind::BlockEnd, &mark, &mark)?;
        }
        Ok(())
    }

    /// Sets what comes in front of the token at a place.
    #[tactic(auto, using(crate::proofs::FirstQueued::opened_place), unfolding(crate::specs::Views::Queue::queue_places))]
    pub(crate) fn set_opening(&mut self, number: usize, opening: Opening)
        ensures { queue self.new ≡ spec.with_opening number opening (queue self.old) }
    {
        let nth = number.saturating_sub(self.first());
        if nth >= self.places.len() - self.spent {
            return;
        }
        if let Some(place) = self.places.get_mut(self.spent + nth) {
            place.open(opening);
        }
    }

    /// A copy, unless memory runs out.
    pub(crate) fn try_clone(&self) -> Result<Queue, AllocError>
        ensures { IfOk result (λ copy. queue copy ≡ queue self.now) }
    {
        Ok(Queue {
            places: self.places.clone()?,
            spent: self.spent,
            texts: self.texts.try_clone()?,
            base: self.base,
        })
    }
}
