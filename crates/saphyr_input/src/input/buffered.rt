//! The characters of an iterator, read through a ring.
ghost use Rattle.std.specs.Prelude.{◌≡◌, ℕ, ◌+◌, ◌<◌, ◌≤◌, List, [], ◌++◌, length, take, IfOk};
ghost use Rattle.saphyr_input.specs.Listed.{Lists, Listed};
ghost use Rattle.saphyr_input.specs.Sources.{items};

use crate::char_traits::is_yaml_non_break;
use crate::input::Input;
use circular_buffer::HeapCircularBuffer;
use source::Source;
use std::alloc::{AllocError, Global};
use std::str::Chars;

mod source;

/// How many places can be loaded at once.
const WINDOW: usize = 16;

/// The most items that are taken from an iterator.
const MOST_ITEMS: u64 = 4294967296;

/// An iterator over characters whose clones give the same items as itself.
///
/// [`Clone`] alone doesn't say so: each type says for itself what a clone is.
pub trait FaithfulClone: Iterator<Item = char> + Clone {
    /// A list of the items of an iterator is one of those of its clone.
    ghost faithful: { (s t : Self) → Self.is_clone s t → (xs : List ℕ)
        → Lists Self.can_next Self.next_gives s xs → Lists Self.can_next Self.next_gives t xs };
}

impl FaithfulClone for Chars<'_> {
    ghost use Rattle.saphyr_input.specs.Clones.{chars_faithful};

    ghost faithful = { chars_faithful };
}

/// The characters of an iterator, up to its first `None`, as an [`Input`].
///
/// The text ends after 4,294,967,296 items at the latest. The iterator is never called after its first
/// `None`: what it would give later is no part of the text.
pub struct BufferedInput<I: Iterator<Item = char>> {
    source: Source<I>,
    // The characters of the loaded places, as far as the text goes.
    ring: HeapCircularBuffer<char>,
    loaded: usize,
    ghost capacity: { ring.capacity ≡ 16 },
    ghost within: { loaded ≤ 16 },
    ghost held: { length ring.items ≤ loaded },
    ghost exhausted: { length ring.items < loaded → items source ≡ [] },
}

// Written out, so that crates with such an input call it. A derived one would be copied there, and checked.
impl<I: Iterator<Item = char> + Drop> Drop for BufferedInput<I> {
    fn drop(self) {
        let BufferedInput {
            source: _source,
            ring: _ring,
            loaded: _loaded,
        } = self;
    }
}

impl<I: Iterator<Item = char>> BufferedInput<I> {
    /// An input over the items of the iterator. Up to the first `None` they must be one list. The law
    /// `lists_characters` shows this for those of a text's `chars`. The iterator is not called yet.
    /// The call fails if there is no memory for the loaded places.
    pub fn new(alloc: Global, iter: I) -> Result<Self, AllocError>
        requires { Listed I.can_next I.next_gives iter }
        ensures rest { (xs : List ℕ) → Lists I.can_next I.next_gives iter xs
            → IfOk result (λ input. ⟦<BufferedInput<I> as Input>⟧.rest input ≡ take 4294967296 xs) }
        ensures loaded { IfOk result (λ input. ⟦<BufferedInput<I> as Input>⟧.loaded input ≡ 0) }
    {
        BufferedInput::with_limit(alloc, iter, MOST_ITEMS)
    }

    /// An input with your own limit, which is at most 4,294,967,296. The text ends after that many items, as at a
    /// `None`.
    pub fn with_limit(alloc: Global, iter: I, limit: u64) -> Result<Self, AllocError>
        requires bounded { limit ≤ 4294967296 }
        requires listed { Listed I.can_next I.next_gives iter }
        ensures rest { (xs : List ℕ) → Lists I.can_next I.next_gives iter xs
            → IfOk result (λ input. ⟦<BufferedInput<I> as Input>⟧.rest input ≡ take limit xs) }
        ensures loaded { IfOk result (λ input. ⟦<BufferedInput<I> as Input>⟧.loaded input ≡ 0) }
    {
        let ring = HeapCircularBuffer::with_capacity(alloc, WINDOW)?;
        Ok(BufferedInput {
            source: Source::new(iter, limit),
            ring,
            loaded: 0,
        })
    }
}

impl<I: Iterator<Item = char>> Input for BufferedInput<I> {
    ghost use Rattle.std.proofs.Common.{lit≤};

    ghost rest = { λ s. s.ring.items ++ items s.source };

    ghost loaded = { λ s. s.loaded };

    ghost window = { 16 };

    ghost wide = { lit≤ tt };

    #[tactic(auto, using(crate::proofs::Listing::items_within))]
    fn lookahead(&mut self, count: usize) {
        while self.loaded < count {
            if let Some(c) = self.source.next() {
                self.ring.push_back(c);
            }
            self.loaded += 1;
        }
    }

    fn buflen(&self) -> usize {
        self.loaded
    }

    fn bufmaxlen(&self) -> usize {
        WINDOW
    }

    fn raw_read_ch(&mut self) -> char {
        self.source.next().unwrap_or('\0')
    }

    fn raw_read_non_breakz_ch(&mut self) -> Option<char> {
        let c = self.source.next()?;
        if is_yaml_non_break(c) {
            return Some(c);
        }
        self.ring.push_back(c);
        self.loaded = 1;
        None
    }

    fn skip(&mut self) {
        self.ring.pop_front();
        self.loaded -= 1;
    }

    #[inline]
    fn skip_n(&mut self, count: usize) {
        for _ in 0..count {
            self.skip();
        }
    }

    #[inline]
    fn peek(&self) -> char {
        self.peek_opt().unwrap_or('\0')
    }

    fn peek_nth(&self, n: usize) -> char {
        self.ring.get(n).copied().unwrap_or('\0')
    }

    fn peek_opt(&self) -> Option<char> {
        self.ring.front().copied()
    }
}

impl<I: FaithfulClone> Clone for BufferedInput<I> {
    ghost is_clone = { λ s t. (⟦<BufferedInput<I> as Input>⟧.rest t
        ≡ ⟦<BufferedInput<I> as Input>⟧.rest s)
        × (⟦<BufferedInput<I> as Input>⟧.loaded t ≡ ⟦<BufferedInput<I> as Input>⟧.loaded s) };

    fn clone(&self) -> Result<Self, AllocError> {
        let mut ring = HeapCircularBuffer::with_capacity(*self.ring.allocator(), WINDOW)?;
        for c in self.ring.iter() {
            ring.push_back(*c);
        }
        let source = self.source.clone()?;
        Ok(BufferedInput {
            source,
            ring,
            loaded: self.loaded,
        })
    }
}
