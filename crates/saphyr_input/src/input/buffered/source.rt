//! The items of an iterator, up to its first `None` and to a bound.
ghost use Rattle.std.specs.Prelude.{◌≡◌, ℕ, ◌≤◌, List, [], ◌∷◌, take, MatchOption};
ghost use Rattle.saphyr_input.specs.Listed.{Lists, Listed, Pending, Pending-prop};

use super::FaithfulClone;
use std::alloc::AllocError;

/// An iterator, and how many items may still be taken from it.
#[derive(Drop)]
pub(super) struct Source<I: Iterator<Item = char>> {
    iter: I,
    // 0 after the first `None` of the iterator.
    left: u64,
    ghost bounded: { left ≤ 4294967296 },
    ghost listed: { Pending I.can_next I.next_gives left iter } by { Pending-prop I.can_next I.next_gives left iter },
}

impl<I: Iterator<Item = char>> Source<I> {
    ghost use Rattle.saphyr_input.specs.Sources.{items};

    pub(super) fn new(iter: I, limit: u64) -> Self
        requires bounded { limit ≤ 4294967296 }
        requires listed { Listed I.can_next I.next_gives iter }
        ensures { (xs : List ℕ) → Lists I.can_next I.next_gives iter xs
            → items result ≡ take limit xs }
    {
        Source { iter, left: limit }
    }

    /// The next item. After the first `None` the iterator is not called again.
    pub(super) fn next(&mut self) -> Option<char>
        ensures { MatchOption result ((items self.old ≡ []) × (items self.new ≡ []))
            (λ c. items self.old ≡ c ∷ items self.new) }
    {
        if self.left == 0 {
            return None;
        }
        match self.iter.next() {
            Some(c) => {
                self.left -= 1;
                Some(c)
            }
            None => {
                self.left = 0;
                None
            }
        }
    }
}

impl<I: FaithfulClone> Clone for Source<I> {
    ghost use Rattle.saphyr_input.specs.Sources.{items};

    ghost is_clone = { λ s t. items t ≡ items s };

    fn clone(&self) -> Result<Self, AllocError> {
        let iter = self.iter.clone()?;
        Ok(Source {
            iter,
            left: self.left,
        })
    }
}
