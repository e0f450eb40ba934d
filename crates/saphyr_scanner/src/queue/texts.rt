//! The texts of the tokens in a queue, and the extents of those tokens that don't fit into their places.

mod read;

ghost use Rattle.std.specs.Prelude.{◌≡◌, ◌<◌, ◌≤◌, ◌+◌, [], drop, length, take, IfOk, OnErr, OnOk, IsUtf8, slice_index, string_bytes};
ghost use Rattle.saphyr_scanner.specs.Views.Texts as spec;

use crate::queue::place::Place;
use saphyr_scalar::{Marker, Span, Spare, Stop};
use std::alloc::{AllocError, Global};
use std::collections::VecDeque;
use std::marker::Model;
use std::mem::{replace, swap};
use std::str;

// A text that has this many bytes, or whose memory has no more, is handed out in the memory where it is, if no other is
// there. The memory of another may be much larger than it.
const LONG: usize = 4096;

/// The span of a token, how many bytes its handle and its text have, and the numbers of a version directive.
#[derive(Clone, Copy)]
pub(crate) struct Extent {
    pub(crate) span: Span,
    pub(crate) handle: usize,
    pub(crate) text: usize,
    pub(crate) major: u32,
    pub(crate) minor: u32,
}

impl Extent {
    /// The extent of a token without numbers.
    pub(crate) fn of_texts(span: Span, handle: usize, text: usize) -> Extent
        ensures { result ≡ record
            { span = span; handle = handle; text = text; major = 0; minor = 0 } }
    {
        Extent {
            span,
            handle,
            text,
            major: 0,
            minor: 0,
        }
    }
}

/// The texts of the tokens in a queue, in the order of the tokens.
///
/// A box for each text would cost more than the text. So they are one after another in one piece of memory.
#[derive(Drop)]
pub(super) struct Texts {
    texts: String,
    // How many bytes of the texts were handed out.
    spent: usize,
    extents: VecDeque<Extent>,
    ghost within: { spent ≤ length (string_bytes texts) },
}

impl Model for Texts {
    ghost use Rattle.std.specs.Prelude.{drop, string_bytes};
    ghost use Rattle.saphyr_scanner.specs.Views.Texts.{Texts as Seen};

    ghost Value = { Seen };

    ghost view = { λ a. record { bytes = drop a.spent (string_bytes a.texts); extents = a.extents.items } };
}

// Nothing is known of the texts after an error, which is returned.
#[inline(always)]
fn lose(texts: &mut String, spent: &mut usize, error: Stop) -> Stop
    ensures texts { string_bytes texts.new ≡ [] }
    ensures spent { spent.new ≡ 0 }
    ensures error { result ≡ error }
{
    texts.clear();
    *spent = 0;
    error
}

impl Texts {
    pub(super) fn new(alloc: Global) -> Self
        ensures { result ≡ spec.nothing }
    {
        Texts {
            texts: String::new(alloc),
            spent: 0,
            extents: VecDeque::new(alloc),
        }
    }

    /// Puts a text behind the others.
    #[inline(always)]
    pub(super) fn push(&mut self, text: &str) -> Result<(), AllocError>
        ensures { OnOk result (self.new ≡ spec.with_last_text text.now self.old) }
    {
        self.texts.push_str(text)
    }

    /// Puts a text behind the others. A long one stays in its memory, if no other text is there.
    pub(super) fn take_over(&mut self, text: String, spare: &mut Spare) -> Result<(), AllocError>
        ensures { OnOk result (self.new ≡ spec.with_last_text (string_bytes text) self.old) }
    {
        if text.len() >= LONG && self.spent == self.texts.len() {
            self.spent = 0;
            spare.keep(replace(&mut self.texts, text));
            return Ok(());
        }
        self.texts.push_str(&text)?;
        spare.keep(text);
        Ok(())
    }

    /// Puts an extent behind the others.
    #[inline(never)]
    pub(super) fn push_extent(&mut self, extent: Extent) -> Result<(), AllocError>
        ensures kept { OnOk result (self.new ≡ spec.with_last_extent extent self.old) }
        ensures failed { OnErr result (self.new ≡ self.old) }
    {
        self.extents.push_back(extent)?;
        Ok(())
    }

    /// The text of so many bytes behind others.
    #[inline(always)]
    #[tactic(auto, using(crate::proofs::QueuedPlaces::text_found))]
    pub(super) fn text_at(&self, before: usize, count: usize) -> &str
        requires within { before + count ≤ length self.now.bytes }
        requires text { ∥ IsUtf8 (take count (drop before self.now.bytes)) ∥₁ }
        ensures { result.now ≡ take count (drop before self.now.bytes) }
    {
        let start = self.spent + before;
        let bytes = &self.texts.as_bytes()[start..start + count];
        // What was put here is a text.
        unsafe { str::from_utf8_unchecked(bytes) }
    }

    /// Takes the first text off, or the first ones, which have so many bytes.
    #[inline(always)]
    pub(super) fn pass_text(&mut self, count: usize)
        requires { count ≤ length self.old.bytes }
        ensures { self.new ≡ spec.behind_text count self.old }
    {
        self.spent += count;
    }

    /// Uses the memory of the texts again, where all were handed out.
    #[inline(always)]
    pub(super) fn clear_spent(&mut self)
        ensures { self.new ≡ self.old }
    {
        if self.spent == self.texts.len() {
            self.texts.clear();
            self.spent = 0;
        }
    }

    // Whether a text of so many bytes, which is alone, is handed out in the memory where it is.
    #[inline(always)]
    fn is_handed_over(&self, count: usize) -> bool {
        count >= LONG || self.texts.capacity() <= LONG
    }

    /// Takes the first two texts off, which have so many bytes. The second goes into an empty text.
    #[inline(always)]
    pub(super) fn take_second_into(
        &mut self,
        handle: usize,
        count: usize,
        into: &mut String,
    ) -> Result<(), AllocError>
        requires there { spec.BeginsWithTexts handle count self.old }
        requires empty { string_bytes into.old ≡ [] }
        ensures text { OnOk result
            (string_bytes into.new ≡ take count (drop handle self.old.bytes)) }
        ensures left { OnOk result
            (self.new ≡ spec.behind_text count (spec.behind_text handle self.old)) }
        ensures failed { OnErr result (self.new ≡ self.old) }
    {
        let is_alone = self.spent + handle == 0 && count == self.texts.len();
        if is_alone && self.is_handed_over(count) {
            swap(&mut self.texts, into);
            return Ok(());
        }
        into.push_str(self.text_at(handle, count))?;
        self.pass_text(handle);
        self.pass_text(count);
        self.clear_spent();
        Ok(())
    }

    /// Takes a text off in the same way. It is separate for speed, since a handle is seldom before a text that is taken
    /// alone.
    #[inline(never)]
    pub(super) fn take_behind_into(
        &mut self,
        handle: usize,
        count: usize,
        into: &mut String,
    ) -> Result<(), AllocError>
        requires there { spec.BeginsWithTexts handle count self.old }
        requires empty { string_bytes into.old ≡ [] }
        ensures text { OnOk result
            (string_bytes into.new ≡ take count (drop handle self.old.bytes)) }
        ensures left { OnOk result
            (self.new ≡ spec.behind_text count (spec.behind_text handle self.old)) }
        ensures failed { OnErr result (self.new ≡ self.old) }
    {
        self.take_second_into(handle, count, into)
    }

    /// The first of the extents, or one at the start of a text if there is none.
    pub(super) fn first_extent(&self) -> Extent
        ensures { result ≡ spec.first_extent self.now.extents }
    {
        match self.extents.front() {
            Some(extent) => *extent,
            None => Extent::of_texts(Span::empty(Marker::new(0, 0, 0)), 0, 0),
        }
    }

    /// The span of the first of the extents goes into the place of another.
    #[inline(never)]
    pub(super) fn first_span_into(&self, span: &mut Span)
        ensures { span.new ≡ (spec.first_extent self.now.extents).span }
    {
        *span = self.first_extent().span;
    }

    /// Takes the first of the extents off, and the texts of its token.
    pub(super) fn pass_extent(&mut self)
        requires { spec.HasExtent self.old }
        ensures { self.new ≡ spec.behind_extent self.old }
    {
        let extent = self.first_extent();
        self.pass_text(extent.handle);
        self.pass_text(extent.text);
        drop(self.extents.pop_front());
    }

    /// Takes the first of the extents off, and the texts of its token, of which the last goes into an empty text.
    #[inline(never)]
    pub(super) fn take_extent_into(&mut self, into: &mut String) -> Result<(), AllocError>
        requires there { spec.HasExtent self.old }
        requires empty { string_bytes into.old ≡ [] }
        ensures text { OnOk result (string_bytes into.new
            ≡ take (spec.first_extent self.old.extents).text
            (drop (spec.first_extent self.old.extents).handle self.old.bytes)) }
        ensures left { OnOk result (self.new ≡ spec.behind_extent self.old) }
        ensures failed { OnErr result (self.new ≡ self.old) }
    {
        let extent = self.first_extent();
        self.take_behind_into(extent.handle, extent.text, into)?;
        drop(self.extents.pop_front());
        Ok(())
    }

    /// Forgets all texts and extents, and the places of their tokens, after an error, which is returned.
    #[inline(always)]
    pub(super) fn forget<E>(&mut self, places: &mut Vec<Place>, spent: &mut usize, error: E) -> E
        ensures texts { self.new ≡ spec.nothing }
        ensures places { places.new.items ≡ [] }
        ensures spent { spent.new ≡ 0 }
        ensures error { result ≡ error }
    {
        self.extents.clear();
        self.texts.clear();
        self.spent = 0;
        places.clear();
        *spent = 0;
        error
    }

    /// A copy, unless memory runs out.
    pub(super) fn try_clone(&self) -> Result<Texts, AllocError>
        ensures { IfOk result (λ copy. copy ≡ self.now) }
    {
        Ok(Texts {
            texts: self.texts.clone()?,
            spent: self.spent,
            extents: self.extents.clone()?,
        })
    }
}
