//! An input that owns its text, so that a reader of it can be kept while more of the text comes.

ghost use Rattle.std.specs.Prelude.{◌≡◌, ◌≤◌, ℕ, drop, string_bytes};
ghost use Rattle.std.specs.Str.{chars, IsCharBoundary};

use saphyr_input::input::{CloneInput, Input, SkipTabs};
use saphyr_input::{CharSet, StrInput, WordSet};
use std::alloc::{AllocError, Global};

/// The rest of a text that the input owns. It is read as by a `StrInput`.
#[derive(Drop)]
pub struct OwnedText {
    text: String,
    // Where the rest begins.
    start: usize,
    loaded: usize,
    alloc: Global,
    ghost boundary: { IsCharBoundary (string_bytes text) start },
    ghost within: { loaded ≤ 128 },
}

// Where the end of a text begins that was left of what follows `start`.
fn start_of(text: &str, start: usize, left: &str) -> usize
    requires from { IsCharBoundary text.now start }
    requires later { (count : ℕ) × (chars left.now ≡ drop count (chars (drop start text.now))) }
    ensures boundary { IsCharBoundary text.now result }
    ensures left { drop result text.now ≡ left.now }
{
    let _ = text.as_bytes();
    text.len() - left.len()
}

impl OwnedText {
    /// The whole of a text, with no place loaded.
    pub fn new(alloc: Global, text: String) -> OwnedText
        ensures { ⟦<OwnedText as Input>⟧.rest result ≡ chars (string_bytes text) }
    {
        OwnedText {
            text,
            start: 0,
            loaded: 0,
            alloc,
        }
    }

    /// The memory of the text.
    pub fn into_string(self) -> String {
        let OwnedText { text, .. } = self;
        text
    }

    /// The characters that remain, as a text.
    #[inline]
    pub fn as_str(&self) -> &str
        ensures { chars result.now ≡ ⟦<OwnedText as Input>⟧.rest self.now }
    {
        &self.text.as_str()[self.start..]
    }

    // The rest, as an input that owns nothing.
    #[inline(always)]
    fn rest<'a>(&'a self) -> StrInput<'a>
        ensures rest { ⟦<StrInput<'a> as Input>⟧.rest result
            ≡ ⟦<OwnedText as Input>⟧.rest self.now }
        ensures loaded { ⟦<StrInput<'a> as Input>⟧.loaded result
            ≡ ⟦<OwnedText as Input>⟧.loaded self.now }
    {
        let mut rest = StrInput::new(self.as_str());
        rest.lookahead(self.loaded);
        rest
    }
}

impl Input for OwnedText {
    ghost use Rattle.std.proofs.Common.{lit≤};
    ghost use Rattle.std.specs.Prelude.{drop, string_bytes};
    ghost use Rattle.std.specs.Str.{chars};

    ghost rest = { λ s. chars (drop s.start (string_bytes s.text)) };

    ghost loaded = { λ s. s.loaded };

    ghost window = { 128 };

    ghost wide = { lit≤ tt };

    #[inline]
    fn lookahead(&mut self, count: usize) {
        // There are fewer than 2^64 bytes, and no more characters than bytes.
        let _ = self.as_str().as_bytes();
        if self.loaded < count {
            self.loaded = count;
        }
    }

    #[inline]
    fn buflen(&self) -> usize {
        self.loaded
    }

    #[inline]
    fn bufmaxlen(&self) -> usize {
        self.rest().bufmaxlen()
    }

    fn raw_read_ch(&mut self) -> char {
        let mut rest = self.rest();
        let c = rest.raw_read_ch();
        self.start = start_of(&self.text, self.start, rest.as_str());
        c
    }

    fn raw_read_non_breakz_ch(&mut self) -> Option<char> {
        let mut rest = self.rest();
        let c = rest.raw_read_non_breakz_ch();
        self.start = start_of(&self.text, self.start, rest.as_str());
        c
    }

    #[inline]
    fn skip(&mut self) {
        self.skip_n(1);
    }

    #[inline]
    fn skip_n(&mut self, count: usize) {
        let mut rest = self.rest();
        rest.skip_n(count);
        self.start = start_of(&self.text, self.start, rest.as_str());
    }

    #[inline]
    fn peek(&self) -> char {
        self.rest().peek()
    }

    #[inline]
    fn peek_nth(&self, n: usize) -> char {
        self.rest().peek_nth(n)
    }

    #[inline]
    fn peek_opt(&self) -> Option<char> {
        self.rest().peek_opt()
    }

    #[inline(always)]
    fn skip_ascii(&mut self) {
        // There are fewer than 2^64 bytes.
        let _ = self.text.as_bytes();
        self.start += 1;
    }

    #[inline]
    fn next_is_document_start(&self) -> bool {
        self.rest().next_is_document_start()
    }

    #[inline]
    fn next_is_document_end(&self) -> bool {
        self.rest().next_is_document_end()
    }

    #[inline(always)]
    fn skip_ws_to_eol(&mut self, skip_tabs: SkipTabs) -> (usize, Result<SkipTabs, &'static str>) {
        self.lookahead(1);
        let mut rest = self.rest();
        let skipped = rest.skip_ws_to_eol(skip_tabs);
        self.start = start_of(&self.text, self.start, rest.as_str());
        skipped
    }

    fn skip_while<C: CharSet>(&mut self) -> usize {
        self.lookahead(1);
        let mut rest = self.rest();
        let count = rest.skip_while::<C>();
        self.start = start_of(&self.text, self.start, rest.as_str());
        count
    }

    fn fetch_while<C: CharSet>(&mut self, out: &mut String) -> Result<usize, AllocError> {
        self.lookahead(1);
        let mut rest = self.rest();
        let fetched = rest.fetch_while::<C>(out);
        self.start = start_of(&self.text, self.start, rest.as_str());
        fetched
    }

    #[inline(always)]
    fn fetch_words<C: WordSet>(&mut self, out: &mut String) -> Result<(usize, char), AllocError> {
        self.lookahead(1);
        let mut rest = self.rest();
        let fetched = rest.fetch_words::<C>(out);
        self.start = start_of(&self.text, self.start, rest.as_str());
        fetched
    }

    #[inline(always)]
    fn skip_spaces(&mut self, most: usize) -> usize {
        let mut rest = self.rest();
        let count = rest.skip_spaces(most);
        self.start = start_of(&self.text, self.start, rest.as_str());
        count
    }
}

impl Clone for OwnedText {
    ghost is_clone = { λ s t. (⟦<OwnedText as Input>⟧.rest t ≡ ⟦<OwnedText as Input>⟧.rest s)
        × (t.loaded ≡ s.loaded) };

    fn clone(&self) -> Result<Self, AllocError> {
        let text = String::from_str(self.alloc, self.as_str())?;
        let mut copy = OwnedText::new(self.alloc, text);
        copy.loaded = self.loaded;
        Ok(copy)
    }
}

impl CloneInput for OwnedText {
    ghost faithful = { λ _ _ same. same };
}
