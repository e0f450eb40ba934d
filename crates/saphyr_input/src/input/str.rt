//! A text as an input.
ghost use Rattle.std.specs.Prelude.{◌≡◌, ◌≤◌, length, drop, take, max, string_bytes, IfOk, OnErr};
ghost use Rattle.std.specs.Str.{chars};
ghost use Rattle.saphyr_input.specs.Places as spec;

mod text;
mod wide;

use self::text::{
    ascii_run, behind_ascii, first_byte, first_char, is_marker, leading_spaces, nth_char, run,
    run_here, second_char, split_blanks, split_first, third_char, words,
};
use crate::char_set::{Alpha, Blank, CharSet, NonBreak, NonSpace, WordSet};
use crate::char_traits::{
    is_alpha, is_blank, is_blank_or_breakz, is_break, is_breakz, is_digit, is_flow,
    is_yaml_non_break, is_z,
};
use crate::input::{Input, SkipTabs};
use std::alloc::AllocError;

/// How many places can be loaded at once.
const WINDOW: usize = 128;

/// The rest of a text, as an input.
///
/// To load only counts places: the characters are read from the text itself. So no place is lost when characters are
/// taken off, and the count never falls.
#[derive(Clone, Copy, Debug)]
pub struct StrInput<'a> {
    rest: &'a str,
    loaded: usize,
    ghost within: { loaded ≤ 128 },
}

impl<'a> StrInput<'a> {
    /// The whole of `text`, with no place loaded.
    pub fn new(text: &'a str) -> Self
        ensures rest { ⟦<StrInput<'a> as Input>⟧.rest result ≡ chars text.now }
        ensures loaded { ⟦<StrInput<'a> as Input>⟧.loaded result ≡ 0 }
    {
        StrInput {
            rest: text,
            loaded: 0,
        }
    }

    /// The characters that remain, as a text.
    #[inline]
    pub fn as_str(&self) -> &'a str
        ensures { chars result.now ≡ ⟦<StrInput<'a> as Input>⟧.rest self.now }
    {
        self.rest
    }

    // Moves the first `count` characters to the end of `out`, in one piece. `rest` is what follows them.
    #[inline(always)]
    fn fetch(&mut self, count: usize, rest: &'a str, out: &mut String) -> Result<usize, AllocError>
        requires { chars rest.now ≡ drop count (chars self.old.rest.now) }
        ensures ok { IfOk result (λ n. (n ≡ count)
            × spec.Transfers count (chars self.old.rest.now) (chars self.new.rest.now)
            (string_bytes out.old) (string_bytes out.new)) }
        ensures err { OnErr result ((chars self.new.rest.now ≡ chars self.old.rest.now)
            × (string_bytes out.new ≡ string_bytes out.old)) }
        ensures loaded { self.new.loaded ≡ self.old.loaded }
    {
        // `rest` is the end of this text, so the front ends between two characters.
        let _ = self.rest.as_bytes();
        let front = &self.rest[..self.rest.len() - rest.len()];
        out.push_str(front)?;
        self.rest = rest;
        Ok(count)
    }
}

impl Input for StrInput<'_> {
    ghost use Rattle.std.specs.Str.{chars};

    ghost rest = { λ s. chars s.rest.now };

    ghost loaded = { λ s. s.loaded };

    ghost window = { 128 };

    ghost use Rattle.std.proofs.Common.{lit≤};

    ghost wide = { lit≤ tt };

    #[inline]
    fn lookahead(&mut self, count: usize) {
        // There are fewer than 2^64 bytes, and no more characters than bytes.
        let _ = self.rest.as_bytes();
        if self.loaded < count {
            self.loaded = count;
        }
    }

    #[inline]
    fn buflen(&self) -> usize {
        self.loaded
    }

    #[inline]
    fn bufmaxlen(&self) -> usize {
        WINDOW
    }

    #[inline]
    fn buf_is_empty(&self) -> bool {
        self.loaded == 0
    }

    #[inline]
    fn raw_read_ch(&mut self) -> char {
        let (c, rest) = split_first(self.rest);
        self.rest = rest;
        c
    }

    #[inline]
    fn raw_read_non_breakz_ch(&mut self) -> Option<char> {
        let (c, rest) = split_first(self.rest);
        if !is_yaml_non_break(c) {
            return None;
        }
        self.rest = rest;
        Some(c)
    }

    #[inline]
    fn skip(&mut self) {
        self.rest = split_first(self.rest).1;
    }

    #[inline]
    fn skip_n(&mut self, count: usize) {
        for _ in 0..count {
            self.skip();
        }
    }

    #[inline]
    fn peek(&self) -> char {
        self.rest.chars().next().unwrap_or('\0')
    }

    #[inline(always)]
    fn peek_nth(&self, n: usize) -> char {
        if n == 1 {
            return second_char(self.rest);
        }
        if n == 2 {
            return third_char(self.rest);
        }
        nth_char(self.rest, n)
    }

    #[inline]
    fn peek_opt(&self) -> Option<char> {
        self.rest.chars().next()
    }

    #[inline(always)]
    fn skip_ascii(&mut self) {
        self.rest = behind_ascii(self.rest);
    }

    #[inline]
    fn look_ch(&mut self) -> char {
        self.lookahead(1);
        self.peek()
    }

    #[inline]
    fn next_char_is(&self, c: char) -> bool {
        first_char(self.rest) == c
    }

    #[inline]
    fn nth_char_is(&self, n: usize, c: char) -> bool {
        self.peek_nth(n) == c
    }

    #[inline]
    fn next_2_are(&self, c1: char, c2: char) -> bool {
        first_char(self.rest) == c1 && second_char(self.rest) == c2
    }

    #[inline]
    fn next_3_are(&self, c1: char, c2: char, c3: char) -> bool {
        self.next_2_are(c1, c2) && third_char(self.rest) == c3
    }

    #[inline]
    fn next_is_document_indicator(&self) -> bool {
        is_marker(self.rest, b'-') || is_marker(self.rest, b'.')
    }

    #[inline]
    fn next_is_document_start(&self) -> bool {
        is_marker(self.rest, b'-')
    }

    #[inline]
    fn next_is_document_end(&self) -> bool {
        is_marker(self.rest, b'.')
    }

    #[inline(always)]
    fn skip_ws_to_eol(&mut self, skip_tabs: SkipTabs) -> (usize, Result<SkipTabs, &'static str>) {
        // There are fewer than 2^64 bytes, and no more characters than bytes.
        let _ = self.rest.as_bytes();
        let (blanks, rest) = split_blanks(self.rest, skip_tabs);
        self.rest = rest;
        self.lookahead(1);
        let found = SkipTabs::Result(blanks.tabs, blanks.spaces);
        if self.peek() != '#' {
            return (blanks.count, Ok(found));
        }
        if blanks.count == 0 {
            let text = "comments must be separated from other tokens by whitespace";
            return (0, Err(text));
        }
        let comment_len = self.skip_while_non_breakz();
        (blanks.count + comment_len, Ok(found))
    }

    #[inline]
    fn next_can_be_plain_scalar(&self, in_flow: bool) -> bool {
        match first_char(self.rest) {
            ':' => {
                let next = second_char(self.rest);
                !(is_blank_or_breakz(next) || in_flow && is_flow(next))
            }
            '\u{FEFF}' => false,
            c => !(in_flow && is_flow(c)),
        }
    }

    #[inline]
    fn next_is_blank_or_break(&self) -> bool {
        let c = first_byte(self.rest);
        is_blank(c) || is_break(c)
    }

    #[inline]
    fn next_is_blank_or_breakz(&self) -> bool {
        is_blank_or_breakz(first_byte(self.rest))
    }

    #[inline]
    fn next_is_blank(&self) -> bool {
        is_blank(first_byte(self.rest))
    }

    #[inline]
    fn next_is_break(&self) -> bool {
        is_break(first_byte(self.rest))
    }

    #[inline]
    fn next_is_breakz(&self) -> bool {
        is_breakz(first_byte(self.rest))
    }

    #[inline]
    fn next_is_z(&self) -> bool {
        is_z(first_byte(self.rest))
    }

    #[inline]
    fn next_is_flow(&self) -> bool {
        is_flow(first_byte(self.rest))
    }

    #[inline]
    fn next_is_digit(&self) -> bool {
        is_digit(first_byte(self.rest))
    }

    #[inline]
    fn next_is_alpha(&self) -> bool {
        is_alpha(first_byte(self.rest))
    }

    fn skip_while_non_breakz(&mut self) -> usize {
        self.lookahead(1);
        let (count, rest) = run::<NonBreak>(self.rest);
        self.rest = rest;
        count
    }

    #[inline]
    fn skip_while_blank(&mut self) -> usize {
        self.lookahead(1);
        let (count, rest) = ascii_run::<Blank>(self.rest);
        self.rest = rest;
        count
    }

    fn skip_while<C: CharSet>(&mut self) -> usize {
        self.lookahead(1);
        let (count, rest) = run::<C>(self.rest);
        self.rest = rest;
        count
    }

    #[inline]
    fn fetch_while_is_alpha(&mut self, out: &mut String) -> Result<usize, AllocError> {
        self.lookahead(1);
        let (count, rest) = ascii_run::<Alpha>(self.rest);
        self.fetch(count, rest, out)
    }

    fn fetch_while_is_yaml_non_space(&mut self, out: &mut String) -> Result<usize, AllocError> {
        self.lookahead(1);
        let (count, rest) = run::<NonSpace>(self.rest);
        self.fetch(count, rest, out)
    }

    fn fetch_while<C: CharSet>(&mut self, out: &mut String) -> Result<usize, AllocError> {
        self.lookahead(1);
        let (count, rest) = run_here::<C>(self.rest);
        self.fetch(count, rest, out)
    }

    #[inline(always)]
    fn fetch_words<C: WordSet>(&mut self, out: &mut String) -> Result<(usize, char), AllocError> {
        self.lookahead(1);
        let (count, rest) = words::<C>(self.rest);
        self.fetch(count, rest, out)?;
        Ok((count, first_char(rest)))
    }

    #[inline]
    fn skip_spaces(&mut self, most: usize) -> usize {
        let count = leading_spaces(self.rest.as_bytes(), most);
        self.rest = &self.rest[count..];
        count
    }
}
