//! The characters of a text, read from the front through a window.
ghost use Rattle.std.specs.Prelude.{◌≡◌, ℕ, ◌+◌, ◌<◌, ◌≤◌, ◌^◌, ◌==◌, ◌↔◌, false, List, length, take, drop, max, slice_get, slice_index, codes, string_bytes, IsTrue, IsErr, IfErr, IfOk, IfNone, IfSome, OnErr, is_some};
ghost use Rattle.std.specs.List.{prefix_len};
ghost use Rattle.saphyr_input.specs.Classes as class;
ghost use Rattle.saphyr_input.specs.Places as spec;

mod buffered;
mod cloning;
pub(crate) mod str;

use crate::char_set::{Alpha, Blank, CharSet, NonBreak, NonSpace, WordSet, goes_on};
pub use crate::char_traits::{
    is_alpha, is_blank, is_blank_or_breakz, is_break, is_breakz, is_digit, is_flow, is_z,
};
pub use buffered::{BufferedInput, FaithfulClone};
pub use cloning::CloneInput;
use std::alloc::AllocError;

/// The characters of a text. A scanner takes them off the front.
///
/// Contracts see an input as the list of the characters that remain, `rest`, and as how many
/// places of it are `loaded`, at most `window`. A call that looks at a place requires that it is
/// loaded. Places past the end of the list can be loaded too, and read as NUL. To take characters
/// off there leaves the list empty. All counts are counts of characters.
///
/// Ten of the first eleven calls have no default body. An implementation that meets their contracts gets
/// all other calls by default bodies, and may override these for speed.
pub trait Input {
    ghost use Rattle.saphyr_input.specs.Separation as separation;

    /// The characters that remain.
    ghost rest: { Self → List ℕ };

    /// How many places are loaded.
    ghost loaded: { Self → ℕ };

    /// How many places can be loaded at once.
    ghost window: { ℕ };

    /// Loads at least `count` places. Places that are already loaded stay so.
    fn lookahead(&mut self, count: usize)
        requires { count ≤ window }
        ensures rest { rest self.new ≡ rest self.old }
        ensures loaded { loaded self.new ≡ max count (loaded self.old) }
        ensures countable { length (rest self.new) < 2 ^ 63 };

    /// How many places are loaded.
    fn buflen(&self) -> usize
        ensures loaded { result ≡ loaded self.now }
        ensures within { result ≤ window };

    /// How many places can be loaded at once: a constant of the type, at least 8.
    fn bufmaxlen(&self) -> usize
        ensures window { result ≡ window }
        ensures least { 8 ≤ result };

    /// Whether no place is loaded.
    fn buf_is_empty(&self) -> bool
        ensures { result ≡ (loaded self.now == 0) }
    {
        self.buflen() == 0
    }

    /// Takes the first character off an input with no loaded place. At the end it returns NUL.
    fn raw_read_ch(&mut self) -> char
        requires { loaded self.old ≡ 0 }
        ensures value { result ≡ slice_index (rest self.old) 0 }
        ensures rest { rest self.new ≡ drop 1 (rest self.old) }
        ensures loaded { loaded self.new ≡ 0 };

    /// Takes the first character off an input with no loaded place, unless it is NUL, a break or the byte order
    /// mark. Then nothing is taken, and one place may be loaded.
    fn raw_read_non_breakz_ch(&mut self) -> Option<char>
        requires { loaded self.old ≡ 0 }
        ensures taken { is_some result ≡ class.is_yaml_non_break (slice_index (rest self.old) 0) }
        ensures some { IfSome result (λ c. (c ≡ slice_index (rest self.old) 0)
            × (rest self.new ≡ drop 1 (rest self.old)) × (loaded self.new ≡ 0)) }
        ensures none { IfNone result ((rest self.new ≡ rest self.old) × (loaded self.new ≤ 1)) };

    /// Takes the first character off, if there is one.
    fn skip(&mut self)
        requires { 1 ≤ loaded self.old }
        ensures rest { rest self.new ≡ drop 1 (rest self.old) }
        ensures loaded { loaded self.old ≤ loaded self.new + 1 };

    /// Takes `count` characters off, or all if there are fewer.
    fn skip_n(&mut self, count: usize)
        requires { count ≤ loaded self.old }
        ensures rest { rest self.new ≡ drop count (rest self.old) }
        ensures loaded { loaded self.old ≤ loaded self.new + count };

    /// The first character, or NUL at the end.
    fn peek(&self) -> char
        requires { 1 ≤ loaded self.now }
        ensures { result ≡ slice_index (rest self.now) 0 };

    /// The character at place `n`, counted from 0, or NUL past the end.
    fn peek_nth(&self, n: usize) -> char
        requires { n < loaded self.now }
        ensures { result ≡ slice_index (rest self.now) n };

    /// The first character, or `None` at the end. A NUL in the text is `Some`.
    fn peek_opt(&self) -> Option<char>
        requires { 1 ≤ loaded self.now }
        ensures { result ≡ slice_get (rest self.now) 0 };

    /// Takes a character off that is ASCII.
    fn skip_ascii(&mut self)
        requires loaded { 1 ≤ loaded self.old }
        requires some { 0 < length (rest self.old) }
        requires ascii { slice_index (rest self.old) 0 < 128 }
        ensures rest { rest self.new ≡ drop 1 (rest self.old) }
        ensures loaded { loaded self.old ≤ loaded self.new + 1 }
    {
        self.skip();
    }

    /// Loads one place, and returns what [`peek`](Input::peek) returns.
    fn look_ch(&mut self) -> char
        ensures value { result ≡ slice_index (rest self.old) 0 }
        ensures rest { rest self.new ≡ rest self.old }
        ensures loaded { loaded self.new ≡ max 1 (loaded self.old) }
        ensures countable { length (rest self.new) < 2 ^ 63 }
    {
        self.lookahead(1);
        self.peek()
    }

    /// Whether the first place reads as `c`.
    fn next_char_is(&self, c: char) -> bool
        requires { 1 ≤ loaded self.now }
        ensures { result ≡ (slice_index (rest self.now) 0 == c) }
    {
        self.peek() == c
    }

    /// Whether place `n`, counted from 0, reads as `c`.
    fn nth_char_is(&self, n: usize, c: char) -> bool
        requires { n < loaded self.now }
        ensures { result ≡ (slice_index (rest self.now) n == c) }
    {
        self.peek_nth(n) == c
    }

    /// Whether the first two places read as these characters. At the end they read as NUL.
    fn next_2_are(&self, c1: char, c2: char) -> bool
        requires { 2 ≤ loaded self.now }
        ensures { result ≡ spec.next_2_are (rest self.now) c1 c2 }
    {
        self.next_char_is(c1) && self.nth_char_is(1, c2)
    }

    /// Whether the first three places read as these characters. At the end they read as NUL.
    fn next_3_are(&self, c1: char, c2: char, c3: char) -> bool
        requires { 3 ≤ loaded self.now }
        ensures { result ≡ spec.next_3_are (rest self.now) c1 c2 c3 }
    {
        self.next_2_are(c1, c2) && self.nth_char_is(2, c3)
    }

    /// Whether `---` or `...` comes next, and after it a blank, a break, NUL or the end. The
    /// caller has to know whether this is the start of a line.
    #[inline]
    fn next_is_document_indicator(&self) -> bool
        requires { 4 ≤ loaded self.now }
        ensures { result ≡ spec.is_document_indicator (rest self.now) }
    {
        self.next_is_document_start() || self.next_is_document_end()
    }

    /// Whether `---` comes next, and after it a blank, a break, NUL or the end.
    fn next_is_document_start(&self) -> bool
        requires { 4 ≤ loaded self.now }
        ensures { result ≡ spec.is_document_start (rest self.now) }
    {
        self.next_3_are('-', '-', '-') && is_blank_or_breakz(self.peek_nth(3))
    }

    /// Whether `...` comes next, and after it a blank, a break, NUL or the end.
    fn next_is_document_end(&self) -> bool
        requires { 4 ≤ loaded self.now }
        ensures { result ≡ spec.is_document_end (rest self.now) }
    {
        self.next_3_are('.', '.', '.') && is_blank_or_breakz(self.peek_nth(3))
    }

    /// Takes blanks off, and a comment after them, up to a break, NUL, a byte order mark or the end.
    ///
    /// Returns how many characters were taken, and which blanks were met. A `#` begins no comment
    /// if no blank was taken before it: then nothing is taken, and the error says so.
    fn skip_ws_to_eol(&mut self, skip_tabs: SkipTabs) -> (usize, Result<SkipTabs, &'static str>)
        requires { separation.IsRequest skip_tabs }
        ensures count { result.0 ≡ separation.separation_len skip_tabs (rest self.old) }
        ensures refused { IsErr result.1 ↔ IsTrue (separation.is_bare_comment skip_tabs
            (rest self.old)) }
        ensures found { IfOk result.1 (λ found. found
            ≡ separation.found_blanks skip_tabs (rest self.old)) }
        ensures text { IfErr result.1 (λ text. text.now
            ≡ codes "comments must be separated from other tokens by whitespace") }
        ensures rest { rest self.new ≡ drop result.0 (rest self.old) }
        ensures loaded { 1 ≤ loaded self.new }
    {
        let mut tabs = false;
        let mut spaces = false;
        let mut count = 0;
        let mut c = self.look_ch();
        while skip_tabs.skips(c) {
            tabs |= c == '\t';
            spaces |= c == ' ';
            self.skip();
            count += 1;
            c = self.look_ch();
        }
        if c == '#' {
            if count == 0 {
                let text = "comments must be separated from other tokens by whitespace";
                return (0, Err(text));
            }
            count += self.skip_while_non_breakz();
        }
        (count, Ok(SkipTabs::Result(tabs, spaces)))
    }

    /// Whether a plain scalar, inside flow or outside, goes on with the first character, which must
    /// be no blank, break or NUL (YAML 1.2.2, 7.3.3).
    fn next_can_be_plain_scalar(&self, in_flow: bool) -> bool
        requires { 2 ≤ loaded self.now }
        ensures { result ≡ spec.can_be_plain in_flow (rest self.now) }
    {
        match self.peek() {
            ':' => {
                let next = self.peek_nth(1);
                !(is_blank_or_breakz(next) || in_flow && is_flow(next))
            }
            '\u{FEFF}' => false,
            c => !(in_flow && is_flow(c)),
        }
    }

    /// Whether the first character is a blank or a break.
    fn next_is_blank_or_break(&self) -> bool
        requires { 1 ≤ loaded self.now }
        ensures { result ≡ spec.is_blank_or_break (slice_index (rest self.now) 0) }
    {
        let c = self.peek();
        is_blank(c) || is_break(c)
    }

    /// Whether the first character is a blank, a break, NUL or the end.
    fn next_is_blank_or_breakz(&self) -> bool
        requires { 1 ≤ loaded self.now }
        ensures { result ≡ class.is_blank_or_breakz (slice_index (rest self.now) 0) }
    {
        is_blank_or_breakz(self.peek())
    }

    /// Whether the first character is a blank.
    #[inline]
    fn next_is_blank(&self) -> bool
        requires { 1 ≤ loaded self.now }
        ensures { result ≡ class.is_blank (slice_index (rest self.now) 0) }
    {
        is_blank(self.peek())
    }

    /// Whether the first character is a break.
    fn next_is_break(&self) -> bool
        requires { 1 ≤ loaded self.now }
        ensures { result ≡ class.is_break (slice_index (rest self.now) 0) }
    {
        is_break(self.peek())
    }

    /// Whether the first character is a break, NUL or the end.
    fn next_is_breakz(&self) -> bool
        requires { 1 ≤ loaded self.now }
        ensures { result ≡ class.is_breakz (slice_index (rest self.now) 0) }
    {
        is_breakz(self.peek())
    }

    /// Whether NUL or the end comes first.
    fn next_is_z(&self) -> bool
        requires { 1 ≤ loaded self.now }
        ensures { result ≡ class.is_z (slice_index (rest self.now) 0) }
    {
        is_z(self.peek())
    }

    /// Whether the first character is a flow indicator.
    fn next_is_flow(&self) -> bool
        requires { 1 ≤ loaded self.now }
        ensures { result ≡ class.is_flow (slice_index (rest self.now) 0) }
    {
        is_flow(self.peek())
    }

    /// Whether the first character is a decimal digit.
    fn next_is_digit(&self) -> bool
        requires { 1 ≤ loaded self.now }
        ensures { result ≡ class.is_digit (slice_index (rest self.now) 0) }
    {
        is_digit(self.peek())
    }

    /// Whether the first character is a digit, an ASCII letter, `_` or `-`.
    fn next_is_alpha(&self) -> bool
        requires { 1 ≤ loaded self.now }
        ensures { result ≡ class.is_alpha (slice_index (rest self.now) 0) }
    {
        is_alpha(self.peek())
    }

    /// Takes characters off up to a break, NUL, a byte order mark or the end. Returns how many.
    fn skip_while_non_breakz(&mut self) -> usize
        ensures count { result ≡ prefix_len class.is_yaml_non_break (rest self.old) }
        ensures rest { rest self.new ≡ drop result (rest self.old) }
        ensures loaded { 1 ≤ loaded self.new }
    {
        self.skip_while::<NonBreak>()
    }

    /// Takes blanks off. Returns how many.
    fn skip_while_blank(&mut self) -> usize
        ensures count { result ≡ prefix_len class.is_blank (rest self.old) }
        ensures rest { rest self.new ≡ drop result (rest self.old) }
        ensures loaded { 1 ≤ loaded self.new }
    {
        self.skip_while::<Blank>()
    }

    /// Takes characters of a set off. Returns how many.
    fn skip_while<C: CharSet>(&mut self) -> usize
        ensures count { result ≡ prefix_len C.test (rest self.old) }
        ensures rest { rest self.new ≡ drop result (rest self.old) }
        ensures loaded { 1 ≤ loaded self.new }
    {
        let mut count = 0;
        let mut c = self.look_ch();
        while C::has(c) {
            self.skip();
            count += 1;
            c = self.look_ch();
        }
        count
    }

    /// Moves digits, ASCII letters, `_` and `-` to the end of `out`. Returns how many.
    ///
    /// If `out` can't grow, exactly the characters that were appended have been taken off.
    fn fetch_while_is_alpha(&mut self, out: &mut String) -> Result<usize, AllocError>
        ensures ok { IfOk result (λ n. spec.TransfersRun class.is_alpha n (rest self.old)
            (rest self.new) (string_bytes out.old) (string_bytes out.new)) }
        ensures err { OnErr result (spec.TransfersPart (prefix_len class.is_alpha (rest self.old))
            (rest self.old) (rest self.new) (string_bytes out.old) (string_bytes out.new)) }
        ensures loaded { 1 ≤ loaded self.new }
    {
        self.fetch_while::<Alpha>(out)
    }

    /// Moves characters that are no blank, break, NUL or byte order mark to the end of `out`.
    /// Returns how many.
    ///
    /// If `out` can't grow, exactly the characters that were appended have been taken off.
    fn fetch_while_is_yaml_non_space(&mut self, out: &mut String) -> Result<usize, AllocError>
        ensures ok { IfOk result (λ n. spec.TransfersRun class.is_yaml_non_space n (rest self.old)
            (rest self.new) (string_bytes out.old) (string_bytes out.new)) }
        ensures err { OnErr result (spec.TransfersPart
            (prefix_len class.is_yaml_non_space (rest self.old)) (rest self.old) (rest self.new)
            (string_bytes out.old) (string_bytes out.new)) }
        ensures loaded { 1 ≤ loaded self.new }
    {
        self.fetch_while::<NonSpace>(out)
    }

    /// Moves characters of a set to the end of `out`. Returns how many.
    ///
    /// If `out` can't grow, exactly the characters that were appended have been taken off.
    fn fetch_while<C: CharSet>(&mut self, out: &mut String) -> Result<usize, AllocError>
        ensures ok { IfOk result (λ n. spec.TransfersRun C.test n (rest self.old) (rest self.new)
            (string_bytes out.old) (string_bytes out.new)) }
        ensures err { OnErr result (spec.TransfersPart
            (prefix_len C.test (rest self.old)) (rest self.old) (rest self.new)
            (string_bytes out.old) (string_bytes out.new)) }
        ensures loaded { 1 ≤ loaded self.new }
    {
        let mut count = 0;
        let mut c = self.look_ch();
        while C::has(c) {
            out.push(c)?;
            self.skip();
            count += 1;
            c = self.look_ch();
        }
        Ok(count)
    }

    /// Moves characters of a set to the end of `out`, and those that join them. Returns how many, and what follows.
    ///
    /// If `out` can't grow, exactly the characters that were appended have been taken off.
    fn fetch_words<C: WordSet>(&mut self, out: &mut String) -> Result<(usize, char), AllocError>
        ensures ok { IfOk result (λ moved. spec.TransfersWords C.CharSet.test C.joint moved.0
            (rest self.old) (rest self.new) (string_bytes out.old) (string_bytes out.new)) }
        ensures next { IfOk result (λ moved. moved.1 ≡ slice_index (rest self.new) 0) }
        ensures err { OnErr result (spec.TransfersPart
            (spec.words_len C.CharSet.test C.joint (rest self.old)) (rest self.old) (rest self.new)
            (string_bytes out.old) (string_bytes out.new)) }
        ensures loaded { 1 ≤ loaded self.new }
    {
        let mut count = 0;
        self.lookahead(2);
        let mut c = self.peek();
        while goes_on::<C>(c, self.peek_nth(1)) {
            out.push(c)?;
            self.skip();
            count += 1;
            self.lookahead(2);
            c = self.peek();
        }
        Ok((count, c))
    }

    /// Takes spaces off, but no more than `most`. Returns how many.
    fn skip_spaces(&mut self, most: usize) -> usize
        ensures count { result ≡ spec.spaces_within most (rest self.old) }
        ensures rest { rest self.new ≡ drop result (rest self.old) }
    {
        let mut count = 0;
        while count < most {
            if self.look_ch() != ' ' {
                break;
            }
            self.skip();
            count += 1;
        }
        count
    }

    /// At least 8 places can be loaded at once.
    ghost wide: { 8 ≤ window };
}

/// What to do with tabs in white space that is skipped, and what was met in it.
#[derive(Clone, Copy, Debug, PartialEq, Eq)]
pub enum SkipTabs {
    /// Tabs are skipped as spaces are.
    Yes,
    /// A tab ends the white space.
    No,
    /// What was met: whether tabs, and whether spaces.
    Result(bool, bool),
}

impl SkipTabs {
    ghost use Rattle.saphyr_input.specs.Separation as separation;

    // Whether a character is skipped as white space.
    #[inline]
    pub(crate) fn skips(self, c: char) -> bool
        ensures { result ≡ separation.is_skipped self c }
    {
        c == ' ' || c == '\t' && self == SkipTabs::Yes
    }

    /// Whether tabs were met. False for a value that [`skip_ws_to_eol`](Input::skip_ws_to_eol) doesn't return.
    pub fn found_tabs(self) -> bool
        ensures { result ≡ separation.found_tabs self }
    {
        matches!(self, SkipTabs::Result(true, _))
    }

    /// Whether spaces were met, which are white space everywhere in YAML. False for a value that
    /// [`skip_ws_to_eol`](Input::skip_ws_to_eol) doesn't return.
    pub fn has_valid_yaml_ws(self) -> bool
        ensures { result ≡ separation.has_valid_yaml_ws self }
    {
        matches!(self, SkipTabs::Result(_, true))
    }
}
