//! The characters of a text with the place that is reached, and the steps over blanks, breaks and comments
//! (YAML 1.2.2, 5.4, 6.2 and 6.6).

ghost use Rattle.std.specs.Prelude.{◌≡◌, ℕ, ◌+◌, ◌-◌, ◌<◌, ◌≤◌, ◌^◌, ◌==◌, false, IsTrue, length, slice_index};
ghost use Rattle.saphyr_input.specs.Classes as class;
ghost use Rattle.saphyr_input.specs.Classes.{carriage_return};
ghost use Rattle.saphyr_input.specs.Separation as separation;
ghost use Rattle.saphyr_input.specs.declared.input.SkipTabs.{SkipTabs};
ghost use Rattle.saphyr_scalar.specs.Views.Cursor as spec;

use crate::scalar::fault::{FaultText, Refusal};
use crate::scalar::position::Marker;
use crate::scalar::spare::Spare;
use saphyr_input::char_traits::is_bom;
use saphyr_input::input::{CloneInput, Input, SkipTabs};
use std::alloc::AllocError;
use std::mem::replace;

/// The characters of a text, and the place that is reached in it.
///
/// Contracts see a reader as a cursor: the text that remains, the place where it begins, and
/// whether only blanks are before that place on its line.
#[derive(Drop)]
pub struct Reader<T: Input> {
    pub(crate) input: T,
    pub(crate) mark: Marker,
    pub(crate) blank_so_far: bool,
    /// The memory for the next text. No contract sees it.
    pub spare: Spare,
    ghost fits: { mark.index + length (T.rest input) < 2 ^ 64 },
    ghost column: { mark.col ≤ mark.index },
}

// If this is true, the character is no blank, `#` or byte order mark. This holds for most characters after a token.
#[inline(always)]
fn begins_no_separation(c: char) -> bool
    ensures skipped { IsTrue result → (tabs : SkipTabs) → separation.is_skipped tabs c ≡ false }
    ensures comment { IsTrue result → (c == 35) ≡ false }
    ensures mark { IsTrue result → class.is_bom c ≡ false }
{
    (c == '\n' || c > '#') && !is_bom(c)
}

impl<T: Input> Reader<T> {
    ghost use Rattle.saphyr_scalar.specs.Views.Reader.{cursor_of, loaded, GivesBy};

    /// A reader at the start of a text.
    pub fn new(mut input: T) -> Self
        ensures fresh { cursor_of result ≡ spec.start_cursor (T.rest input) }
        ensures countable { length (T.rest input) < 2 ^ 63 }
    {
        input.lookahead(1);
        Reader {
            input,
            mark: Marker::new(0, 1, 0),
            blank_so_far: true,
            spare: Spare::new(),
        }
    }

    /// Goes on at this place before the characters of another input. Returns the input that was there.
    pub fn exchange(&mut self, mut input: T) -> T
        requires { (cursor_of self.old).mark.index + length (T.rest input) < 2 ^ 64 }
        ensures cursor { cursor_of self.new ≡ record (cursor_of self.old) { rest = T.rest input } }
        ensures input { T.rest result ≡ (cursor_of self.old).rest }
    {
        input.lookahead(1);
        replace(&mut self.input, input)
    }

    /// The input, for its tests of what comes next.
    #[inline]
    pub fn input(&self) -> &T
        ensures { result.now ≡ self.now.input }
    {
        &self.input
    }

    /// The place that is reached.
    #[inline]
    pub fn mark(&self) -> Marker
        ensures value { result ≡ (cursor_of self.now).mark }
        ensures near { result.col + length (cursor_of self.now).rest < 2 ^ 64 }
    {
        self.mark
    }

    /// Whether only blanks are before the place on its line.
    #[inline]
    pub fn blank_so_far(&self) -> bool
        ensures { result ≡ (cursor_of self.now).blank_so_far }
    {
        self.blank_so_far
    }

    /// Loads `count` places.
    #[inline]
    pub fn load(&mut self, count: usize)
        requires { count ≤ 8 }
        ensures same { cursor_of self.new ≡ cursor_of self.old }
        ensures loaded { count ≤ loaded self.new }
    {
        self.input.lookahead(count);
    }

    /// The first character, or NUL at the end. One place is loaded.
    #[inline]
    pub fn look(&mut self) -> char
        ensures value { result ≡ slice_index (cursor_of self.old).rest 0 }
        ensures same { cursor_of self.new ≡ cursor_of self.old }
        ensures loaded { 1 ≤ loaded self.new }
    {
        self.input.look_ch()
    }

    /// Takes off a character that is no blank.
    #[inline]
    pub fn skip_non_blank(&mut self)
        requires { 0 < length (cursor_of self.old).rest }
        ensures { cursor_of self.new ≡ spec.pass 1 (cursor_of self.old) }
    {
        self.skip_n_non_blank(1);
    }

    /// Takes off `count` characters, none of them a blank.
    #[inline]
    pub fn skip_n_non_blank(&mut self, count: usize)
        requires near { count ≤ 8 }
        requires some { count ≤ length (cursor_of self.old).rest }
        ensures { cursor_of self.new ≡ spec.pass count (cursor_of self.old) }
    {
        self.input.lookahead(count);
        self.input.skip_n(count);
        self.mark = self.mark.along(count);
        self.blank_so_far = false;
    }

    /// Takes off two characters that are ASCII, of which the first is no blank.
    #[inline(always)]
    pub fn skip_two_ascii(&mut self)
        requires loaded { 2 ≤ loaded self.old }
        requires some { 2 ≤ length (cursor_of self.old).rest }
        requires ascii { (slice_index (cursor_of self.old).rest 0 < 128)
            × (slice_index (cursor_of self.old).rest 1 < 128) }
        ensures { cursor_of self.new ≡ spec.pass 2 (cursor_of self.old) }
    {
        self.input.skip_ascii();
        self.input.skip_ascii();
        self.mark = self.mark.along(2);
        self.blank_so_far = false;
    }

    /// Takes off a blank.
    #[inline]
    pub fn skip_blank(&mut self)
        requires { 0 < length (cursor_of self.old).rest }
        ensures { cursor_of self.new ≡ spec.pass_blanks 1 (cursor_of self.old) }
    {
        self.input.lookahead(1);
        self.input.skip();
        self.mark = self.mark.along(1);
    }

    /// Takes off the blanks that come first.
    #[inline]
    pub fn skip_blanks(&mut self)
        ensures { cursor_of self.new ≡ spec.pass_all_blanks (cursor_of self.old) }
    {
        let count = self.input.skip_while_blank();
        self.mark = self.mark.along(count);
    }

    /// Takes off spaces, but no more than `most`.
    #[inline(always)]
    pub fn skip_spaces(&mut self, most: usize)
        ensures { cursor_of self.new ≡ spec.pass_spaces most (cursor_of self.old) }
    {
        // On empty lines there is none.
        if self.look() == ' ' {
            let count = self.input.skip_spaces(most);
            self.mark = self.mark.along(count);
        }
    }

    // Takes off spaces, but no more than `most`, where mostly there are some.
    #[inline(always)]
    pub(crate) fn skip_indentation(&mut self, most: usize)
        ensures { cursor_of self.new ≡ spec.pass_spaces most (cursor_of self.old) }
    {
        let count = self.input.skip_spaces(most);
        self.mark = self.mark.along(count);
    }

    // Takes off spaces, and returns what follows them.
    #[inline(always)]
    pub(crate) fn look_behind_spaces(&mut self) -> char
        ensures value { result ≡ slice_index (cursor_of self.new).rest 0 }
        ensures passed { cursor_of self.new ≡ spec.pass_spaces (2 ^ 64 - 1) (cursor_of self.old) }
        ensures loaded { 1 ≤ loaded self.new }
    {
        let c = self.look();
        if c != ' ' {
            return c;
        }
        self.skip_indentation(usize::MAX);
        self.look()
    }

    /// Takes off a break, if one comes first: CR LF, CR or LF.
    #[inline(always)]
    pub fn skip_line_break(&mut self)
        ensures { cursor_of self.new ≡ spec.pass_break (cursor_of self.old) }
    {
        // Most breaks are line feeds, for which one look is enough.
        match self.input.look_ch() {
            '\n' => {
                self.input.skip_ascii();
                self.start_line(1);
            }
            '\r' => self.skip_carriage_return(),
            _ => {}
        }
    }

    /// Takes off a break, if `c` begins one: the first character, which was looked at.
    #[inline(always)]
    pub fn skip_seen_break(&mut self, c: char)
        requires first { c ≡ slice_index (cursor_of self.old).rest 0 }
        requires loaded { 1 ≤ loaded self.old }
        ensures { cursor_of self.new ≡ spec.pass_break (cursor_of self.old) }
    {
        if c == '\n' {
            self.input.skip_ascii();
            self.start_line(1);
        } else {
            self.skip_line_break();
        }
    }

    // Takes off CR, and an LF after it.
    #[inline(never)]
    fn skip_carriage_return(&mut self)
        requires { slice_index (cursor_of self.old).rest 0 ≡ carriage_return }
        ensures { cursor_of self.new ≡ spec.pass_break (cursor_of self.old) }
    {
        self.input.lookahead(2);
        if self.input.next_2_are('\r', '\n') {
            self.input.skip_n(2);
            self.start_line(2);
        } else {
            self.input.skip();
            self.start_line(1);
        }
    }

    // The place after a break that was taken off.
    #[inline]
    fn start_line(&mut self, count: usize)
        requires { (cursor_of self.old).mark.index + count + length (cursor_of self.old).rest
            < 2 ^ 64 }
        ensures { cursor_of self.new ≡ spec.begin_line count (cursor_of self.old) }
    {
        self.mark = self.mark.next_line(count);
        self.blank_so_far = true;
    }

    /// Takes off what comes before the next break, NUL, byte order mark or the end: a comment.
    pub fn skip_comment(&mut self)
        ensures { cursor_of self.new ≡ spec.pass_comment (cursor_of self.old) }
    {
        let count = self.input.skip_while_non_breakz();
        self.mark = self.mark.along(count);
    }

    /// Takes off a byte order mark at the start of a line, which has no column.
    pub fn skip_byte_order_mark(&mut self)
        requires { 0 < length (cursor_of self.old).rest }
        ensures { cursor_of self.new ≡ spec.pass_byte_order_mark (cursor_of self.old) }
    {
        self.input.lookahead(1);
        self.input.skip();
        self.mark.index += 1;
    }

    /// Takes off blanks and a comment after them, up to the end of the line, and returns which blanks were
    /// met.
    ///
    /// A `#` without a blank before it begins no comment and is refused at its own place. So is a
    /// byte order mark that is not at the start of the line.
    #[inline(always)]
    #[tactic(auto, unfolding(crate::specs::Views::Cursor::separation, crate::specs::Views::Cursor::behind_separation))]
    pub fn skip_ws_to_eol(&mut self, skip_tabs: SkipTabs) -> Result<SkipTabs, Refusal>
        requires { separation.IsRequest skip_tabs }
        ensures { GivesBy (spec.separation skip_tabs) self.old result self.new }
    {
        if begins_no_separation(self.look()) {
            return Ok(SkipTabs::Result(false, false));
        }
        let (count, found) = self.input.skip_ws_to_eol(skip_tabs);
        self.mark = self.mark.along(count);
        if self.mark.col > 0 && is_bom(self.look()) {
            return Err(self.refusal(FaultText::MisplacedByteOrderMark));
        }
        match found {
            Ok(found) => Ok(found),
            Err(_) => Err(self.refusal(FaultText::CommentWithoutWhitespace)),
        }
    }

    // A refusal at the place that is reached, whatever comes.
    #[inline]
    fn refusal(&self, text: FaultText) -> Refusal
        ensures text { result.text ≡ text }
        ensures mark { result.mark ≡ (cursor_of self.now).mark }
        ensures seen { result.may_change ≡ false }
    {
        Refusal {
            text,
            mark: self.mark,
            may_change: false,
        }
    }
}

impl<T: CloneInput> Reader<T> {
    ghost use Rattle.std.specs.Prelude.{IfOk};
    ghost use Rattle.saphyr_scalar.specs.Views.Reader.{cursor_of, loaded};

    /// An independent reader at the same place of the same text, unless memory runs out.
    pub fn try_clone(&self) -> Result<Self, AllocError>
        ensures same { IfOk result (λ copy. cursor_of copy ≡ cursor_of self.now) }
        ensures loaded { IfOk result (λ copy. loaded copy ≡ loaded self.now) }
    {
        Ok(Reader {
            input: self.input.clone()?,
            mark: self.mark,
            blank_so_far: self.blank_so_far,
            spare: Spare::new(),
        })
    }
}
