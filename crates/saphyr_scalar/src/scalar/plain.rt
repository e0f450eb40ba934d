//! Plain scalars, taken off a text word by word, with their lines folded on the way (YAML 1.2.2, 7.3.3 and 6.5).

mod gap;
mod words;

ghost use Rattle.std.specs.Prelude.{◌≡◌, ◌≤◌, slice_index, string_bytes, false, true};
ghost use Rattle.std.specs.String.Boundary.{IsSplitPoint};
ghost use Rattle.saphyr_input.specs.Classes as class;
ghost use Rattle.saphyr_scalar.specs.Steps.Plain as spec;
ghost use Rattle.saphyr_scalar.specs.Steps.PlainLines as lines;

use crate::scalar::fault::{FaultText, Refusal, Stop};
use crate::scalar::plain::gap::is_blank_or_break;
use crate::scalar::position::Marker;
use crate::scalar::reader::Reader;
use saphyr_input::char_traits::{is_blank, is_break};
use saphyr_input::input::Input;

/// How a plain scalar ended, whose text was put behind another.
#[derive(Clone, Copy)]
pub struct PlainEnd {
    /// The place after its last word.
    pub end: Marker,
    /// The `#` of a comment that ended the scalar outside flow. The next line must not go on with
    /// the scalar.
    pub comment: Option<Marker>,
}

// Where a word of a plain scalar ended: its place, and how many bytes the text had. Also whether a tab is in the
// indentation of the line that the gap behind it reaches.
#[derive(Clone, Copy)]
struct WordEnd {
    mark: Marker,
    len: usize,
    tabbed: bool,
}

impl<T: Input> Reader<T> {
    ghost use Rattle.saphyr_scalar.specs.Views.Reader.{cursor_of, loaded, GivesBy, WritesBy};

    // Whether another word of a plain scalar begins after a gap.
    #[inline(always)]
    #[tactic(auto, unfolding(crate::specs::Steps::Plain::next_word_starts))]
    fn next_plain_word_starts(&mut self, in_flow: bool, indent: usize) -> Result<bool, Refusal>
        ensures { GivesBy (spec.next_word_starts in_flow indent) self.old result self.new }
    {
        if self.blank_so_far && !in_flow && self.mark.col < indent {
            return Ok(false);
        }
        self.plain_word_starts(in_flow)
    }

    // The comment after a scalar that keeps it from going on in the next line.
    #[inline(always)]
    #[tactic(auto, unfolding(crate::specs::Steps::Plain::comment_of))]
    fn plain_comment(&mut self, in_flow: bool, tabbed: bool) -> Option<Marker>
        ensures value { result ≡ spec.comment_of in_flow tabbed (cursor_of self.old) }
        ensures same { cursor_of self.new ≡ cursor_of self.old }
    {
        if !in_flow && self.look() == '#' && (tabbed || !self.blank_so_far) {
            Some(self.mark)
        } else {
            None
        }
    }

    // Moves what is left of a plain scalar behind a gap to the end of its text, which has what the gap reads as at its
    // end. Takes that off the text again where no word follows.
    #[inline(never)]
    fn read_plain_behind(
        &mut self,
        in_flow: bool,
        indent: usize,
        start: Marker,
        mut word_end: WordEnd,
        text: &mut String,
    ) -> Result<PlainEnd, Stop>
        requires { IsSplitPoint (string_bytes text.old) word_end.len }
        ensures { WritesBy spec.seen_plain_end (λ before s. spec.scalar_behind_gap in_flow indent
            start word_end.len word_end.mark word_end.tabbed before s) text.old self.old result
            text.new self.new }
    {
        loop {
            if !self.next_plain_word_starts(in_flow, indent)? {
                text.truncate(word_end.len);
                let comment = self.plain_comment(in_flow, word_end.tabbed);
                let end = word_end.mark;
                return Ok(PlainEnd { end, comment });
            }
            self.read_plain_words(in_flow, text)?;
            let mark = self.mark;
            let len = text.len();
            let tabbed = self.read_word_gap(indent, start, text)?;
            word_end = WordEnd { mark, len, tabbed };
        }
    }

    // Moves what is left of a plain scalar after a word to the end of its text, and takes off the blanks
    // and breaks after it.
    #[inline(never)]
    fn read_plain_rest(
        &mut self,
        in_flow: bool,
        indent: usize,
        start: Marker,
        text: &mut String,
    ) -> Result<PlainEnd, Stop>
        requires ended { spec.is_in_word in_flow (cursor_of self.old).rest ≡ false }
        requires on_line { (cursor_of self.old).blank_so_far ≡ false }
        ensures { WritesBy spec.seen_plain_end (λ before s. spec.with_text before
            (spec.word in_flow indent start s.mark s.rest)) text.old self.old result text.new
            self.new }
    {
        let mark = self.mark;
        let len = text.len();
        let tabbed = self.read_word_gap(indent, start, text)?;
        let word_end = WordEnd { mark, len, tabbed };
        self.read_plain_behind(in_flow, indent, start, word_end, text)
    }

    // Moves what is left of a plain scalar after a line's break and maybe spaces to the end of its text,
    // and takes off the blanks and breaks after it.
    #[inline(never)]
    fn read_plain_lines(
        &mut self,
        in_flow: bool,
        indent: usize,
        start: Marker,
        mark: Marker,
        text: &mut String,
    ) -> Result<PlainEnd, Stop>
        requires { (cursor_of self.old).blank_so_far ≡ true }
        ensures { WritesBy spec.seen_plain_end (λ before s. spec.with_text before
            (lines.scalar_behind_line in_flow indent start mark s)) text.old self.old result
            text.new self.new }
    {
        let len = text.len();
        let tabbed = self.read_folded_lines(indent, start, text)?;
        let word_end = WordEnd { mark, len, tabbed };
        self.read_plain_behind(in_flow, indent, start, word_end, text)
    }

    // Whether this place, where `c` is, is left of where a scalar outside flow can go on.
    #[inline(always)]
    fn is_left_of_plain(&self, c: char, in_flow: bool, indent: usize) -> bool
        requires { c ≡ slice_index (cursor_of self.now).rest 0 }
        ensures { result ≡ lines.is_left_of_scalar in_flow indent (cursor_of self.now) }
    {
        !in_flow && self.mark.col < indent && !is_blank_or_break(c)
    }

    // Whether a plain scalar ends with the word before `c`, the first character, as most do: `c` is neither a blank nor
    // a break, or it is a break and the next line begins left of `indent`. Takes off a break and the spaces after it.
    #[inline(always)]
    fn ends_plain(&mut self, c: char, in_flow: bool, indent: usize) -> bool
        requires first { c ≡ slice_index (cursor_of self.old).rest 0 }
        requires loaded { 1 ≤ loaded self.old }
        ensures value { result ≡ lines.ends_at_once in_flow indent (cursor_of self.old) }
        ensures passed { cursor_of self.new ≡ lines.behind_break (cursor_of self.old) }
    {
        if !is_break(c) {
            return !is_blank(c);
        }
        self.skip_seen_break(c);
        let next = self.look_behind_spaces();
        self.is_left_of_plain(next, in_flow, indent)
    }

    // Moves what is left of a plain scalar behind a word that ended at `end`, before `c`, to the end of its text. A
    // break that stood there, and the spaces after it, were taken off.
    //
    // It is separate for speed: the places for what it reads are cleared here, and not for each scalar.
    #[inline(never)]
    fn read_plain_on(
        &mut self,
        c: char,
        in_flow: bool,
        indent: usize,
        start: Marker,
        end: Marker,
        text: &mut String,
    ) -> Result<PlainEnd, Stop>
        requires lines { class.is_break c ≡ true → (cursor_of self.old).blank_so_far ≡ true }
        requires ended { class.is_break c ≡ false
            → spec.is_in_word in_flow (cursor_of self.old).rest ≡ false }
        requires on_line { class.is_break c ≡ false → (cursor_of self.old).blank_so_far ≡ false }
        ensures { WritesBy spec.seen_plain_end
            (λ before s. spec.with_text before
            (lines.scalar_behind_word (class.is_break c) in_flow indent start end s))
            text.old self.old result text.new self.new }
    {
        if is_break(c) {
            return self.read_plain_lines(in_flow, indent, start, end, text);
        }
        self.read_plain_rest(in_flow, indent, start, text)
    }

    /// Takes off a plain scalar, inside flow or outside, and the blanks and breaks after it (YAML
    /// 1.2.2, 7.3.3). Its text has its lines folded (6.5).
    ///
    /// `indent` is the first column to the right of the enclosing block collection, or 0 if there
    /// is none. The scalar ends before `: `, a comment, a document marker, NUL, a byte order mark
    /// and the end. Inside flow it also ends before a flow indicator and a colon before one, and
    /// outside flow before a line whose content is left of `indent`.
    ///
    /// Inside flow a `-` before a flow indicator is refused at its own place. On a line after the
    /// first, only a comment or nothing may follow a tab left of `indent`: other text is refused at
    /// the scalar's start, and a byte order mark at its own place. If no word of a scalar begins
    /// here, that is refused.
    ///
    /// The text is put behind another. After an error nothing is known of what is left of that text.
    #[inline(always)]
    pub fn read_plain_onto(
        &mut self,
        in_flow: bool,
        indent: usize,
        text: &mut String,
    ) -> Result<PlainEnd, Stop>
        ensures { WritesBy spec.seen_plain_end
            (λ before s. spec.with_text before (spec.plain in_flow indent s))
            text.old self.old result text.new self.new }
    {
        let start = self.mark;
        if !self.plain_word_starts(in_flow)? {
            return Err(Stop::Refused(Refusal {
                text: FaultText::PlainEnd,
                mark: start,
                may_change: self.is_at_open_end(),
            }));
        }
        let c = self.read_plain_words(in_flow, text)?;
        let end = self.mark;
        // Most end right before a colon, a comma or a bracket, or with their line.
        if self.ends_plain(c, in_flow, indent) {
            let comment = None;
            return Ok(PlainEnd { end, comment });
        }
        // For speed the result is taken apart: otherwise it would be in memory on the frequent way too.
        let rest = self.read_plain_on(c, in_flow, indent, start, end, text)?;
        let (end, comment) = (rest.end, rest.comment);
        Ok(PlainEnd { end, comment })
    }
}
