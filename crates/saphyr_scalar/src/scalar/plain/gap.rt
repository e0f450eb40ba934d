//! What is between two words of a plain scalar: blanks, or line breaks and empty lines, which are folded (YAML
//! 1.2.2, 7.3.3 and 6.5).

ghost use Rattle.std.specs.Prelude.{◌≡◌, ◌≤◌, slice_index, true};
ghost use Rattle.saphyr_input.specs.Places as place;
ghost use Rattle.saphyr_scalar.specs.Steps.Plain as spec;

use crate::scalar::fault::{FaultText, Refusal, Stop};
use crate::scalar::position::Marker;
use crate::scalar::reader::Reader;
use saphyr_input::char_traits::{is_blank, is_bom, is_break, is_z};
use saphyr_input::input::Input;

// Whether a character is a blank or a break.
#[inline]
pub(super) fn is_blank_or_break(c: char) -> bool
    ensures { result ≡ place.is_blank_or_break c }
{
    is_blank(c) || is_break(c)
}

impl<T: Input> Reader<T> {
    ghost use Rattle.saphyr_scalar.specs.Views.Reader.{cursor_of, loaded, PassesBy, WritesBy};

    // Whether the content of a line, after its blanks, is allowed there. If a tab is in the indentation, only a
    // comment is.
    #[tactic(auto, unfolding(crate::specs::Steps::Plain::content_behind_tab))]
    fn check_plain_tab(&mut self, start: Marker, tabbed: bool) -> Result<(), Refusal>
        ensures { PassesBy (spec.content_behind_tab start tabbed) self.old result self.new }
    {
        if !tabbed {
            return Ok(());
        }
        let c = self.look();
        if is_bom(c) {
            return Err(Refusal {
                text: FaultText::MisplacedByteOrderMark,
                mark: self.mark,
                may_change: false,
            });
        }
        if c != '#' && !is_z(c) {
            return Err(Refusal {
                text: FaultText::TabInsidePlain,
                mark: start,
                may_change: false,
            });
        }
        Ok(())
    }

    // Takes off `c`, a blank or a break of the lines after a word, and appends a line feed for the break to
    // a text. Returns whether a tab is in the indentation of the line that is reached.
    #[tactic(auto, unfolding(crate::specs::Steps::Plain::pass_white))]
    fn skip_plain_white(
        &mut self,
        c: char,
        indent: usize,
        tabbed: bool,
        feeds: &mut String,
    ) -> Result<bool, Stop>
        requires first { c ≡ slice_index (cursor_of self.old).rest 0 }
        requires loaded { 1 ≤ loaded self.old }
        requires white { place.is_blank_or_break (slice_index (cursor_of self.old).rest 0) ≡ true }
        ensures { WritesBy spec.seen_white (spec.white_onto indent tabbed) feeds.old self.old result
            feeds.new self.new }
    {
        if is_break(c) {
            self.skip_seen_break(c);
            feeds.push('\n')?;
            return Ok(false);
        }
        let in_indentation = c == '\t' && self.mark.col < indent;
        self.skip_blank();
        Ok(tabbed || in_indentation)
    }

    // Takes off blanks and breaks from the start of a line on, and appends a line feed for each such
    // line to a text. Returns whether a tab is in the indentation of the line that is reached. Then
    // that line is a comment or empty.
    #[inline(never)]
    pub(super) fn skip_empty_lines(
        &mut self,
        indent: usize,
        start: Marker,
        feeds: &mut String,
    ) -> Result<bool, Stop>
        requires { (cursor_of self.old).blank_so_far ≡ true }
        ensures { WritesBy spec.seen_gap (spec.feeds_onto indent start) feeds.old self.old result
            feeds.new self.new }
    {
        let mut tabbed = false;
        loop {
            let c = self.look_behind_spaces();
            if !is_blank_or_break(c) {
                break;
            }
            tabbed = self.skip_plain_white(c, indent, tabbed, feeds)?;
        }
        self.check_plain_tab(start, tabbed)?;
        Ok(tabbed)
    }

    // Takes off the lines after a break, from the start of the first on, up to what is on the line that is reached.
    // Appends what the break and these lines read as to a text. Returns whether a tab is in the indentation there.
    #[inline(always)]
    pub(super) fn read_folded_lines(
        &mut self,
        indent: usize,
        start: Marker,
        text: &mut String,
    ) -> Result<bool, Stop>
        requires { (cursor_of self.old).blank_so_far ≡ true }
        ensures { WritesBy spec.seen_gap
            (λ text s. spec.gap_onto text (spec.next_lines indent start s))
            text.old self.old result text.new self.new }
    {
        let before = text.len();
        let tabbed = self.skip_empty_lines(indent, start, text)?;
        if text.len() > before {
            return Ok(tabbed);
        }
        // A break before no empty line reads as a space.
        text.push(' ')?;
        Ok(tabbed)
    }

    // Takes off what follows a word, and appends what it reads as to a text. Returns whether a tab is in the
    // indentation of the line that is reached.
    #[inline(always)]
    pub(super) fn read_word_gap(
        &mut self,
        indent: usize,
        start: Marker,
        text: &mut String,
    ) -> Result<bool, Stop>
        ensures { WritesBy spec.seen_gap (λ text s. spec.gap_onto text (spec.gap indent start s))
            text.old self.old result text.new self.new }
    {
        let c = self.read_blanks(text)?;
        if !is_break(c) {
            return Ok(false);
        }
        self.skip_seen_break(c);
        self.read_folded_lines(indent, start, text)
    }
}
