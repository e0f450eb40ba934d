//! What is between two words of a quoted scalar: blanks, or a line break, escaped or not, and the empty lines after it
//! (YAML 1.2.2, 7.3.1, 7.3.2 and 6.5).

ghost use Rattle.std.specs.Prelude.{◌≡◌, ℕ, Bool, false, ◌==◌, ◌<◌, ◌≤◌, ◌++◌, slice_index, string_bytes, encode_utf8_all, IfOk, OnOk, IsTrue};
ghost use Rattle.saphyr_input.specs.Classes as class;
ghost use Rattle.saphyr_input.specs.Indicators.{backslash, full_stop};
ghost use Rattle.saphyr_scalar.specs.Steps.Quoted as spec;
ghost use Rattle.saphyr_scalar.specs.Views.Cursor.{pass, pass_break};
ghost use Rattle.saphyr_scalar.specs.Values.Flow as flow;
ghost use Rattle.saphyr_scalar.specs.declared.values.Quote.TheVariants.{Double};

use crate::scalar::block::push_line_feeds;
use crate::scalar::fault::{FaultText, Refusal, Stop};
use crate::scalar::position::Marker;
use crate::scalar::reader::Reader;
use crate::values::Quote;
use saphyr_input::char_traits::{is_blank, is_break, is_z};
use saphyr_input::input::Input;
use std::alloc::AllocError;

// Appends what a line break and the empty lines after it read as to a text.
#[inline(always)]
fn push_folded_break(text: &mut String, escaped: bool, empty_lines: usize) -> Result<(), AllocError>
    ensures { OnOk result (string_bytes text.new
        ≡ string_bytes text.old ++ encode_utf8_all (spec.folded_break escaped empty_lines)) }
{
    if !escaped && empty_lines == 0 {
        return text.push(' ');
    }
    push_line_feeds(text, empty_lines)
}

// If this is true, a word or the closing quote may be at a column of a later line: the character, which is
// neither a blank nor a break, is not NUL and begins no document marker.
#[inline(always)]
fn is_later_word(c: char, col: usize, indent: usize) -> bool
    ensures { IsTrue result → (full_stop < c) × (indent ≤ col) }
{
    c > '.' && col >= indent
}

impl<T: Input> Reader<T> {
    ghost use Rattle.saphyr_scalar.specs.Views.Reader.{cursor_of, loaded, PassesBy, ReadsOn, IsNoLonger, IsShorter};

    // Takes off the empty lines, and the blanks before what follows them. Returns how many lines.
    #[inline(never)]
    fn skip_quoted_lines(&mut self, indent: usize) -> Result<usize, Refusal>
        ensures same { (quote : Quote) → (start : Marker) → (escaped : Bool)
            → spec.ReadsFurther result
            (λ n. spec.inner_text_at quote indent start (spec.over_lines escaped n)
            (cursor_of self.new)) (spec.inner_text_at quote indent start (spec.over_lines escaped 0)
            (cursor_of self.old)) }
        ensures no_blank { OnOk result (class.is_blank (slice_index (cursor_of self.new).rest 0)
            ≡ false) }
        ensures no_break { OnOk result (class.is_break (slice_index (cursor_of self.new).rest 0)
            ≡ false) }
        ensures shorter { OnOk result (IsNoLonger self.old self.new) }
    {
        let mut count = 0;
        loop {
            let c = self.look_behind_spaces();
            if is_break(c) {
                self.skip_seen_break(c);
                count += 1;
            } else if is_blank(c) {
                if c == '\t' && self.mark.col < indent {
                    return Err(Refusal {
                        text: FaultText::TabAsIndentation,
                        mark: self.mark,
                        may_change: false,
                    });
                }
                self.skip_blank();
            } else {
                return Ok(count);
            }
        }
    }

    // Whether a word or the closing quote may be here on a later line.
    #[inline(never)]
    #[tactic(auto, unfolding(crate::specs::Steps::Quoted::quoted_line))]
    fn check_quoted_line(&mut self, indent: usize, start: Marker) -> Result<(), Refusal>
        ensures { PassesBy (spec.quoted_line indent start) self.old result self.new }
    {
        self.load(4);
        let text = if self.mark.col == 0 && self.input.next_is_document_indicator() {
            FaultText::DocumentIndicatorInsideQuotes
        } else if self.input.next_is_z() {
            FaultText::EndInsideQuotes
        } else if self.mark.col < indent {
            FaultText::QuotedIndentation
        } else {
            return Ok(());
        };
        Err(Refusal {
            text,
            mark: start,
            may_change: self.is_at_open_end(),
        })
    }

    // Takes off the empty lines after a break, and the blanks before what follows them. Appends what the
    // break and these lines read as to a text, and returns the character that comes next.
    #[inline(never)]
    fn read_empty_quoted_lines(
        &mut self,
        escaped: bool,
        indent: usize,
        start: Marker,
        text: &mut String,
    ) -> Result<char, Stop>
        ensures same { (quote : Quote) → ReadsOn result
            (spec.with_front (string_bytes text.old)
            (spec.inner_text_at quote indent start (spec.over_lines escaped 0)
            (cursor_of self.old)))
            (spec.with_front (string_bytes text.new)
            (spec.inner_text_at quote indent start spec.no_gap (cursor_of self.new))) }
        ensures shorter { OnOk result (IsNoLonger self.old self.new) }
        ensures next { IfOk result (λ c. c ≡ slice_index (cursor_of self.new).rest 0) }
        ensures loaded { OnOk result (1 ≤ loaded self.new) }
    {
        let empty_lines = self.skip_quoted_lines(indent)?;
        self.check_quoted_line(indent, start)?;
        push_folded_break(text, escaped, empty_lines)?;
        Ok(self.look())
    }

    // Takes off the lines after a break, which mostly are none: then spaces are all that is taken off, and a look at
    // one character shows that the scalar goes on.
    #[inline(always)]
    fn read_quoted_lines(
        &mut self,
        escaped: bool,
        indent: usize,
        start: Marker,
        text: &mut String,
    ) -> Result<char, Stop>
        ensures same { (quote : Quote) → ReadsOn result
            (spec.with_front (string_bytes text.old)
            (spec.inner_text_at quote indent start (spec.over_lines escaped 0)
            (cursor_of self.old)))
            (spec.with_front (string_bytes text.new)
            (spec.inner_text_at quote indent start spec.no_gap (cursor_of self.new))) }
        ensures shorter { OnOk result (IsNoLonger self.old self.new) }
        ensures next { IfOk result (λ c. c ≡ slice_index (cursor_of self.new).rest 0) }
        ensures loaded { OnOk result (1 ≤ loaded self.new) }
    {
        let c = self.look_behind_spaces();
        if !is_later_word(c, self.mark.col, indent) {
            return self.read_empty_quoted_lines(escaped, indent, start, text);
        }
        push_folded_break(text, escaped, 0)?;
        Ok(c)
    }

    // Takes off an escaped break and what follows it, up to the next word or the closing quote. Appends
    // what this reads as to a text, and returns the character that comes next.
    #[inline(always)]
    fn read_escaped_break(
        &mut self,
        quote: Quote,
        indent: usize,
        start: Marker,
        text: &mut String,
    ) -> Result<char, Stop>
        requires { IsTrue (spec.is_escaped_break quote (cursor_of self.old).rest) }
        ensures same { ReadsOn result (spec.with_front (string_bytes text.old)
            (spec.inner_text_at quote indent start spec.no_gap (cursor_of self.old)))
            (spec.with_front (string_bytes text.new)
            (spec.inner_text_at quote indent start spec.no_gap (cursor_of self.new))) }
        ensures shorter { OnOk result (IsShorter self.old self.new) }
        ensures next { IfOk result (λ c. c ≡ slice_index (cursor_of self.new).rest 0) }
        ensures loaded { OnOk result (1 ≤ loaded self.new) }
    {
        self.skip_non_blank();
        self.skip_line_break();
        let c = self.look();
        if c == quote.mark() {
            return Ok(c);
        }
        self.read_quoted_lines(true, indent, start, text)
    }

    // Takes off what is between two words, up to the next word or the closing quote. Appends what it
    // reads as to a text, and returns the character that comes next. `c` is its first character.
    #[inline(always)]
    pub(super) fn read_quoted_gap(
        &mut self,
        c: char,
        quote: Quote,
        indent: usize,
        start: Marker,
        text: &mut String,
    ) -> Result<char, Stop>
        requires first { c ≡ slice_index (cursor_of self.old).rest 0 }
        requires loaded { 1 ≤ loaded self.old }
        requires ended { IsTrue (spec.ends_word quote (cursor_of self.old).rest) }
        requires open { (slice_index (cursor_of self.old).rest 0 == flow.mark quote) ≡ false }
        ensures same { ReadsOn result (spec.with_front (string_bytes text.old)
            (spec.inner_text_at quote indent start spec.no_gap (cursor_of self.old)))
            (spec.with_front (string_bytes text.new)
            (spec.inner_text_at quote indent start spec.no_gap (cursor_of self.new))) }
        ensures shorter { OnOk result (IsShorter self.old self.new) }
        ensures next { IfOk result (λ c. c ≡ slice_index (cursor_of self.new).rest 0) }
        ensures loaded { OnOk result (1 ≤ loaded self.new) }
    {
        if is_break(c) {
            self.skip_seen_break(c);
            let escaped = false;
            return self.read_quoted_lines(escaped, indent, start, text);
        }
        if c == '\\' {
            return self.read_escaped_break(quote, indent, start, text);
        }
        let c = self.read_blanks(text)?;
        if is_break(c) {
            self.skip_seen_break(c);
            return self.read_quoted_lines(false, indent, start, text);
        }
        if is_z(c) {
            return Err(Stop::Refused(Refusal {
                text: FaultText::EndInsideQuotes,
                mark: start,
                may_change: true,
            }));
        }
        Ok(c)
    }
}
