//! The words of quoted scalars: characters that stand for themselves, single spaces between them, escapes and doubled
//! quotes (YAML 1.2.2, 7.3.1, 7.3.2 and 5.7).

ghost use Rattle.std.specs.Prelude.{◌≡◌, ℕ, ◌<◌, ◌≤◌, false, slice_index, string_bytes, IfNone, IfOk, None, Ok, OnOk, IsTrue, ◌==◌, refl};
ghost use Rattle.saphyr_input.specs.Fronts.{StandsFor};
ghost use Rattle.saphyr_scalar.specs.Steps.Quoted as spec;
ghost use Rattle.saphyr_scalar.specs.Steps.Sets as sets;
ghost use Rattle.saphyr_scalar.specs.Views.Cursor.{Cursor};
ghost use Rattle.saphyr_scalar.specs.declared.values.Quote.{Quote};
ghost use Rattle.saphyr_scalar.specs.declared.values.Quote.TheVariants as kind;

use crate::scalar::byte_sets::{is_in_double, is_in_single};
use crate::scalar::fault::{Refusal, Stop};
use crate::scalar::position::Marker;
use crate::scalar::reader::Reader;
use crate::values::Quote;
use saphyr_input::char_set::{CharSet, WordSet};
use saphyr_input::char_traits::{is_blank_or_breakz, is_break};
use saphyr_input::input::Input;
use std::alloc::AllocError;

// Whether a character between the quotes stands for itself and is no blank.
#[inline]
#[tactic(auto, unfolding(crate::specs::Steps::Quoted::is_literal))]
fn is_literal(quote: Quote, c: char) -> bool
    ensures { result ≡ spec.is_literal quote c }
{
    let special = match quote {
        Quote::Single => c == '\'',
        Quote::Double => c == '"' || c == '\\',
    };
    !is_blank_or_breakz(c) && !special
}

// If this is false, neither an escape begins with the character, nor two quotes that stand for one.
#[inline(always)]
fn begins_special(quote: Quote, c: char) -> bool
    ensures mark { result ≡ (c == spec.special_mark quote) }
    ensures none { result ≡ false → (start : Marker) (s : Cursor) → c ≡ slice_index s.rest 0
        → spec.special quote start s ≡ Ok (None, s) }
{
    match quote {
        Quote::Single => c == '\'',
        Quote::Double => c == '\\',
    }
}

// Whether a single space comes first, before what is on its line.
#[inline(always)]
fn joins_quoted(byte: u8, next: u8) -> bool
    ensures value { (c d : ℕ) → StandsFor byte c → (byte < 128 → StandsFor next d)
        → result ≡ sets.joins_quoted c d }
    ensures ascii { IsTrue result → (0 < byte) × (byte < 128) }
{
    byte == b' ' && !is_blank_or_breakz(next as char)
}

// A kind of quotes. Each has code of its own, which doesn't ask again and again which kind it is.
pub(crate) trait Quotes {
    ghost quote: { Quote };

    fn quote() -> Quote
        ensures { result ≡ quote };
}

// The characters that stand for themselves between single quotes and are no blank.
pub(crate) struct InSingle;

impl CharSet for InSingle {
    ghost test = { sets.in_single };

    ghost without_nul = { sets.no_nul_in_single };

    fn has(c: char) -> bool {
        is_literal(Quote::Single, c)
    }

    #[inline(always)]
    fn has_wide(_byte: u8) -> bool {
        true
    }

    #[inline(always)]
    fn has_ascii(byte: u8) -> bool {
        is_in_single(byte)
    }
}

impl Quotes for InSingle {
    ghost quote = { kind.Single };

    #[inline(always)]
    fn quote() -> Quote {
        Quote::Single
    }
}

impl WordSet for InSingle {
    ghost joint = { sets.joins_quoted };

    ghost without_end = { λ _. refl };

    #[inline(always)]
    fn joins(byte: u8, next: u8) -> bool {
        joins_quoted(byte, next)
    }
}

// The characters that stand for themselves between double quotes and are no blank.
pub(crate) struct InDouble;

impl CharSet for InDouble {
    ghost test = { sets.in_double };

    ghost without_nul = { sets.no_nul_in_double };

    fn has(c: char) -> bool {
        is_literal(Quote::Double, c)
    }

    #[inline(always)]
    fn has_wide(_byte: u8) -> bool {
        true
    }

    #[inline(always)]
    fn has_ascii(byte: u8) -> bool {
        is_in_double(byte)
    }
}

impl Quotes for InDouble {
    ghost quote = { kind.Double };

    #[inline(always)]
    fn quote() -> Quote {
        Quote::Double
    }
}

impl WordSet for InDouble {
    ghost joint = { sets.joins_quoted };

    ghost without_end = { λ _. refl };

    #[inline(always)]
    fn joins(byte: u8, next: u8) -> bool {
        joins_quoted(byte, next)
    }
}

impl<T: Input> Reader<T> {
    ghost use Rattle.saphyr_scalar.specs.Views.Reader.{cursor_of, loaded, GivesBy, ReadsOn, IsNoLonger};

    // Moves words, and single spaces between them, to the end of a text: up to what does not stand
    // for itself. Returns the character that comes next.
    #[inline(always)]
    pub(super) fn take_literal_words(
        &mut self,
        quote: Quote,
        text: &mut String,
    ) -> Result<char, AllocError>
        ensures moved { OnOk result
            (spec.QuotedWordsMoved quote (string_bytes text.old) (string_bytes text.new)
            (cursor_of self.old) (cursor_of self.new)) }
        ensures next { IfOk result (λ c. c ≡ slice_index (cursor_of self.new).rest 0) }
        ensures loaded { 1 ≤ loaded self.new }
    {
        match quote {
            Quote::Single => self.move_words::<InSingle>(text),
            Quote::Double => self.move_words::<InDouble>(text),
        }
    }

    // Moves such words after an escape or a gap, and returns the character that comes next. `c` is the first one. After
    // an escape mostly another one or the closing quote follows, and to look is cheaper than to move nothing.
    #[inline(always)]
    fn read_literal_words(
        &mut self,
        c: char,
        quote: Quote,
        text: &mut String,
    ) -> Result<char, AllocError>
        requires first { c ≡ slice_index (cursor_of self.old).rest 0 }
        requires loaded { 1 ≤ loaded self.old }
        ensures moved { OnOk result
            (spec.QuotedWordsMoved quote (string_bytes text.old) (string_bytes text.new)
            (cursor_of self.old) (cursor_of self.new)) }
        ensures next { IfOk result (λ c. c ≡ slice_index (cursor_of self.new).rest 0) }
        ensures loaded { OnOk result (1 ≤ loaded self.new) }
    {
        if !is_literal(quote, c) {
            return Ok(c);
        }
        self.take_literal_words(quote, text)
    }

    // Takes off an escape, or two single quotes, and returns the character that this stands for. Returns `None` where
    // neither is, and where a break is escaped, which is left to the gap between two words. `c` is the next character.
    #[inline(always)]
    #[tactic(auto, unfolding(crate::specs::Steps::Quoted::special))]
    fn read_special(
        &mut self,
        c: char,
        quote: Quote,
        start: Marker,
    ) -> Result<Option<char>, Refusal>
        requires first { c ≡ slice_index (cursor_of self.old).rest 0 }
        requires loaded { 1 ≤ loaded self.old }
        ensures special { GivesBy (spec.special quote start) self.old result self.new }
        ensures loaded { IfOk result (λ some. IfNone some (1 ≤ loaded self.new)) }
    {
        if !begins_special(quote, c) {
            return Ok(None);
        }
        self.load(2);
        let next = self.input.peek_nth(1);
        match quote {
            Quote::Single => {
                if next != '\'' {
                    return Ok(None);
                }
                self.skip_two_ascii();
                Ok(Some(next))
            }
            Quote::Double => {
                if is_break(next) {
                    return Ok(None);
                }
                Ok(Some(self.read_escape(next, start)?))
            }
        }
    }

    // Moves words, and the single spaces between them, to the end of a text, with their escapes
    // resolved: up to a blank, a break, escaped or not, the closing quote, NUL or the end. Returns
    // the character that ends them. `first` is the next character.
    #[inline(always)]
    pub(super) fn read_quoted_word(
        &mut self,
        first: char,
        quote: Quote,
        start: Marker,
        text: &mut String,
    ) -> Result<char, Stop>
        requires first { first ≡ slice_index (cursor_of self.old).rest 0 }
        requires loaded { 1 ≤ loaded self.old }
        ensures same { (indent : ℕ) → ReadsOn result
            (spec.with_front (string_bytes text.old)
            (spec.inner_text_at quote indent start spec.no_gap (cursor_of self.old)))
            (spec.with_front (string_bytes text.new)
            (spec.inner_text_at quote indent start spec.no_gap (cursor_of self.new))) }
        ensures ended { OnOk result (IsTrue (spec.ends_word quote (cursor_of self.new).rest)) }
        ensures shorter { OnOk result (IsNoLonger self.old self.new) }
        ensures next { IfOk result (λ c. c ≡ slice_index (cursor_of self.new).rest 0) }
        ensures loaded { OnOk result (1 ≤ loaded self.new) }
    {
        let mut first = first;
        loop {
            let next = self.read_literal_words(first, quote, text)?;
            let Some(c) = self.read_special(next, quote, start)? else {
                return Ok(next);
            };
            text.push(c)?;
            first = self.look();
        }
    }
}
