//! The words of plain scalars, with the single spaces between them (YAML 1.2.2, 7.3.3).

ghost use Rattle.std.specs.Prelude.{◌≡◌, ℕ, ◌<◌, ◌≤◌, ◌&&◌, ◌||◌, not, slice_index, string_bytes, IfOk, IsTrue, OnOk, false, true, refl};
ghost use Rattle.saphyr_input.specs.Classes as class;
ghost use Rattle.saphyr_input.specs.Fronts.{StandsFor, ascii_in};
ghost use Rattle.saphyr_scalar.specs.Steps.Plain as spec;
ghost use Rattle.saphyr_scalar.specs.Steps.Sets as sets;

use crate::scalar::byte_sets::{is_in_plain_in_flow, is_in_plain_outside};
use crate::scalar::fault::{FaultText, Refusal};
use crate::scalar::reader::Reader;
use saphyr_input::char_set::{CharSet, WordSet};
use saphyr_input::char_traits::{is_blank_or_breakz, is_bom, is_flow};
use saphyr_input::input::Input;
use std::alloc::AllocError;

// Whether this is one of the characters with which a word begins wherever it is. Most words begin with one.
#[inline(always)]
fn begins_any_word(c: char) -> bool
    ensures { result ≡ sets.begins_any_plain c }
{
    c > '/' && c <= '\x7F' && is_in_plain_in_flow(c as u8)
}

// Whether a word goes on with a colon before this character.
#[inline(always)]
fn is_colon_in_word(next: char, in_flow: bool) -> bool
    ensures { result ≡ not (class.is_blank_or_breakz next || (in_flow && class.is_flow next)) }
{
    !(is_blank_or_breakz(next) || in_flow && is_flow(next))
}

// Whether a single space comes first, before an ASCII character with which a word begins wherever it is on a line, or a
// colon in a word.
#[inline(always)]
fn joins_plain(byte: u8, next: u8, in_flow: bool) -> bool
    ensures value { (c d : ℕ) → StandsFor byte c → (byte < 128 → StandsFor next d)
        → result ≡ sets.joins_plain in_flow c d }
    ensures ascii { IsTrue result → (0 < byte) × (byte < 128) }
{
    match byte {
        b' ' if in_flow => next != b'#' && next != b'-' && is_in_plain_in_flow(next),
        b' ' => next != b'#' && next != b'-' && is_in_plain_outside(next),
        b':' => is_colon_in_word(next as char, in_flow),
        _ => false,
    }
}

// The characters, without the colon, with which a word of a plain scalar outside flow always goes on.
pub(crate) struct PlainOutside;

impl CharSet for PlainOutside {
    ghost test = { sets.in_plain false };

    ghost without_nul = { refl };

    fn has(c: char) -> bool {
        c != ':' && !is_blank_or_breakz(c) && !is_bom(c)
    }

    #[inline(always)]
    fn has_wide(byte: u8) -> bool {
        // The byte order mark, which is not in the set, begins with it.
        byte != 0xEF
    }

    #[inline(always)]
    fn has_ascii(byte: u8) -> bool {
        is_in_plain_outside(byte)
    }
}

impl WordSet for PlainOutside {
    ghost joint = { sets.joins_plain false };

    ghost without_end = { λ _. refl };

    #[inline(always)]
    fn joins(byte: u8, next: u8) -> bool {
        joins_plain(byte, next, false)
    }
}

// The characters, without the colon, with which a word of a plain scalar inside flow always goes on.
pub(crate) struct PlainInFlow;

impl CharSet for PlainInFlow {
    ghost test = { sets.in_plain true };

    ghost without_nul = { refl };

    fn has(c: char) -> bool {
        c != ':' && !is_blank_or_breakz(c) && !is_bom(c) && !is_flow(c)
    }

    #[inline(always)]
    fn has_wide(byte: u8) -> bool {
        // The byte order mark, which is not in the set, begins with it.
        byte != 0xEF
    }

    #[inline(always)]
    fn has_ascii(byte: u8) -> bool {
        is_in_plain_in_flow(byte)
    }
}

impl WordSet for PlainInFlow {
    ghost joint = { sets.joins_plain true };

    ghost without_end = { λ _. refl };

    #[inline(always)]
    fn joins(byte: u8, next: u8) -> bool {
        joins_plain(byte, next, true)
    }
}

// Whether a word goes on with this character, which is no colon.
#[inline(always)]
fn is_plain_in_word(c: char, in_flow: bool) -> bool
    ensures { result ≡ (not (class.is_blank_or_breakz c)
        && not (class.is_bom c || (in_flow && class.is_flow c))) }
{
    !is_blank_or_breakz(c) && !is_bom(c) && !(in_flow && is_flow(c))
}

impl<T: Input> Reader<T> {
    ghost use Rattle.saphyr_scalar.specs.Views.Reader.{cursor_of, loaded, GivesBy};

    // Whether a word of a plain scalar begins here.
    #[inline(always)]
    #[tactic(auto, unfolding(crate::specs::Steps::Plain::word_starts))]
    pub(super) fn plain_word_starts(&mut self, in_flow: bool) -> Result<bool, Refusal>
        ensures { GivesBy (spec.word_starts in_flow) self.old result self.new }
    {
        self.load(4);
        let c = self.input.peek();
        if begins_any_word(c) {
            return Ok(true);
        }
        if c == '#' || self.mark.col == 0 && self.input.next_is_document_indicator() {
            return Ok(false);
        }
        if in_flow && c == '-' && is_flow(self.input.peek_nth(1)) {
            return Err(Refusal {
                text: FaultText::PlainDashBeforeFlow,
                mark: self.mark,
                may_change: false,
            });
        }
        Ok(self.is_in_plain_word(c, in_flow))
    }

    // Whether a word goes on with `c`, the first character.
    #[inline(always)]
    fn is_in_plain_word(&mut self, c: char, in_flow: bool) -> bool
        requires first { c ≡ slice_index (cursor_of self.old).rest 0 }
        requires loaded { 1 ≤ loaded self.old }
        ensures value { result ≡ spec.is_in_word in_flow (cursor_of self.old).rest }
        ensures same { cursor_of self.new ≡ cursor_of self.old }
        ensures loaded { 1 ≤ loaded self.new }
    {
        if c == ':' {
            self.load(2);
            let next = self.input.peek_nth(1);
            return is_colon_in_word(next, in_flow);
        }
        is_plain_in_word(c, in_flow)
    }

    // Moves the rest of a word to the end of a text, and the words after it, each with a single space
    // before it. Returns the character at which they end.
    #[inline(always)]
    pub(super) fn read_plain_words(
        &mut self,
        in_flow: bool,
        text: &mut String,
    ) -> Result<char, AllocError>
        ensures words { OnOk result (spec.PlainWordsMoved in_flow (string_bytes text.old)
            (string_bytes text.new) (cursor_of self.old) (cursor_of self.new)) }
        ensures end { IfOk result (λ c. c ≡ slice_index (cursor_of self.new).rest 0) }
        ensures loaded { OnOk result (1 ≤ loaded self.new) }
    {
        if in_flow {
            self.move_words::<PlainInFlow>(text)
        } else {
            self.move_words::<PlainOutside>(text)
        }
    }
}
