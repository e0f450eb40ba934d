//! Tags, taken off a text, with their percent escapes decoded (YAML 1.2.2, 6.9.1 and 5.6).

ghost use Rattle.std.specs.Prelude.{◌≡◌, ◌++◌, false, ℕ, ◌<◌, ◌≤◌, List, [], length, slice_index, string_bytes, Ok, IfOk, codes, refl};
ghost use Rattle.saphyr_input.specs.Indicators.{exclamation_mark};
ghost use Rattle.saphyr_input.specs.Classes as class;
ghost use Rattle.saphyr_scalar.specs.Steps.Quoted as run;
ghost use Rattle.saphyr_scalar.specs.Steps.Sets as sets;
ghost use Rattle.saphyr_scalar.specs.Steps.Tag as spec;

use crate::scalar::fault::{FaultText, Refusal, Stop};
use crate::scalar::position::Marker;
use crate::scalar::reader::Reader;
use crate::scalar::spare::Spare;
use saphyr_input::char_set::{Alpha, CharSet};
use saphyr_input::char_traits::{is_blank_or_breakz, is_flow, is_tag_char, is_uri_char};
use saphyr_input::input::Input;
use std::alloc::{AllocError, Global};

/// A tag as two texts: its handle as it is written, and its suffix with percent escapes resolved.
///
/// The handle of `!<uri>` is empty and its suffix the uri. The handle of `!` alone is empty and
/// its suffix `!`.
#[derive(Clone, Debug, PartialEq, Eq, Drop)]
pub struct TagParts {
    pub handle: String,
    pub suffix: String,
}

// The characters that may occur in a uri, or in the suffix of a tag.
#[derive(Clone, Copy)]
pub(crate) enum UriSet {
    Uri,
    Suffix,
}

// The characters of a uri without `%`, which begins an escape.
pub(crate) struct PlainUri;

impl CharSet for PlainUri {
    ghost test = { sets.is_bare_in_uri };

    ghost without_nul = { refl };

    fn has(c: char) -> bool {
        c != '%' && is_uri_char(c)
    }

    fn has_ascii(byte: u8) -> bool {
        matches!(byte, b'a'..=b'z') || byte < 0x80 && byte != b'%' && is_uri_char(byte as char)
    }
}

// The characters of a tag's suffix without `%`.
pub(crate) struct PlainSuffix;

impl CharSet for PlainSuffix {
    ghost test = { sets.is_bare_in_suffix };

    ghost without_nul = { refl };

    fn has(c: char) -> bool {
        c != '%' && is_tag_char(c)
    }

    fn has_ascii(byte: u8) -> bool {
        matches!(byte, b'a'..=b'z') || byte < 0x80 && byte != b'%' && is_tag_char(byte as char)
    }
}

// Whether a tag ends before the character.
#[inline(always)]
fn ends_tag(c: char, in_flow: bool) -> bool
    ensures { result ≡ spec.is_behind_tag in_flow c }
{
    is_blank_or_breakz(c) || in_flow && is_flow(c)
}

impl<T: Input> Reader<T> {
    ghost use Rattle.saphyr_scalar.specs.Views.Reader.{cursor_of, GivesBy, Moves, WritesBy, AppendsBy, text_alone};

    // Takes off a character of a uri, or the escape of one.
    #[tactic(auto, unfolding(crate::specs::Steps::Tag::uri_character))]
    pub(crate) fn read_uri_character(&mut self, start: Marker) -> Result<char, Refusal>
        requires { 0 < length (cursor_of self.old).rest }
        ensures { GivesBy (spec.uri_character start) self.old result self.new }
    {
        let c = self.look();
        if c == '%' {
            return self.read_percent_escape(start);
        }
        self.skip_non_blank();
        Ok(c)
    }

    // Moves characters of a set that begin no escape to the end of a text.
    fn read_bare_characters(&mut self, set: UriSet, text: &mut String) -> Result<(), Stop>
        ensures { AppendsBy (run.with_front_run (sets.is_bare set)) text.old self.old result
            text.new self.new }
    {
        // Often an escape follows another.
        if self.look() == '%' {
            return Ok(());
        }
        match set {
            UriSet::Uri => self.move_run::<PlainUri>(text),
            UriSet::Suffix => self.move_run::<PlainSuffix>(text),
        }
    }

    // Moves characters of a set, with their escapes resolved, to the end of a text.
    pub(crate) fn read_uri_characters(
        &mut self,
        set: UriSet,
        start: Marker,
        text: &mut String,
    ) -> Result<(), Stop>
        ensures { WritesBy text_alone (spec.decoded_onto set start) text.old self.old result
            text.new self.new }
    {
        loop {
            self.read_bare_characters(set, text)?;
            if self.look() != '%' {
                break;
            }
            let c = self.read_percent_escape(start)?;
            text.push(c)?;
        }
        self.blank_so_far = false;
        Ok(())
    }

    // Takes off `!<uri>`, and puts the uri behind a text. Returns how many bytes the handle has, which is empty.
    #[tactic(auto, unfolding(crate::specs::Steps::Tag::verbatim_tag))]
    fn read_verbatim_tag(&mut self, text: &mut String) -> Result<usize, Stop>
        requires { 2 ≤ length (cursor_of self.old).rest }
        ensures { WritesBy spec.seen_tag (λ before s. spec.with_tag before (spec.verbatim_tag s))
            text.old self.old result text.new self.new }
    {
        let start = self.mark;
        self.skip_n_non_blank(2);
        self.read_uri_characters(UriSet::Uri, start, text)?;
        if self.look() != '>' {
            return Err(Stop::Refused(Refusal {
                text: FaultText::VerbatimTagEndExpected,
                mark: start,
                may_change: self.is_missing(0),
            }));
        }
        self.skip_non_blank();
        Ok(0)
    }

    // Takes off the suffix of a tag, and puts it behind the handle, `!!` or `!word!`, at the end of a text.
    fn read_named_suffix(&mut self, start: Marker, text: &mut String) -> Result<(), Stop>
        ensures { (before word : List ℕ) → string_bytes text.old ≡ before ++ spec.handle_of word
            → Moves (λ _. spec.seen_tag (length (spec.handle_of word)) (string_bytes text.new)
            (cursor_of self.new)) result
            (spec.with_tag before (spec.named_tail start word (cursor_of self.old))) }
    {
        let before = text.len();
        self.read_uri_characters(UriSet::Suffix, start, text)?;
        if text.len() == before {
            return Err(Stop::Refused(Refusal {
                text: FaultText::TagSuffixExpected,
                mark: start,
                may_change: self.is_missing(0),
            }));
        }
        Ok(())
    }

    // Moves what is left of a suffix behind a word to the end of a text. Mostly nothing is.
    #[inline(always)]
    fn read_rest_of_suffix(&mut self, c: char, start: Marker, text: &mut String) -> Result<(), Stop>
        requires first { c ≡ slice_index (cursor_of self.old).rest 0 }
        requires inside { (cursor_of self.old).blank_so_far ≡ false }
        ensures { WritesBy text_alone (spec.decoded_onto UriSet.Suffix start) text.old self.old
            result text.new self.new }
    {
        if !is_tag_char(c) {
            return Ok(());
        }
        self.read_uri_characters(UriSet::Suffix, start, text)
    }

    // Takes off `!` and a word, and puts both behind a text. Returns the character behind them.
    #[inline(always)]
    pub(crate) fn read_marked_word(&mut self, text: &mut String) -> Result<char, Stop>
        requires { 0 < length (cursor_of self.old).rest }
        ensures word { WritesBy (λ _ text s. (text, s)) spec.with_word text.old self.old result
            text.new self.new }
        ensures next { IfOk result (λ c. c ≡ slice_index (cursor_of self.new).rest 0) }
    {
        self.skip_non_blank();
        text.push('!')?;
        self.read_run::<Alpha>(text)?;
        Ok(self.look())
    }

    // Takes off a tag of a handle and a suffix, and puts both behind a text. Returns how many bytes the handle has.
    fn read_shorthand_tag(&mut self, text: &mut String) -> Result<usize, Stop>
        requires { 0 < length (cursor_of self.old).rest }
        ensures { WritesBy spec.seen_tag (λ before s. spec.with_tag before (spec.shorthand_tag s))
            text.old self.old result text.new self.new }
    {
        let start = self.mark;
        let before = text.len();
        let c = self.read_marked_word(text)?;
        if c == '!' {
            self.skip_non_blank();
            text.push('!')?;
            let handle = text.len() - before;
            self.read_named_suffix(start, text)?;
            return Ok(handle);
        }
        self.read_rest_of_suffix(c, start, text)?;
        // A `!` alone is the suffix.
        if text.len() == before + 1 {
            return Ok(0);
        }
        Ok(1)
    }

    // Takes off a tag whose handle is `!!`, which has no word. Most tags have it.
    fn read_secondary_tag(&mut self, text: &mut String) -> Result<usize, Stop>
        requires { slice_index (cursor_of self.old).rest 1 ≡ exclamation_mark }
        ensures { WritesBy spec.seen_tag (λ before s. spec.with_tag before (spec.shorthand_tag s))
            text.old self.old result text.new self.new }
    {
        let start = self.mark;
        self.skip_n_non_blank(2);
        text.push_str("!!")?;
        self.read_named_suffix(start, text)?;
        Ok(2)
    }

    // Takes off a tag of any form. What comes after it may be part of no tag.
    #[inline(always)]
    fn read_any_tag(&mut self, text: &mut String) -> Result<usize, Stop>
        requires { slice_index (cursor_of self.old).rest 0 ≡ exclamation_mark }
        ensures { WritesBy spec.seen_tag (λ before s. spec.with_tag before (spec.any_tag s))
            text.old self.old result text.new self.new }
    {
        self.load(2);
        match self.input.peek_nth(1) {
            '<' => self.read_verbatim_tag(text),
            '!' => self.read_secondary_tag(text),
            _ => self.read_shorthand_tag(text),
        }
    }

    /// Takes off a tag (YAML 1.2.2, 6.9.1), from its `!` on, inside flow or outside. Its handle and its
    /// suffix are put behind a text, one behind the other. Returns how many bytes the handle has.
    ///
    /// All faults are refused at the `!`: a verbatim tag without its `>`, a handle `!!` or
    /// `!word!` without a suffix, a percent escape that is not UTF-8, and a tag that is not
    /// followed by a blank, a break or the end, or in flow by a flow indicator. After an error
    /// nothing is known of what is left of that text.
    #[tactic(auto, using(crate::proofs::Properties::TagSteps::tag_refused), unfolding(crate::specs::Steps::Tag::tag))]
    pub fn read_tag_onto(&mut self, in_flow: bool, text: &mut String) -> Result<usize, Stop>
        requires { slice_index (cursor_of self.old).rest 0 ≡ exclamation_mark }
        ensures { WritesBy spec.seen_tag (λ before s. spec.with_tag before (spec.tag in_flow s))
            text.old self.old result text.new self.new }
    {
        let start = self.mark;
        let handle = self.read_any_tag(text)?;
        if !ends_tag(self.look(), in_flow) {
            return Err(Stop::Refused(Refusal {
                text: FaultText::TagEndExpected,
                mark: start,
                may_change: false,
            }));
        }
        Ok(handle)
    }
}
