//! Reading scalars, names and tags right behind the other texts.

ghost use Rattle.std.specs.Prelude.{◌≡◌, ◌<◌, List, ℕ, IfOk, length, slice_index};
ghost use Rattle.saphyr_input.specs.Indicators.{exclamation_mark};
ghost use Rattle.saphyr_scalar.specs.Steps.Plain.{plain, seen_plain_end};
ghost use Rattle.saphyr_scalar.specs.Values.Flow as flow;
ghost use Rattle.saphyr_scalar.specs.Views.Reader.{GivesBy, Moves, cursor_of};
ghost use Rattle.saphyr_scanner.specs.Grammar.Tokens as tokens;
ghost use Rattle.saphyr_scanner.specs.Steps.Scalar.{quote_style};
ghost use Rattle.saphyr_scanner.specs.Views.Reads as spec;
ghost use Rattle.saphyr_scanner.specs.Views.Reads.{PlacesToken, name_kind, name_whole, quote_kind, quoted_whole};
ghost use Rattle.saphyr_scanner.specs.Views.Reads.{tag_kind, tag_whole};
ghost use Rattle.saphyr_scanner.specs.Views.Texts.{IsTextOf, added, with_last_text};
ghost use Rattle.saphyr_scanner.specs.Views.Tokens.{kind_with, text_parts};

use crate::queue::place::Place;
use crate::queue::texts::{Texts, lose};
use crate::token::TokenKind;
use saphyr_input::char_traits::is_breakz;
use saphyr_input::input::{Input, SkipTabs};
use saphyr_scalar::values::Quote;
use saphyr_scalar::{FaultText, PlainEnd, Reader, Refusal, Stop};

// Whether an indicator that may follow a quoted scalar is here. Outside flow that is a colon on the scalar's first
// line.
#[inline(always)]
fn is_at_end<T: Input>(reader: &Reader<T>, c: char, in_block: bool, line: usize) -> bool
    requires { c ≡ slice_index (cursor_of reader.now).rest 0 }
    ensures { result ≡ spec.ends_at_indicator in_block line (cursor_of reader.now) }
{
    match c {
        ':' => !in_block || reader.mark().line == line,
        ',' | ']' | '}' => !in_block,
        _ => false,
    }
}

// Passes what separates a quoted scalar from what comes after it. Returns whether that is an indicator.
#[inline(always)]
#[tactic(auto, unfolding(crate::specs::Views::Reads::behind_quoted))]
fn pass_behind_quotes<T: Input>(
    reader: &mut Reader<T>,
    in_block: bool,
    line: usize,
) -> Result<bool, Refusal>
    ensures { GivesBy (spec.behind_quoted in_block line) reader.old result reader.new }
{
    // Mostly one look shows that nothing separates them.
    let c = reader.look();
    if is_at_end(reader, c, in_block, line) {
        return Ok(true);
    }
    reader.skip_ws_to_eol(SkipTabs::Yes)?;
    let c = reader.look();
    if is_at_end(reader, c, in_block, line) {
        return Ok(true);
    }
    if is_breakz(c) {
        return Ok(false);
    }
    Err(Refusal {
        text: FaultText::ContentAfterQuotes,
        mark: reader.mark(),
        may_change: false,
    })
}

// The kind of a quoted scalar.
#[inline(always)]
fn kind_of(quote: Quote) -> TokenKind
    ensures { (text : List ℕ) → kind_with result (text_parts text)
        ≡ tokens.Scalar (quote_style quote) text }
{
    match quote {
        Quote::Single => TokenKind::SingleQuoted,
        Quote::Double => TokenKind::DoubleQuoted,
    }
}

impl Texts {
    /// Reads a plain scalar, and puts its text behind the others. Returns how the scalar ended, and how many bytes its
    /// text has. After an error nothing is known of what is here.
    #[inline(always)]
    pub(in crate::queue) fn read_plain<T: Input>(
        &mut self,
        reader: &mut Reader<T>,
        in_flow: bool,
        indent: usize,
    ) -> Result<(PlainEnd, usize), Stop>
        ensures read { Moves (λ read. seen_plain_end read.0 (added self.old self.new)
            (cursor_of reader.new)) result (plain in_flow indent (cursor_of reader.old)) }
        ensures kept { IfOk result
            (λ _. self.new ≡ with_last_text (added self.old self.new) self.old) }
        ensures count { IfOk result
            (λ read. IsTextOf read.1 (added self.old self.new)) }
    {
        let before = self.texts.len();
        match reader.read_plain_onto(in_flow, indent, &mut self.texts) {
            Ok(end) => Ok((end, self.texts.len() - before)),
            Err(stop) => Err(lose(&mut self.texts, &mut self.spent, stop)),
        }
    }

    /// Reads a quoted scalar in the same way, and passes what separates it from what comes after it. Returns the place
    /// of its token, and whether that is an indicator.
    #[inline(always)]
    #[tactic(auto, unfolding(crate::specs::Views::Reads::quoted_whole))]
    pub(in crate::queue) fn read_quoted<T: Input>(
        &mut self,
        reader: &mut Reader<T>,
        quote: Quote,
        in_block: bool,
        indent: usize,
    ) -> Result<(Place, bool), Stop>
        requires { slice_index (cursor_of reader.old).rest 0 ≡ flow.mark quote }
        ensures { PlacesToken (quote_kind quote) (cursor_of reader.old).mark self.old self.new
            (cursor_of reader.new) result
            (quoted_whole in_block quote indent (cursor_of reader.old)) }
    {
        let (start, before) = (reader.mark(), self.texts.len());
        match reader.read_quoted_onto(quote, indent, &mut self.texts) {
            Ok(()) => {
                let count = self.texts.len() - before;
                let is_at_end = pass_behind_quotes(reader, in_block, start.line)?;
                let place = Place::of_text(kind_of(quote), &start, &reader.mark(), count, self)?;
                Ok((place, is_at_end))
            }
            Err(stop) => Err(lose(&mut self.texts, &mut self.spent, stop)),
        }
    }

    /// Reads the name of an anchor or an alias in the same way. Nothing else is told of it.
    pub(in crate::queue) fn read_name<T: Input>(
        &mut self,
        kind: TokenKind,
        reader: &mut Reader<T>,
    ) -> Result<(Place, ()), Stop>
        requires { 0 < length (cursor_of reader.old).rest }
        ensures { PlacesToken (name_kind kind) (cursor_of reader.old).mark self.old self.new
            (cursor_of reader.new) result (name_whole (cursor_of reader.old)) }
    {
        let (start, before) = (reader.mark(), self.texts.len());
        match reader.read_anchor_onto(&mut self.texts) {
            Ok(()) => {
                let count = self.texts.len() - before;
                let place = Place::of_text(kind, &start, &reader.mark(), count, self)?;
                Ok((place, ()))
            }
            Err(stop) => Err(lose(&mut self.texts, &mut self.spent, stop)),
        }
    }

    /// Reads a tag in the same way: its suffix is behind its handle.
    pub(in crate::queue) fn read_tag<T: Input>(
        &mut self,
        reader: &mut Reader<T>,
        in_flow: bool,
    ) -> Result<(Place, ()), Stop>
        requires { slice_index (cursor_of reader.old).rest 0 ≡ exclamation_mark }
        ensures { PlacesToken tag_kind (cursor_of reader.old).mark self.old self.new
            (cursor_of reader.new) result (tag_whole in_flow (cursor_of reader.old)) }
    {
        let (start, before) = (reader.mark(), self.texts.len());
        match reader.read_tag_onto(in_flow, &mut self.texts) {
            Ok(handle) => {
                let (end, count) = (reader.mark(), self.texts.len() - before - handle);
                let place = Place::of_texts(TokenKind::Tag, &start, &end, handle, count, self)?;
                Ok((place, ()))
            }
            Err(stop) => Err(lose(&mut self.texts, &mut self.spent, stop)),
        }
    }
}
