//! Laws of the readers in the standard's words (YAML 1.2.2, 6.8, 6.9, 7 and 8.1): what is read is spelled so and has
//! that value, where the readers refuse a text, and that each takes characters off, so a scanner ends.

ghost use Rattle.std.specs.Prelude.{◌≡◌, ℕ, ◌+◌, ◌-◌, ◌^◌, ◌<◌, ◌≤◌, ◌⊎◌, ◌++◌, ◌∷◌, Bool, Option, false, true, List, length, Ok, Err, encode_utf8_all, slice_index};
ghost use Rattle.saphyr_input.specs.Indicators.{exclamation_mark, percent_sign};
ghost use Rattle.saphyr_input.specs.Classes.{is_anchor_char, is_break, is_breakz, is_z};
ghost use Rattle.saphyr_input.specs.Places.{is_blank_or_break};
ghost use Rattle.saphyr_input.specs.declared.input.SkipTabs.{SkipTabs};
ghost use Rattle.saphyr_scalar.specs.declared.scalar.fault.Refusal.{Refusal};
ghost use Rattle.saphyr_scalar.specs.declared.scalar.position.Marker.{Marker};
ghost use Rattle.saphyr_scalar.specs.declared.scalar.position.Span.{Span};
ghost use Rattle.saphyr_scalar.specs.declared.values.BlockStyle.{BlockStyle};
ghost use Rattle.saphyr_scalar.specs.Passing.{IsPassed};
ghost use Rattle.saphyr_scalar.specs.Reading.BlockText.{IsBlockText};
ghost use Rattle.saphyr_scalar.specs.Reading.Plain.{IsPlainReading, IsPlainEnd};
ghost use Rattle.saphyr_scalar.specs.RefusedInside.{IsRefusedInside};
ghost use Rattle.saphyr_scalar.specs.Spelling.Directive.{ReadDirective, IsReadDirective, IsLineTail};
ghost use Rattle.saphyr_scalar.specs.Spelling.IndentedQuotes.{HasIndentedLines};
ghost use Rattle.saphyr_scalar.specs.Spelling.LaterLines.{ArePlainLines};
ghost use Rattle.saphyr_scalar.specs.Spelling.Quoted.{IsQuotedText};
ghost use Rattle.saphyr_scalar.specs.Spelling.QuotedMarkers.{HasNoMarker};
ghost use Rattle.saphyr_scalar.specs.Spelling.Tag.{IsAnchorName, IsTagText, EndsTag};
ghost use Rattle.saphyr_scalar.specs.Steps.Anchor.{anchor};
ghost use Rattle.saphyr_scalar.specs.Steps.Block.{block_scalar};
ghost use Rattle.saphyr_scalar.specs.Steps.Directive.{directive};
ghost use Rattle.saphyr_scalar.specs.Steps.Plain.{plain};
ghost use Rattle.saphyr_scalar.specs.Steps.Quoted.{quoted, mid_line};
ghost use Rattle.saphyr_scalar.specs.Steps.Tag.{tag};
ghost use Rattle.saphyr_scalar.specs.Values.Flow as flow;
ghost use Rattle.saphyr_scalar.specs.Values.Folding.{folded};
ghost use Rattle.saphyr_scalar.specs.Views.Cursor.{Cursor, along, pass_break, separation};

use crate::scalar::position::Marker;
use crate::values::{Item, Quote};

/// What is read as a quoted scalar is spelled so, and what is left follows it. Its text is the reading of
/// what it spells, with lines folded, and each character and break counts for its place.
///
/// No later line begins with a document marker. Each begins with at least `indent` spaces, or has fewer
/// and nothing else. Right after an escaped break the closing quote may be at any column.
pub fn spells_each_quoted()
    ensures spelled { (quote : Quote) (indent : ℕ) (s t : Cursor) (text : List ℕ)
        → slice_index s.rest 0 ≡ flow.mark quote → quoted quote indent s ≡ Ok (text, t)
        → (items : List Item) × IsQuotedText quote s.rest items t.rest
        × (encode_utf8_all (folded items) ≡ text) × IsPassed s.mark s.rest t.mark t.rest }
    ensures lines { (quote : Quote) (indent : ℕ) (s t : Cursor) (text : List ℕ)
        → slice_index s.rest 0 ≡ flow.mark quote → quoted quote indent s ≡ Ok (text, t)
        → (items : List Item) × (is : IsQuotedText quote s.rest items t.rest)
        × (encode_utf8_all (folded items) ≡ text) × IsPassed s.mark s.rest t.mark t.rest
        × HasNoMarker quote is.0 items t.rest is.2
        × HasIndentedLines indent quote is.0 items t.rest is.2 }
{}

/// What is read as a plain scalar is the reading of a piece of the text that is spelled as one. Only blanks
/// and breaks follow it, up to the place that is reached, where no plain scalar goes on.
///
/// Each later line begins with at least `indent` spaces, or has only blanks. Inside flow it may begin with
/// fewer spaces, but not with fewer and a tab. The scalar begins with a character that is neither a blank
/// nor a break.
pub fn reads_plain_values()
    ensures value { (in_flow : Bool) (indent : ℕ) (s t : Cursor) (text : List ℕ) (end : Marker)
        (comment : Option Marker) → plain in_flow indent s ≡ Ok (text, end, comment, t)
        → IsPlainReading in_flow s text end t }
    ensures lines { (in_flow : Bool) (indent : ℕ) (s t : Cursor) (text : List ℕ) (end : Marker)
        (comment : Option Marker) → plain in_flow indent s ≡ Ok (text, end, comment, t)
        → (reading : IsPlainReading in_flow s text end t)
        × ArePlainLines in_flow indent reading.piece (reading.white ++ t.rest)
        × IsPlainEnd in_flow indent reading.white t }
    ensures first { (in_flow : Bool) (indent : ℕ) (s t : Cursor) (text : List ℕ) (end : Marker)
        (comment : Option Marker) → plain in_flow indent s ≡ Ok (text, end, comment, t)
        → is_blank_or_break (slice_index s.rest 0) ≡ false }
{}

/// What is read as a block scalar is one: a header's line and lines whose value is its text. No
/// content comes before its span.
///
/// The span begins at the scalar's place or after it, and ends at the place that is reached: on a line
/// after the header's, or at NUL or the end. Each character counts for both ends.
pub fn reads_block_texts()
    ensures text { (style : BlockStyle) (indent : ℕ) (s t : Cursor) (text : List ℕ) (span : Span)
        → is_break (slice_index s.rest 0) ≡ false → 0 < length s.rest
        → block_scalar style indent s ≡ Ok (text, span, t)
        → IsBlockText style indent s text span.start t }
    ensures counted { (style : BlockStyle) (indent : ℕ) (s t : Cursor) (text : List ℕ) (span : Span)
        → 0 < length s.rest → block_scalar style indent s ≡ Ok (text, span, t)
        → (s.mark.index ≤ span.start.index) × (span.start.index ≤ span.end.index)
        × (span.end ≡ t.mark) × (t.mark.index + length t.rest ≡ s.mark.index + length s.rest) }
    ensures placed { (style : BlockStyle) (indent : ℕ) (s t : Cursor) (text : List ℕ) (span : Span)
        → is_break (slice_index s.rest 0) ≡ false → 0 < length s.rest
        → block_scalar style indent s ≡ Ok (text, span, t)
        → IsPassed s.mark s.rest t.mark t.rest × (span.end ≡ t.mark)
        × ((behind : List ℕ) × IsPassed s.mark s.rest span.start behind
        × IsPassed span.start behind t.mark t.rest)
        × (s.mark.line < 2 ^ 64 - 1
        → (s.mark.line < t.mark.line) ⊎ (is_z (slice_index t.rest 0) ≡ true)) }
{}

/// What is read as an anchor, an alias or a tag is spelled so, and what is left follows it.
pub fn spells_each_property()
    ensures anchor { (s t : Cursor) (text : List ℕ) → 0 < length s.rest → anchor s ≡ Ok (text, t)
        → (indicator : ℕ) × (name : List ℕ) × (s.rest ≡ indicator ∷ (name ++ t.rest))
        × IsAnchorName name × (is_anchor_char (slice_index t.rest 0) ≡ false)
        × (t ≡ mid_line (along s.mark (1 + length name)) t.rest) × (encode_utf8_all name ≡ text) }
    ensures tag { (in_flow : Bool) (s u : Cursor) (front back : List ℕ)
        → slice_index s.rest 0 ≡ exclamation_mark
        → tag in_flow s ≡ Ok (front, back, u)
        → (t : List ℕ) × (handle : List ℕ) × (suffix : List ℕ) × (s.rest ≡ t ++ u.rest)
        × IsTagText t handle suffix × EndsTag in_flow u.rest
        × (u ≡ mid_line (along s.mark (length t)) u.rest) × (encode_utf8_all handle ≡ front)
        × (encode_utf8_all suffix ≡ back) }
{}

/// What is read as a directive is spelled so, and what is left follows its line.
pub fn spells_each_directive()
    ensures { (s u : Cursor) (d : ReadDirective) (end : Marker)
        → slice_index s.rest 0 ≡ percent_sign
        → directive s ≡ Ok (d, end, u)
        → (t : List ℕ) × (tail : List ℕ) × (x : List ℕ) × (s.rest ≡ t ++ (tail ++ x))
        × IsReadDirective d t × IsLineTail tail × (is_breakz (slice_index x 0) ≡ true)
        × (end ≡ along s.mark (length t))
        × (u ≡ pass_break (mid_line (along s.mark (length t + length tail)) x)) }
{}

/// Each reader takes characters off the text.
pub fn takes_characters()
    ensures plain { (in_flow : Bool) (indent : ℕ) (s t : Cursor) (text : List ℕ) (end : Marker)
        (comment : Option Marker) → plain in_flow indent s ≡ Ok (text, end, comment, t)
        → length t.rest < length s.rest }
    ensures quoted { (quote : Quote) (indent : ℕ) (s t : Cursor) (text : List ℕ)
        → slice_index s.rest 0 ≡ flow.mark quote → quoted quote indent s ≡ Ok (text, t)
        → length t.rest < length s.rest }
    ensures block_scalar { (style : BlockStyle) (indent : ℕ) (s t : Cursor) (text : List ℕ)
        (span : Span) → 0 < length s.rest → block_scalar style indent s ≡ Ok (text, span, t)
        → length t.rest < length s.rest }
    ensures anchor { (s t : Cursor) (text : List ℕ) → 0 < length s.rest → anchor s ≡ Ok (text, t)
        → length t.rest < length s.rest }
    ensures tag { (in_flow : Bool) (s t : Cursor) (handle suffix : List ℕ)
        → slice_index s.rest 0 ≡ exclamation_mark
        → tag in_flow s ≡ Ok (handle, suffix, t) → length t.rest < length s.rest }
    ensures directive { (s t : Cursor) (d : ReadDirective) (end : Marker)
        → slice_index s.rest 0 ≡ percent_sign
        → directive s ≡ Ok (d, end, t) → length t.rest < length s.rest }
{}

/// The place of a refusal is where its reader began, or one on the way from there.
pub fn refuses_inside()
    ensures anchor { (s : Cursor) (e : Refusal) → anchor s ≡ Err e → e.mark ≡ s.mark }
    ensures tag { (in_flow : Bool) (s : Cursor) (e : Refusal) → tag in_flow s ≡ Err e
        → e.mark ≡ s.mark }
    ensures separation { (tabs : SkipTabs) (s : Cursor) (e : Refusal) → separation tabs s ≡ Err e
        → IsRefusedInside s e }
    ensures directive { (s : Cursor) (e : Refusal) → slice_index s.rest 0 ≡ percent_sign
        → directive s ≡ Err e → IsRefusedInside s e }
    ensures quoted { (quote : Quote) (indent : ℕ) (s : Cursor) (e : Refusal)
        → slice_index s.rest 0 ≡ flow.mark quote → quoted quote indent s ≡ Err e
        → IsRefusedInside s e }
    ensures plain { (in_flow : Bool) (indent : ℕ) (s : Cursor) (e : Refusal)
        → plain in_flow indent s ≡ Err e → IsRefusedInside s e }
    ensures block_scalar { (style : BlockStyle) (indent : ℕ) (s : Cursor) (e : Refusal)
        → is_break (slice_index s.rest 0) ≡ false → 0 < length s.rest
        → block_scalar style indent s ≡ Err e → IsRefusedInside s e }
{}
