//! Laws of the readers of plain and quoted scalars in the standard's words (YAML 1.2.2, 7.3): what is spelled so is
//! read.

ghost use Rattle.std.specs.Prelude.{◌≡◌, ℕ, Bool, false, List, ◌++◌, Ok, encode_utf8_all};
ghost use Rattle.saphyr_scalar.specs.declared.scalar.position.Marker.{Marker};
ghost use Rattle.saphyr_scalar.specs.Views.Cursor.{Cursor};
ghost use Rattle.saphyr_scalar.specs.Steps.Quoted.{quoted, mid_line};
ghost use Rattle.saphyr_scalar.specs.Spelling.Quoted.{IsQuotedText};
ghost use Rattle.saphyr_scalar.specs.Values.Flow.{plain_value};
ghost use Rattle.saphyr_scalar.specs.Passing.{IsPassed};
ghost use Rattle.scalar_laws.specs.Spelling.QuotedLines.{LinesFit};
ghost use Rattle.saphyr_input.specs.Breaks.{normalized};
ghost use Rattle.saphyr_scalar.specs.Values.Folding.{folded};
ghost use Rattle.saphyr_scalar.specs.Steps.Plain.{plain, comment_of};
ghost use Rattle.saphyr_scalar.specs.Reading.Plain.{end_of_text};
ghost use Rattle.scalar_laws.specs.Spelling.Plain.{IsPlainText, is_tabbed, past_white};

use saphyr_scalar::Marker;
use saphyr_scalar::values::{Item, Quote};

/// If a quoted scalar is spelled, and its later lines are indented as they must be, it is read, without a
/// fault: its value is the reading of what it spells, and the reader is at the place and the text after
/// it.
pub fn reads_each_quoted()
    ensures { (quote : Quote) (indent : ℕ) (s : Cursor) (items : List Item) (x : List ℕ)
        (is : IsQuotedText quote s.rest items x) → LinesFit indent quote is.0 items x is.2
        → (m : Marker) × IsPassed s.mark s.rest m x
        × (quoted quote indent s ≡ Ok (encode_utf8_all (folded items), mid_line m x)) }
{}

/// Only the characters and line breaks of what is passed decide the place after it.
pub fn passes_to_one_place()
    ensures { (m : Marker) (s : List ℕ) (n : Marker) (u : List ℕ) → IsPassed m s n u → (k : Marker)
        → IsPassed m s k u → k ≡ n }
{}

/// If blanks, breaks and what ends it follow a plain scalar of words and lines, its value is read,
/// without a fault, inside flow and outside, up to the place after it.
pub fn reads_each_plain_text()
    ensures { (in_flow : Bool) (indent : ℕ) (s : Cursor) (text x : List ℕ) → s.rest ≡ text ++ x
        → IsPlainText in_flow indent s.mark text x → let end =
        end_of_text s.mark text in let behind =
        past_white end false x in plain in_flow indent s
        ≡ Ok (
          encode_utf8_all (plain_value (normalized text)),
          end,
          comment_of in_flow (is_tabbed indent x) behind,
          behind,
        ) }
{}
