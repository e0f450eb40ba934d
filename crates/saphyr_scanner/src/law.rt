//! Laws of the tokens of any text: all are taken from it, how many there are, and the places of tokens and refusals. A
//! scanner's promises depend on them.
ghost use Rattle.std.specs.Prelude.{◌≡◌, ◌≤◌, List, [], ℕ, length, ◌+◌, ◌*◌, ◌<◌, ◌^◌, false, Ok, Some};
ghost use Rattle.saphyr_input.specs.declared.input.SkipTabs.{SkipTabs};
ghost use Rattle.saphyr_input.specs.declared.input.SkipTabs.TheVariants.{Yes};
ghost use Rattle.saphyr_scalar.specs.Views.Cursor.{Cursor, start_cursor, separation};
ghost use Rattle.saphyr_scalar.specs.declared.scalar.fault.Refusal.{Refusal};
ghost use Rattle.saphyr_scanner.specs.Steps.Remaining.{scan};
ghost use Rattle.saphyr_scanner.specs.SpansInOrder.{AreInOrder};
ghost use Rattle.saphyr_scanner.specs.AtPlaces.{AreAtPlaces};
ghost use Rattle.saphyr_scanner.specs.Ends.{EndsWithStream};
ghost use Rattle.saphyr_scanner.specs.Steps.Gap as gaps;
ghost use Rattle.saphyr_scanner.specs.TakenOff.{Readers};
ghost use Rattle.saphyr_scanner.specs.TokensTaken.{AreApart, AreTakenFrom, AreTokens, LiesOnLine, IsPlaceOf, no_collections};
ghost use Rattle.saphyr_scanner.specs.Views.Tokens.{Piece};

mod came;

pub use came::steps_by_what_came;
use saphyr_scalar::scalar::{
    reads_block_texts, reads_plain_values, refuses_inside, spells_each_directive,
    spells_each_property, spells_each_quoted, takes_characters,
};

/// Each reader of a token takes characters off the text, so scanning ends. Like all laws it does nothing when it runs.
pub fn takes_characters_off()
    ensures { Readers }
{
    takes_characters();
}

/// The spans of a text's tokens come one after the other, within the text.
pub fn orders_spans()
    ensures { (limit : ℕ) (text : List ℕ) → AreInOrder (length text) 0 (scan limit text).pieces }
{
    reads_plain_values();
    spells_each_quoted();
    reads_block_texts();
    spells_each_property();
    spells_each_directive();
}

/// The end of the stream is the last token of a text and comes only there, unless a refusal ends the tokens
/// before it.
pub fn ends_with_the_stream()
    ensures { (limit : ℕ) (text : List ℕ) → EndsWithStream (scan limit text) }
{
    takes_characters_off();
}

/// A text has at most ten tokens, and five more for each character that the limit allows.
pub fn bounds_tokens()
    ensures { (limit : ℕ) (text : List ℕ) → length (scan limit text).pieces ≤ 5 * limit + 10 }
{
    reads_plain_values();
    spells_each_quoted();
    reads_block_texts();
    spells_each_property();
    spells_each_directive();
    takes_characters_off();
}

/// Only blanks, breaks and comments are passed between two tokens.
pub fn passes_separation()
    ensures gap { (least : ℕ) (s : Cursor) (g : gaps.GapEnd) → gaps.whole_gap least s ≡ Ok g
        → AreApart s g.cursor }
    ensures spaces { (s : Cursor) → AreApart s (gaps.spaces_at false s).cursor }
    ensures line { (s : Cursor) (x : SkipTabs × Cursor) → separation Yes s ≡ Ok x
        → AreApart s x.1 × LiesOnLine s x.1.mark }
{}

/// The tokens of a text are taken from it: up to the last token it is their spellings in order, with
/// only blanks, breaks and comments between them. If no refusal ends them, this is the whole text. If
/// one does, its place is in the text. Each token begins and ends at a place of it.
pub fn takes_all_tokens()
    ensures taken { (limit : ℕ) (text : List ℕ) → length text < 2 ^ 63
        → AreTakenFrom text (scan limit text) }
    ensures places { (limit : ℕ) (text : List ℕ) → length text < 2 ^ 63
        → AreAtPlaces text (scan limit text).pieces }
    ensures refusal { (limit : ℕ) (text : List ℕ) → length text < 2 ^ 63 → (e : Refusal)
        → (scan limit text).refusal ≡ Some e → IsPlaceOf text e.mark }
{
    reads_plain_values();
    spells_each_quoted();
    reads_block_texts();
    spells_each_property();
    spells_each_directive();
    takes_characters_off();
    refuses_inside();
}

/// Tokens that are taken from a text begin and end at places of it.
pub fn places_taken_tokens()
    ensures { (text : List ℕ) (pieces : List Piece) (end : Cursor)
        → AreTokens no_collections pieces (start_cursor text) end → AreAtPlaces text pieces }
{}
