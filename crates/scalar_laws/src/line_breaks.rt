//! Laws of the readers on the three kinds of line breaks (YAML 1.2.2, 5.4). By them, what holds of texts with line
//! feeds holds of all texts.

ghost use Rattle.std.specs.Prelude.{List, ℕ};
ghost use Rattle.saphyr_input.specs.Breaks.{normalized};
ghost use Rattle.saphyr_scalar.specs.Views.Cursor.{Cursor, start_cursor};
ghost use Rattle.scalar_laws.specs.Alike.{AreAlike, ReadsAlike};

/// Line breaks of all three kinds are read alike: a text and its normalized text begin at places
/// that correspond, and at such places each reader gives the same for both, or refuses both for the
/// same reason.
pub fn reads_breaks_alike()
    ensures begins { (text : List ℕ)
        → AreAlike text (start_cursor text) (start_cursor (normalized text)) }
    ensures reads { (text : List ℕ) (s t : Cursor) → AreAlike text s t → ReadsAlike text s t }
{}
