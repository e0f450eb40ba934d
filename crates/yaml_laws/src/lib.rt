//! Laws of the texts of YAML's grammar: each gives tokens of its forest, and no fault, whatever its line breaks. Texts
//! of JSON are texts of this grammar.
//!
//! The functions are laws: they do nothing, and what matters is their proved clauses.
#![tactic(auto)]

ghost use Rattle.std.specs.Prelude.{◌≡◌, ◌≤◌, ◌<◌, ◌^◌, ◌++◌, ℕ, List, length, false, slice_index, encode_utf8_all};
ghost use Rattle.saphyr_input.specs.Breaks.{normalized};
ghost use Rattle.saphyr_input.specs.Classes.{is_break};
ghost use Rattle.saphyr_scalar.specs.Reading.BlockLines.{spaces};
ghost use Rattle.saphyr_scalar.specs.Reading.BlockText.{IsBlockText};
ghost use Rattle.saphyr_scalar.specs.Views.Cursor.{Cursor};
ghost use Rattle.scalar_laws.specs.Spelling.Spaces.{IsLineRest};
ghost use Rattle.saphyr_scanner.specs.Grammar.Forest.{Forest, open_in_forest};
ghost use Rattle.saphyr_scanner.specs.Limits.{most_open};
ghost use Rattle.saphyr_scanner.specs.Grammar.TokenGrammar.{Yields};
ghost use Rattle.saphyr_scanner.specs.Grammar.Tokens.{Kind};
ghost use Rattle.saphyr_scanner.specs.Steps.Remaining.{Scans, scan};
ghost use Rattle.yaml_laws.specs.Grammar.BlockNodes.{IsBlockScalarText};
ghost use Rattle.yaml_laws.specs.Grammar.ClosedTexts.{DocumentMarker, EndsWithMarker, HandsOut};
ghost use Rattle.yaml_laws.specs.Grammar.Json.{IsJson};
ghost use Rattle.yaml_laws.specs.Grammar.Yaml.{IsYamlText};
ghost use Rattle.yaml_laws.specs.SameKinds.{HaveSameKinds};

use saphyr_scalar::Marker;
use saphyr_scalar::scalar::{
    reads_block_texts, reads_plain_values, spells_each_directive, spells_each_property,
    spells_each_quoted,
};
use saphyr_scalar::values::BlockStyle;
use saphyr_scanner::law::takes_characters_off;
use scalar_laws::{
    passes_to_one_place, reads_breaks_alike, reads_each_anchor, reads_each_block_scalar,
    reads_each_directive, reads_each_plain_text, reads_each_quoted, reads_each_reserved_directive,
    reads_each_tag,
};

/// A text and its normalized text have tokens of the same kinds, and a refusal with the same text ends both
/// or none, whatever their limits at or above the text's length.
pub fn scans_breaks_alike()
    ensures { (limit other : ℕ) (text : List ℕ) → length text < 2 ^ 63 → length text ≤ limit
        → length text ≤ other → HaveSameKinds (scan limit text) (scan other (normalized text)) }
{
    reads_breaks_alike();
    reads_plain_values();
    spells_each_quoted();
    reads_block_texts();
    spells_each_property();
    spells_each_directive();
    takes_characters_off();
}

/// Each text of YAML's grammar, within the limit, gives tokens of its forest, and no fault.
pub fn scans_each_yaml_text()
    ensures { (limit : ℕ) (forest : Forest) (text : List ℕ) → IsYamlText most_open forest text
        → length text ≤ limit → length text < 2 ^ 63
        → (tokens : List Kind) × Yields forest tokens × Scans tokens (scan limit text) }
{
    scans_breaks_alike();
    reads_each_plain_text();
    reads_each_quoted();
    reads_each_block_scalar();
    reads_block_texts();
    passes_to_one_place();
    reads_each_anchor();
    reads_each_tag();
    reads_each_directive();
    reads_each_reserved_directive();
    takes_characters_off();
}

/// Let a text of YAML's grammar end with a line of `---` or `...`. Whatever follows its last break, the tokens up to
/// the marker's own come first, and are those of its forest.
pub fn hands_out_markers()
    ensures { (limit : ℕ) (marker : DocumentMarker) (forest : Forest) (text others : List ℕ)
        → IsYamlText most_open forest text → EndsWithMarker IsLineRest marker (normalized text)
        → normalized (text ++ others) ≡ normalized text ++ normalized others
        → length (text ++ others) ≤ limit → limit < 2 ^ 63
        → HandsOut marker forest (scan limit (text ++ others)) }
{
    scans_breaks_alike();
    reads_each_plain_text();
    reads_each_quoted();
    reads_each_block_scalar();
    reads_block_texts();
    passes_to_one_place();
    reads_each_anchor();
    reads_each_tag();
    reads_each_directive();
    reads_each_reserved_directive();
    takes_characters_off();
}

/// A block scalar of YAML's grammar, which describes its lines by the standard's productions, is also one by the
/// definition for any text (`IsBlockText`), with the same value. There the spaces that begin the line after it belong
/// to it.
pub fn agrees_on_block_scalars()
    ensures { (style : BlockStyle) (value : List ℕ) (indent : ℕ) (s : Cursor) (t behind : List ℕ)
        → IsBlockScalarText style value indent t behind → s.rest ≡ t ++ behind
        → is_break (slice_index s.rest 0) ≡ false
        → (n : ℕ) × (start : Marker) × (left : Cursor)
        × IsBlockText style indent s (encode_utf8_all value) start left
        × (behind ≡ spaces n ++ left.rest) }
{
    reads_each_block_scalar();
    reads_block_texts();
}

/// Each text of JSON is a text of YAML's grammar, with the same forest. At most `room` collections are
/// open in it at once, all in flow style.
pub fn is_yaml_text()
    ensures { (room : ℕ) (forest : Forest) (text : List ℕ) → IsJson forest text
        → open_in_forest forest ≤ room → IsYamlText room forest text }
{}
