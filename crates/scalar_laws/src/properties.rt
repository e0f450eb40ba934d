//! Laws of the readers of anchors, aliases and tags in the standard's words: what is spelled so is read (YAML 1.2.2,
//! 6.9 and 7.1).

ghost use Rattle.std.specs.Prelude.{◌≡◌, ℕ, ◌+◌, Bool, false, List, ◌∷◌, ◌++◌, length, Ok, encode_utf8_all, slice_index};
ghost use Rattle.saphyr_input.specs.Classes.{is_anchor_char};
ghost use Rattle.saphyr_scalar.specs.Views.Cursor.{Cursor, along};
ghost use Rattle.saphyr_scalar.specs.Steps.Quoted.{mid_line};
ghost use Rattle.saphyr_scalar.specs.Steps.Anchor.{anchor};
ghost use Rattle.saphyr_scalar.specs.Steps.Tag.{tag};
ghost use Rattle.saphyr_scalar.specs.Spelling.Tag.{IsAnchorName, IsTagText, EndsTag};

/// If an anchor or an alias is spelled after its indicator, its name is read, without a fault.
pub fn reads_each_anchor()
    ensures { (s : Cursor) (indicator : ℕ) (name x : List ℕ) → s.rest ≡ indicator ∷ (name ++ x)
        → IsAnchorName name → is_anchor_char (slice_index x 0) ≡ false
        → anchor s ≡ Ok (encode_utf8_all name, mid_line (along s.mark (1 + length name)) x) }
{}

/// If a tag is spelled, and what ends a tag follows, it is read, without a fault.
pub fn reads_each_tag()
    ensures { (in_flow : Bool) (s : Cursor) (t handle suffix x : List ℕ) → s.rest ≡ t ++ x
        → IsTagText t handle suffix → EndsTag in_flow x
        → tag in_flow s ≡ Ok (
          encode_utf8_all handle,
          encode_utf8_all suffix,
          mid_line
              (along s.mark (length t)) x,
        ) }
{}
