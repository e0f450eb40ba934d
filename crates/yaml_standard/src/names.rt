//! Names of anchors, handles of tags, and the numbers of a version (YAML 1.2.2, 6.8 and 6.9).
ghost use Rattle.std.specs.Prelude.{refl};
ghost use Rattle.std.specs.Str.{chars};
ghost use Rattle.saphyr_input.specs.Classes as class;
ghost use Rattle.saphyr_scalar.specs.Spelling.Tag as spec;
ghost use Rattle.yaml_standard.specs.Takes.{IfTakes};

use crate::front::{behind_run, behind_some, split, strip};
use saphyr_input::CharSet;
use saphyr_input::char_set::Alpha;
use saphyr_input::char_traits::is_anchor_char;

// The characters of an anchor's name.
struct AnchorSet;

impl CharSet for AnchorSet {
    ghost test = { class.is_anchor_char };

    ghost without_nul = { refl };

    fn has(c: char) -> bool {
        is_anchor_char(c)
    }

    fn has_ascii(byte: u8) -> bool {
        byte < 0x80 && is_anchor_char(byte as char)
    }
}

/// What follows the name of an anchor, or of an alias, from behind its indicator on.
pub(crate) fn behind_anchor_name(text: &str) -> Option<&str>
    ensures { IfTakes spec.IsAnchorName (chars text.now) result }
{
    behind_some::<AnchorSet>(text)
}

/// The text from the first `_` of a handle on. The grammar allows one, and the standard doesn't ([92]).
pub(crate) fn underscore_in_handle(text: &str) -> Option<&str> {
    let word = strip(text, '!')?;
    let end = behind_run::<Alpha>(word);
    strip(end, '!')?;
    let mut rest = word;
    for _ in end.len()..word.len() {
        let (c, behind) = split(rest)?;
        if c == '_' {
            return Some(rest);
        }
        rest = behind;
    }
    None
}

/// What follows a handle: `!`, or the longer one where it is there.
pub(crate) fn behind_handle(text: &str) -> Option<&str>
    ensures { IfTakes spec.IsHandleText (chars text.now) result }
{
    if underscore_in_handle(text).is_some() {
        return None;
    }
    let word = strip(text, '!')?;
    match strip(behind_run::<Alpha>(word), '!') {
        None => Some(word),
        Some(rest) => Some(rest),
    }
}
