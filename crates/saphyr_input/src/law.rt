//! The law by which an input can be made from the `chars` of a text.
ghost use Rattle.std.specs.Str.{chars};
ghost use Rattle.std.specs.Str.Iter.{chars_rest};
ghost use Rattle.saphyr_input.specs.Listed.{Lists, Listed};

use std::str::Chars;

/// The calls of `next` on the characters of a text give one list, those that are left, and then `None`.
/// So a `BufferedInput` may be made over `text.chars()`.
pub fn lists_characters<'a>(iter: &Chars<'a>)
    ensures lists { Lists ⟦<Chars<'a> as Iterator>⟧.can_next ⟦<Chars<'a> as Iterator>⟧.next_gives
        iter.now (chars (chars_rest iter.now)) }
    ensures listed { Listed ⟦<Chars<'a> as Iterator>⟧.can_next ⟦<Chars<'a> as Iterator>⟧.next_gives
        iter.now }
{
    // What is left is UTF-8.
    let _ = iter.as_str();
}
