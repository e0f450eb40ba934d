//! Sets of characters. An input takes off a run of such characters in one piece.
ghost use Rattle.std.specs.Prelude.{◌≡◌, ℕ, ◌<◌, ◌≤◌, ◌||◌, Bool, false, IsTrue, refl};
ghost use Rattle.saphyr_input.specs.Classes as class;
ghost use Rattle.saphyr_input.specs.Fronts as spec;

use crate::char_traits::{is_alpha, is_blank, is_yaml_non_break, is_yaml_non_space};

/// A set of characters without NUL, whose runs an input takes off.
pub trait CharSet {
    /// Whether a character is in the set.
    ghost test: { ℕ → Bool };

    /// Whether the character is in the set.
    fn has(c: char) -> bool
        ensures { result ≡ test c };

    /// Whether the byte is an ASCII character of the set.
    fn has_ascii(byte: u8) -> bool
        ensures { result ≡ spec.ascii_in test byte }
    {
        Self::has(byte as char) && byte < 0x80
    }

    /// Whether each character whose UTF-8 begins with the byte is in the set, as far as that is known. The
    /// byte is not ASCII.
    fn has_wide(_byte: u8) -> bool
        requires { 128 ≤ _byte }
        ensures { IsTrue result → (c : ℕ) → spec.IsFirstByte _byte c → IsTrue (test c) }
    {
        false
    }

    /// NUL is not in the set, since each place past the end of an input reads as NUL.
    ghost without_nul: { test 0 ≡ false };
}

/// A set whose runs may be joined by other characters, by single spaces for example.
pub trait WordSet: CharSet {
    /// Whether the first of two characters, which is not of the set, joins a run to what begins with the second.
    ghost joint: { ℕ → ℕ → Bool };

    /// Whether a character joins a run to what follows. Both are told by bytes that stand for them.
    fn joins(byte: u8, next: u8) -> bool
        ensures value { (c d : ℕ) → spec.StandsFor byte c → (byte < 128 → spec.StandsFor next d)
            → result ≡ joint c d }
        ensures ascii { IsTrue result → (0 < byte) × (byte < 128) };

    /// Nothing is joined to the end, which reads as NUL.
    ghost without_end: { (c : ℕ) → joint c 0 ≡ false };
}

// A byte that stands for the character.
#[inline]
fn byte_for(c: char) -> u8
    ensures { spec.StandsFor result c }
{
    if c < '\u{80}' { c as u8 } else { 0x80 }
}

// Whether words go on with `c`, where `next` follows.
#[inline]
pub(crate) fn goes_on<C: WordSet>(c: char, next: char) -> bool
    ensures value { result ≡ (C.CharSet.test c || C.joint c next) }
    ensures some { IsTrue result → 0 < c }
{
    C::has(c) || C::joins(byte_for(c), byte_for(next))
}

/// White space: spaces and tabs.
pub struct Blank;

impl CharSet for Blank {
    ghost test = { class.is_blank };

    ghost without_nul = { refl };

    #[inline]
    fn has(c: char) -> bool {
        is_blank(c)
    }
}

/// Digits, ASCII letters, `_` and `-`.
pub struct Alpha;

impl CharSet for Alpha {
    ghost test = { class.is_alpha };

    ghost without_nul = { refl };

    #[inline]
    fn has(c: char) -> bool {
        is_alpha(c)
    }
}

/// All but NUL, the line breaks and the byte order mark.
pub struct NonBreak;

impl CharSet for NonBreak {
    ghost test = { class.is_yaml_non_break };

    ghost without_nul = { refl };

    #[inline]
    fn has(c: char) -> bool {
        is_yaml_non_break(c)
    }

    #[inline(always)]
    fn has_wide(byte: u8) -> bool {
        // The byte order mark, which is not in the set, begins with it.
        byte != 0xEF
    }

    #[inline]
    fn has_ascii(byte: u8) -> bool {
        if byte > b'\r' {
            byte < 0x80
        } else {
            is_yaml_non_break(byte as char)
        }
    }
}

/// All but NUL, white space, the line breaks and the byte order mark.
pub struct NonSpace;

impl CharSet for NonSpace {
    ghost test = { class.is_yaml_non_space };

    ghost without_nul = { refl };

    #[inline]
    fn has(c: char) -> bool {
        is_yaml_non_space(c)
    }

    #[inline(always)]
    fn has_wide(byte: u8) -> bool {
        // The byte order mark, which is not in the set, begins with it.
        byte != 0xEF
    }

    #[inline]
    fn has_ascii(byte: u8) -> bool {
        if byte > b' ' {
            byte < 0x80
        } else {
            is_yaml_non_space(byte as char)
        }
    }
}
