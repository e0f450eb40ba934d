//! Reads characters that are not ASCII at the front of a text. Mostly the first byte of each tells whether it is in a
//! class.

ghost use Rattle.std.specs.Prelude.{◌≡◌, ℕ, ◌+◌, ◌<◌, ◌≤◌, false, IsTrue, IfNone, IfSome, drop, slice_index};
ghost use Rattle.std.specs.List.{prefix_len};
ghost use Rattle.std.specs.Char.{len_utf8};
ghost use Rattle.std.specs.Str.{chars};
ghost use Rattle.saphyr_input.specs.Fronts as spec;

use crate::char_set::CharSet;
use crate::input::str::text::split_first;

// How many bytes a character has whose UTF-8 begins with the byte, which is not ASCII.
#[inline(always)]
fn wide_len(byte: u8) -> usize
    requires { 128 ≤ byte }
    ensures { (c : ℕ) → spec.IsFirstByte byte c → result ≡ len_utf8 c }
{
    if byte < 0xE0 {
        2
    } else if byte < 0xF0 {
        3
    } else {
        4
    }
}

// Whether a character of `size` bytes begins with the byte, and is in the class by it.
#[inline(always)]
fn is_sized<C: CharSet>(byte: u8, size: usize) -> bool
    ensures { IsTrue result → spec.IsSized C.test byte size }
{
    if byte < 0x80 {
        return false;
    }
    wide_len(byte) == size && C::has_wide(byte)
}

// The first character, which has `size` bytes and is in the class by the first of them, and those of the same kind
// right behind it: how many, and what follows them.
#[inline(always)]
fn sized_run<C: CharSet>(text: &str, size: usize) -> (usize, &str)
    requires first { spec.IsSized C.test (slice_index text.now 0) size }
    ensures some { 0 < result.0 }
    ensures part { result.0 + prefix_len C.test (chars result.1.now)
        ≡ prefix_len C.test (chars text.now) }
    ensures rest { chars result.1.now ≡ drop result.0 (chars text.now) }
{
    let bytes = text.as_bytes();
    let mut count = 1;
    let mut at = size;
    while at < bytes.len() && is_sized::<C>(bytes[at], size) {
        count += 1;
        at += size;
    }
    (count, &text[at..])
}

// Characters of the class that come first and are not ASCII: how many, and what follows them.
#[inline(always)]
pub(super) fn strip_wide<C: CharSet>(text: &str) -> Option<(usize, &str)>
    ensures none { IfNone result (spec.ascii_in C.test (slice_index text.now 0) ≡ false
        → prefix_len C.test (chars text.now) ≡ 0) }
    ensures some { IfSome result (λ wide. 0 < wide.0) }
    ensures part { IfSome result (λ wide. wide.0 + prefix_len C.test (chars wide.1.now)
        ≡ prefix_len C.test (chars text.now)) }
    ensures rest { IfSome result (λ wide. chars wide.1.now ≡ drop wide.0 (chars text.now)) }
{
    let byte = text.as_bytes().first().copied().unwrap_or(0);
    if byte < 0x80 {
        return None;
    }
    if !C::has_wide(byte) {
        let (first, rest) = split_first(text);
        if !C::has(first) {
            return None;
        }
        return Some((1, rest));
    }
    // For speed: most characters need not be put together from their bytes, and a loop for characters of one
    // length has few instructions.
    match wide_len(byte) {
        2 => Some(sized_run::<C>(text, 2)),
        3 => Some(sized_run::<C>(text, 3)),
        size => Some(sized_run::<C>(text, size)),
    }
}
