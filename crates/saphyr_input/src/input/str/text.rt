//! Reads the front of a text, by bytes as far as these are ASCII.
ghost use Rattle.std.specs.Prelude.{◌≡◌, ℕ, ◌+◌, ◌<◌, ◌≤◌, Bool, false, ◌==◌, ◌↔◌, IsTrue, IfNone, IfSome, refl, length, take, drop, slice_index};
ghost use Rattle.std.specs.List.{prefix_len, list_any};
ghost use Rattle.std.specs.Char.{len_utf8};
ghost use Rattle.std.specs.Str.{chars};
ghost use Rattle.saphyr_input.specs.Classes as class;
ghost use Rattle.saphyr_input.specs.Fronts as spec;
ghost use Rattle.saphyr_input.specs.Places as places;
ghost use Rattle.saphyr_input.specs.Separation as separation;

use crate::char_set::{CharSet, WordSet};
use crate::char_traits::is_blank_or_breakz;
use crate::input::SkipTabs;
use crate::input::str::wide::strip_wide;

// The first byte, and NUL at the end.
#[inline]
pub(super) fn first_byte(text: &str) -> char
    ensures { spec.StandsFor result (slice_index (chars text.now) 0) }
{
    text.as_bytes().first().copied().unwrap_or(0) as char
}

// The first character, or NUL at the end, and what follows it.
#[inline]
pub(super) fn split_first(text: &str) -> (char, &str)
    ensures first { result.0 ≡ slice_index (chars text.now) 0 }
    ensures rest { chars result.1.now ≡ drop 1 (chars text.now) }
{
    let mut rest = text.chars();
    let first = rest.next().unwrap_or('\0');
    (first, rest.as_str())
}

// The first character, or NUL at the end. For speed there is a call only if it isn't ASCII.
#[inline(always)]
pub(super) fn first_char(text: &str) -> char
    ensures { result ≡ slice_index (chars text.now) 0 }
{
    let first = first_byte(text);
    if first < '\u{80}' {
        first
    } else {
        nth_char(text, 0)
    }
}

// The second character, or NUL past the end.
#[inline]
pub(super) fn second_char(text: &str) -> char
    ensures { result ≡ slice_index (chars text.now) 1 }
{
    let bytes = text.as_bytes();
    if bytes.len() > 1 && bytes[0] < 0x80 && bytes[1] < 0x80 {
        return bytes[1] as char;
    }
    split_first(split_first(text).1).0
}

// The third character, or NUL past the end.
#[inline]
pub(super) fn third_char(text: &str) -> char
    ensures { result ≡ slice_index (chars text.now) 2 }
{
    let bytes = text.as_bytes();
    if bytes.len() > 2 && bytes[0] < 0x80 && bytes[1] < 0x80 && bytes[2] < 0x80 {
        return bytes[2] as char;
    }
    nth_char(text, 2)
}

// What follows a character that is ASCII.
#[inline(always)]
pub(super) fn behind_ascii(text: &str) -> &str
    requires some { 0 < length (chars text.now) }
    requires ascii { slice_index (chars text.now) 0 < 128 }
    ensures { chars result.now ≡ drop 1 (chars text.now) }
{
    &text[1..]
}

// The character at place `n`, or NUL past the end.
#[inline(never)]
pub(super) fn nth_char(text: &str, n: usize) -> char
    ensures { result ≡ slice_index (chars text.now) n }
{
    text.chars().nth(n).unwrap_or('\0')
}

// Whether the bytes begin with three of these marks, and then a blank, a break, NUL or the end.
#[inline]
fn bytes_begin_with_marker(bytes: &[u8], mark: u8) -> bool
    requires { 0 < mark }
    ensures { result ≡ spec.is_marker mark bytes.now }
{
    bytes.len() >= 3
        && bytes[0] == mark
        && bytes[1] == mark
        && bytes[2] == mark
        && (bytes.len() == 3 || is_blank_or_breakz(bytes[3] as char))
}

// Whether three of these marks come first, and then a blank, a break, NUL or the end.
#[inline]
pub(super) fn is_marker(text: &str, mark: u8) -> bool
    requires some { 0 < mark }
    requires ascii { mark < 128 }
    ensures { result ≡ spec.is_marker mark (chars text.now) }
{
    bytes_begin_with_marker(text.as_bytes(), mark)
}

// How many of the first bytes are ASCII characters of the class.
#[inline(always)]
fn ascii_len<C: CharSet>(bytes: &[u8]) -> usize
    ensures { result ≡ prefix_len (spec.ascii_in C.test) bytes.now }
{
    let mut len = 0;
    // Four bytes a turn, since a turn itself takes as many instructions as the test of a byte.
    'fours: while bytes.len() - len >= 4 {
        if !C::has_ascii(bytes[len]) {
            return len;
        }
        len += 1;
        if !C::has_ascii(bytes[len]) {
            return len;
        }
        len += 1;
        if !C::has_ascii(bytes[len]) {
            return len;
        }
        len += 1;
        if !C::has_ascii(bytes[len]) {
            return len;
        }
        len += 1;
    }
    'ones: while len < bytes.len() && C::has_ascii(bytes[len]) {
        len += 1;
    }
    len
}

// The run of the class up to its first character that isn't ASCII: how long it is, and what follows it.
#[inline(always)]
pub(super) fn ascii_run<C: CharSet>(text: &str) -> (usize, &str)
    ensures part { result.0 + prefix_len C.test (chars result.1.now)
        ≡ prefix_len C.test (chars text.now) }
    ensures whole { spec.IsAsciiClass C.test → result.0 ≡ prefix_len C.test (chars text.now) }
    ensures stops { spec.ascii_in C.test (slice_index result.1.now 0) ≡ false }
    ensures rest { chars result.1.now ≡ drop result.0 (chars text.now) }
{
    let count = ascii_len::<C>(text.as_bytes());
    (count, &text[count..])
}

// The longest run of the class: how many characters it has, and what follows it.
#[inline(never)]
pub(super) fn run<C: CharSet>(text: &str) -> (usize, &str)
    ensures count { result.0 ≡ prefix_len C.test (chars text.now) }
    ensures rest { chars result.1.now ≡ drop result.0 (chars text.now) }
{
    // There are fewer than 2^64 bytes, and no more characters than bytes.
    let _ = text.as_bytes();
    let (mut count, mut rest) = ascii_run::<C>(text);
    while let Some((wide, beyond)) = strip_wide::<C>(rest) {
        let (ascii, behind) = ascii_run::<C>(beyond);
        count += wide + ascii;
        rest = behind;
    }
    (count, rest)
}

// Whether the first character is not ASCII.
#[inline(always)]
fn begins_wide(text: &str) -> bool
    ensures { IsTrue result ↔ (128 ≤ slice_index text.now 0) }
{
    text.as_bytes().first().copied().unwrap_or(0) >= 0x80
}

// The run at the front of a text, for speed without a call if all its characters are ASCII.
#[inline(always)]
pub(super) fn run_here<C: CharSet>(text: &str) -> (usize, &str)
    ensures count { result.0 ≡ prefix_len C.test (chars text.now) }
    ensures rest { chars result.1.now ≡ drop result.0 (chars text.now) }
{
    // There are fewer than 2^64 bytes, and no more characters than bytes.
    let _ = text.as_bytes();
    let (ascii, rest) = ascii_run::<C>(text);
    if !begins_wide(rest) {
        return (ascii, rest);
    }
    let (more, behind) = run::<C>(rest);
    (ascii + more, behind)
}

// Whether the first character joins words.
#[inline(always)]
fn begins_joint<C: WordSet>(text: &str) -> bool
    ensures value { result ≡ C.joint (slice_index (chars text.now) 0)
        (slice_index (chars text.now) 1) }
    ensures ascii { IsTrue result → (0 < slice_index text.now 0) × (slice_index text.now 0 < 128) }
{
    let bytes = text.as_bytes();
    bytes.len() > 1 && C::joins(bytes[0], bytes[1])
}

// Takes off a character that joins words, or characters of the set of which the first isn't ASCII: how many, and what
// follows them.
#[inline(always)]
fn strip_piece<C: WordSet>(text: &str) -> Option<(usize, &str)>
    ensures none { IfNone result (spec.ascii_in C.CharSet.test (slice_index text.now 0) ≡ false
        → places.words_len C.CharSet.test C.joint (chars text.now) ≡ 0) }
    ensures some { IfSome result (λ piece. 0 < piece.0) }
    ensures part { IfSome result (λ piece.
        piece.0 + places.words_len C.CharSet.test C.joint (chars piece.1.now)
        ≡ places.words_len C.CharSet.test C.joint (chars text.now)) }
    ensures rest { IfSome result (λ piece. chars piece.1.now ≡ drop piece.0 (chars text.now)) }
{
    if begins_joint::<C>(text) {
        return Some((1, &text[1..]));
    }
    if !begins_wide(text) {
        return None;
    }
    let (count, rest) = run::<C>(text);
    if count > 0 { Some((count, rest)) } else { None }
}

// Words of a set, with what joins them: how many characters, and what follows them.
#[inline(always)]
pub(super) fn words<C: WordSet>(text: &str) -> (usize, &str)
    ensures count { result.0 ≡ places.words_len C.CharSet.test C.joint (chars text.now) }
    ensures rest { chars result.1.now ≡ drop result.0 (chars text.now) }
{
    // There are fewer than 2^64 bytes, and no more characters than bytes.
    let _ = text.as_bytes();
    let (mut count, mut rest) = ascii_run::<C>(text);
    while let Some((piece, beyond)) = strip_piece::<C>(rest) {
        let (ascii, behind) = ascii_run::<C>(beyond);
        count += piece + ascii;
        rest = behind;
    }
    (count, rest)
}

// How many of the first bytes are spaces, but no more than `most`.
#[inline]
pub(super) fn leading_spaces(bytes: &[u8], most: usize) -> usize
    ensures { result ≡ places.spaces_within most bytes.now }
{
    let mut count = 0;
    while count < most && count < bytes.len() && bytes[count] == b' ' {
        count += 1;
    }
    count
}

// The leading blanks: how many, and which were met.
#[derive(Clone, Copy)]
pub(super) struct Blanks {
    pub(super) count: usize,
    pub(super) tabs: bool,
    pub(super) spaces: bool,
}

// The leading spaces, and the tabs among them if they are asked for.
#[inline]
fn leading_blanks(bytes: &[u8], with_tabs: bool) -> Blanks
    ensures count { result.count ≡ prefix_len (spec.is_passed_blank with_tabs) bytes.now }
    ensures tabs { result.tabs ≡ list_any (λ c. c == class.tab) (take result.count bytes.now) }
    ensures spaces { result.spaces
        ≡ list_any (λ c. c == class.space) (take result.count bytes.now) }
{
    let mut tabs = false;
    let mut spaces = false;
    let mut count = 0;
    while count < bytes.len() {
        match bytes[count] {
            b' ' => spaces = true,
            b'\t' if with_tabs => tabs = true,
            _ => break,
        }
        count += 1;
    }
    Blanks {
        count,
        tabs,
        spaces,
    }
}

// The leading blanks, and what follows them.
#[inline]
pub(super) fn split_blanks(text: &str, skip_tabs: SkipTabs) -> (Blanks, &str)
    ensures count { result.0.count ≡ separation.blank_len skip_tabs (chars text.now) }
    ensures found { SkipTabs.Result result.0.tabs result.0.spaces
        ≡ separation.found_blanks skip_tabs (chars text.now) }
    ensures rest { chars result.1.now ≡ drop result.0.count (chars text.now) }
{
    let blanks = leading_blanks(text.as_bytes(), matches!(skip_tabs, SkipTabs::Yes));
    (blanks, &text[blanks.count..])
}
