//! Bytes, numbers and escaped texts, written whole, however few bytes a writer takes at a time.

ghost use Rattle.std.specs.Prelude.{◌≡◌, ◌+◌, ◌≤◌, true, false, [], ◌∷◌, ◌++◌, length};
ghost use Rattle.std.specs.Fmt.{decimal};
ghost use Rattle.saphyr_parser.specs.Written.{Takes};
ghost use Rattle.saphyr_parser.specs.Printed.{ArePlain, printed_byte, printed_bytes};

use std::io::Write;
use std::simd::prelude::*;

/// The writer returned an error, or took none of some bytes.
#[derive(Clone, Copy)]
pub struct Unwritten;

// Writes all bytes. Most writers take them at once, and that case is inlined.
#[inline(always)]
#[tactic(auto, using(crate::proofs::Printed::Written::takes_nothing))]
pub(super) fn write_all<W: Write>(out: &mut W, bytes: &[u8]) -> Result<(), Unwritten>
    ensures { Takes result (W.contents out.old) (W.contents out.new) bytes.now }
{
    if bytes.is_empty() {
        return Ok(());
    }
    match out.write(bytes) {
        Ok(count) if count == bytes.len() => Ok(()),
        Ok(0) | Err(_) => Err(Unwritten),
        Ok(count) => write_rest(out, &bytes[count..]),
    }
}

// Writes all bytes, however few the writer takes at a time.
#[inline(never)]
#[tactic(auto, using(crate::proofs::Printed::Written::takes_all, crate::proofs::Printed::Written::takes_none))]
fn write_rest<W: Write>(out: &mut W, bytes: &[u8]) -> Result<(), Unwritten>
    ensures { Takes result (W.contents out.old) (W.contents out.new) bytes.now }
{
    let mut rest = bytes;
    while !rest.is_empty() {
        match out.write(rest) {
            Ok(0) | Err(_) => return Err(Unwritten),
            Ok(count) => rest = &rest[count..],
        }
    }
    Ok(())
}

// Writes a number in decimal.
pub(super) fn write_number<W: Write>(out: &mut W, number: u128) -> Result<(), Unwritten>
    ensures { Takes result (W.contents out.old) (W.contents out.new) (decimal number) }
{
    let digit = [b'0' + (number % 10) as u8];
    if number < 10 {
        return write_all(out, &digit);
    }
    write_number(out, number / 10)?;
    write_all(out, &digit)
}

// Writes the id of an anchor in decimal, two digits at a time, since each write costs more than a digit.
pub(super) fn write_id<W: Write>(out: &mut W, id: usize) -> Result<(), Unwritten>
    ensures { Takes result (W.contents out.old) (W.contents out.new) (decimal id) }
{
    let digits = [b'0' + (id / 10 % 10) as u8, b'0' + (id % 10) as u8];
    if id < 10 {
        return write_all(out, &digits[1..]);
    }
    if id < 100 {
        return write_all(out, &digits);
    }
    write_id(out, id / 100)?;
    write_all(out, &digits)
}

// Whether a byte of a scalar's text may need an escape. It is also true for some rare bytes that need none.
#[inline]
fn is_escaped(byte: u8) -> bool
    ensures { result ≡ false → printed_byte byte ≡ byte ∷ [] }
{
    byte <= b'\r' || byte == b'\\'
}

// If this is true, none of N bytes is escaped.
#[inline(always)]
fn is_plain_block<const N: usize>(text: &[u8], start: usize) -> bool
    requires { (N ≤ 64) × (start + N ≤ length text.now) }
    ensures { result ≡ true → ArePlain text.now start (start + N) }
{
    let block = Simd::<u8, N>::from_slice(&text[start..]);
    block.simd_le(Simd::splat(b'\r')).to_bitmask() == 0
        && block.simd_eq(Simd::splat(b'\\')).to_bitmask() == 0
}

// The bytes before the first that is escaped, and the others.
#[tactic(auto, using(crate::proofs::Printed::Escapes::plain_more, crate::proofs::Printed::Blocks::plain_up_to))]
fn split_plain(text: &[u8]) -> (&[u8], &[u8])
    ensures text { text.now ≡ result.0.now ++ result.1.now }
    ensures plain { printed_bytes result.0.now ≡ result.0.now }
{
    let mut count = 0;
    while text.len() - count >= 16 && is_plain_block::<16>(text, count) {
        count += 16;
    }
    while count < text.len() && !is_escaped(text[count]) {
        count += 1;
    }
    text.split_at(count)
}

// If this is true, none of the first bytes of a line is escaped.
#[inline(always)]
pub(super) fn is_plain_up_to(line: &[u8; 64], end: usize) -> bool
    requires { end ≤ 64 }
    ensures { result ≡ true → ArePlain line.now 0 end }
{
    is_plain_block::<16>(line, 0)
        && (end <= 16 || is_plain_block::<16>(line, 16))
        && (end <= 32 || is_plain_block::<32>(line, 32))
}

// Copies a text of N to 2 * N bytes: its first N and its last N, which may overlap.
#[inline(always)]
fn copy_ends<const N: usize>(text: &[u8], room: &mut [u8])
    requires count { (N ≤ length text.now) × (length text.now ≤ N + N) }
    requires room { length room.old ≡ length text.now }
    ensures { room.new ≡ text.now }
{
    let last = text.len() - N;
    room[..N].copy_from_slice(&text[..N]);
    room[last..].copy_from_slice(&text[last..]);
}

// Copies a text of some bytes. A short one is copied by words that may overlap, which costs less than a call.
#[inline(always)]
pub(super) fn copy(text: &[u8], room: &mut [u8])
    requires { length room.old ≡ length text.now }
    ensures { room.new ≡ text.now }
{
    match text.len() {
        4..8 => copy_ends::<4>(text, room),
        8..16 => copy_ends::<8>(text, room),
        16..32 => copy_ends::<16>(text, room),
        _ => room.copy_from_slice(text),
    }
}

// Copies a text of few bytes one by one, and returns whether none is escaped. After `false` the room has some of them.
#[inline(always)]
pub(super) fn copies_plain(text: &[u8], room: &mut [u8]) -> bool
    requires { length room.old ≡ length text.now }
    ensures same { length room.new ≡ length text.now }
    ensures copied { result ≡ true → room.new ≡ text.now }
    ensures plain { result ≡ true → printed_bytes text.now ≡ text.now }
{
    let mut count = 0;
    while count < text.len() {
        if is_escaped(text[count]) {
            return false;
        }
        room[count] = text[count];
        count += 1;
    }
    true
}

// Writes one byte's escape, or the byte if it has none.
fn write_escape<W: Write>(out: &mut W, byte: u8) -> Result<(), Unwritten>
    ensures { Takes result (W.contents out.old) (W.contents out.new) (printed_byte byte) }
{
    match byte {
        b'\\' => write_all(out, b"\\\\"),
        b'\n' => write_all(out, b"\\n"),
        b'\r' => write_all(out, b"\\r"),
        b'\x08' => write_all(out, b"\\b"),
        b'\t' => write_all(out, b"\\t"),
        _ => write_all(out, &[byte]),
    }
}

// Writes a scalar's text. A run without escapes is written in one piece.
#[tactic(auto, using(crate::proofs::Printed::Escapes::plain_written, crate::proofs::Printed::Escapes::plain_lost))]
pub(super) fn write_escaped<W: Write>(out: &mut W, text: &[u8]) -> Result<(), Unwritten>
    ensures { Takes result (W.contents out.old) (W.contents out.new) (printed_bytes text.now) }
{
    let mut rest = text;
    while !rest.is_empty() {
        let (plain, others) = split_plain(rest);
        write_all(out, plain)?;
        let Some((byte, behind)) = others.split_first() else {
            return Ok(());
        };
        write_escape(out, *byte)?;
        rest = behind;
    }
    Ok(())
}
