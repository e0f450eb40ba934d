//! Percent escapes in tags: the bytes of a character in UTF-8, each written as two digits (YAML 1.2.2, 5.6).

ghost use Rattle.std.specs.Prelude.{◌≡◌, ℕ, ◌+◌, ◌*◌, ◌<◌, ◌≤◌, ◌^◌, IfOk};
ghost use Rattle.saphyr_scalar.specs.Steps.Tag as spec;

use crate::scalar::fault::{FaultText, Refusal};
use crate::scalar::position::Marker;
use crate::scalar::reader::Reader;
use saphyr_input::char_traits::{as_hex, is_hex};
use saphyr_input::input::Input;

// How many bytes a character has whose UTF-8 begins with this byte, or 0 if there is none. Also what the byte says of
// the character.
#[tactic(auto, unfolding(crate::specs::Steps::Tag::utf8_width, crate::specs::Steps::Tag::leading_bits))]
fn leading_byte(byte: u32) -> (usize, u32)
    requires { byte < 256 }
    ensures width { result.0 ≡ spec.utf8_width byte }
    ensures bits { result.1 ≡ spec.leading_bits byte }
    ensures short { result.0 ≤ 4 }
    ensures small { result.1 < 192 }
{
    match byte {
        0x00..=0x7F => (1, byte),
        0xC0..=0xDF => (2, byte - 0xC0),
        0xE0..=0xEF => (3, byte - 0xE0),
        0xF0..=0xF7 => (4, byte - 0xF0),
        0xF8..=0xFF => (0, byte - 0xF0),
        _ => (0, byte),
    }
}

impl<T: Input> Reader<T> {
    ghost use Rattle.saphyr_scalar.specs.Views.Reader.{GivesBy};

    // Takes off the escape of one byte.
    #[tactic(auto, unfolding(crate::specs::Steps::Tag::escaped_byte))]
    fn read_escaped_byte(&mut self, start: Marker) -> Result<u32, Refusal>
        ensures value { GivesBy (spec.escaped_byte start) self.old result self.new }
        ensures small { IfOk result (λ byte. byte < 256) }
    {
        self.load(3);
        let high = self.input.peek_nth(1);
        let low = self.input.peek_nth(2);
        if self.input.peek() != '%' || !is_hex(high) || !is_hex(low) {
            return Err(Refusal {
                text: FaultText::TagEscape,
                mark: start,
                may_change: low == '\0',
            });
        }
        self.skip_n_non_blank(3);
        Ok(as_hex(high) * 16 + as_hex(low))
    }

    // Takes off the escape of a byte that is not the first of its character. Returns what it and the
    // bytes before it say.
    #[tactic(auto, unfolding(crate::specs::Steps::Tag::trailing_byte))]
    fn read_trailing_byte(&mut self, value: u32, start: Marker) -> Result<u32, Refusal>
        requires { value < 2 ^ 24 }
        ensures value { GivesBy (spec.trailing_byte start value) self.old result self.new }
        ensures small { IfOk result (λ grown. grown < 64 * value + 64) }
    {
        let byte = self.read_escaped_byte(start)?;
        match byte {
            0x80..=0xBF => Ok(value * 64 + (byte - 0x80)),
            _ => Err(Refusal {
                text: FaultText::TagEscapeTrailingByte,
                mark: start,
                may_change: false,
            }),
        }
    }

    // Takes off the escapes of this many bytes after the first one of a character.
    #[tactic(auto, unfolding(crate::specs::Steps::Tag::trailing_bytes))]
    fn read_trailing_bytes(
        &mut self,
        count: usize,
        bits: u32,
        start: Marker,
    ) -> Result<u32, Refusal>
        requires few { count ≤ 3 }
        requires small { bits < 256 }
        ensures { GivesBy (spec.trailing_bytes start count bits) self.old result self.new }
    {
        let mut value = bits;
        for _ in 0..count {
            value = self.read_trailing_byte(value, start)?;
        }
        Ok(value)
    }

    // Takes off a percent escape, and returns its character (YAML 1.2.2, 5.6).
    #[tactic(auto, unfolding(crate::specs::Steps::Tag::percent_escape, crate::specs::Steps::Tag::behind_leading_byte, crate::specs::Steps::Tag::encoded_character))]
    pub(crate) fn read_percent_escape(&mut self, start: Marker) -> Result<char, Refusal>
        ensures { GivesBy (spec.percent_escape start) self.old result self.new }
    {
        let first = self.read_escaped_byte(start)?;
        let (width, bits) = leading_byte(first);
        if width == 0 {
            return Err(Refusal {
                text: FaultText::TagEscapeLeadingByte,
                mark: start,
                may_change: false,
            });
        }
        let value = self.read_trailing_bytes(width - 1, bits, start)?;
        match char::from_u32(value) {
            Some(c) if c.len_utf8() == width => Ok(c),
            _ => Err(Refusal {
                text: FaultText::TagEscapeCodePoint,
                mark: start,
                may_change: false,
            }),
        }
    }
}
