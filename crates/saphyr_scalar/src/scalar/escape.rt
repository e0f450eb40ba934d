//! The escapes of double quoted scalars, taken off a text (YAML 1.2.2, 5.7).

ghost use Rattle.std.specs.Prelude.{◌≡◌, ◌≤◌, false, slice_index};
ghost use Rattle.saphyr_input.specs.Indicators.{backslash};
ghost use Rattle.saphyr_scalar.specs.Steps.Quoted as spec;

use crate::scalar::fault::{FaultText, Refusal};
use crate::scalar::position::Marker;
use crate::scalar::reader::Reader;
use crate::values::{digit_count, short_escape};
use saphyr_input::char_traits::{as_hex, is_hex};
use saphyr_input::input::Input;

impl<T: Input> Reader<T> {
    ghost use Rattle.saphyr_scalar.specs.Views.Reader.{cursor_of, loaded, GivesBy};

    // Takes off this many hexadecimal digits, and returns their value. The place moves once behind them.
    #[inline(always)]
    fn read_digits(&mut self, count: usize, start: Marker) -> Result<u32, Refusal>
        requires few { count ≤ 8 }
        requires on_line { (cursor_of self.old).blank_so_far ≡ false }
        ensures { GivesBy (spec.digits start count 0) self.old result self.new }
    {
        let mut value = 0;
        for _ in 0..count {
            let c = self.look();
            if !is_hex(c) {
                return Err(Refusal {
                    text: FaultText::HexadecimalDigitExpected,
                    mark: start,
                    may_change: c == '\0',
                });
            }
            self.input.skip();
            value = value * 16 + as_hex(c);
        }
        self.mark = self.mark.along(count);
        Ok(value)
    }

    // Takes off an escape, from its backslash on, and returns its character. `letter` comes behind the backslash.
    #[inline(always)]
    #[tactic(auto, unfolding(crate::specs::Steps::Quoted::escaped_character, crate::specs::Steps::Quoted::escape_of, crate::specs::Steps::Quoted::escape_by_number, crate::specs::Steps::Quoted::character))]
    pub(super) fn read_escape(&mut self, letter: char, start: Marker) -> Result<char, Refusal>
        requires first { slice_index (cursor_of self.old).rest 0 ≡ backslash }
        requires second { letter ≡ slice_index (cursor_of self.old).rest 1 }
        requires loaded { 2 ≤ loaded self.old }
        ensures { GivesBy (spec.escaped_character start) self.old result self.new }
    {
        if let Some(c) = short_escape(letter) {
            self.skip_two_ascii();
            return Ok(c);
        }
        let Some(count) = digit_count(letter) else {
            return Err(Refusal {
                text: FaultText::UnknownEscape,
                mark: start,
                may_change: letter == '\0',
            });
        };
        self.skip_n_non_blank(2);
        let value = self.read_digits(count, start)?;
        match char::from_u32(value) {
            Some(c) => Ok(c),
            None => Err(Refusal {
                text: FaultText::EscapedCodePoint,
                mark: start,
                may_change: false,
            }),
        }
    }
}
