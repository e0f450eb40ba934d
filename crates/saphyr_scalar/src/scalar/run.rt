//! Runs of a set of characters, moved from a text to the end of another.

ghost use Rattle.std.specs.Prelude.{◌≡◌, ◌≤◌, slice_index, string_bytes, IfOk, OnOk, Ok};
ghost use Rattle.saphyr_scalar.specs.Steps.Quoted as spec;

use crate::scalar::fault::Stop;
use crate::scalar::reader::Reader;
use saphyr_input::char_set::{Blank, CharSet, WordSet};
use saphyr_input::char_traits::is_break;
use saphyr_input::input::Input;
use std::alloc::AllocError;

impl<T: Input> Reader<T> {
    ghost use Rattle.saphyr_scalar.specs.Views.Reader.{cursor_of, loaded, AppendsBy, WritesBy};

    // Moves a run of a set. Whether only blanks are before the place stays as it is.
    #[inline]
    pub(crate) fn move_run<C: CharSet>(&mut self, text: &mut String) -> Result<(), Stop>
        ensures { AppendsBy (spec.with_front_run C.test) text.old self.old result text.new
            self.new }
    {
        let count = self.input.fetch_while::<C>(text)?;
        self.mark = self.mark.along(count);
        Ok(())
    }

    // Moves a run of a set, after which the place is behind more than blanks.
    #[inline]
    pub(crate) fn read_run<C: CharSet>(&mut self, text: &mut String) -> Result<(), Stop>
        ensures { AppendsBy (spec.with_run C.test) text.old self.old result text.new self.new }
    {
        self.move_run::<C>(text)?;
        self.blank_so_far = false;
        Ok(())
    }

    // Moves words of a set to the end of a text, and returns the character that comes next.
    #[inline(always)]
    pub(crate) fn move_words<C: WordSet>(&mut self, text: &mut String) -> Result<char, AllocError>
        ensures moved { OnOk result (spec.WordsMoved C.CharSet.test C.joint (string_bytes text.old)
            (string_bytes text.new) (cursor_of self.old) (cursor_of self.new)) }
        ensures next { IfOk result (λ c. c ≡ slice_index (cursor_of self.new).rest 0) }
        ensures loaded { 1 ≤ loaded self.new }
    {
        let (count, c) = self.input.fetch_words::<C>(text)?;
        self.mark = self.mark.along(count);
        self.blank_so_far = false;
        Ok(c)
    }

    // Moves blanks to the end of a text, unless they end their line, and returns the character behind them.
    #[inline]
    pub(crate) fn read_blanks(&mut self, text: &mut String) -> Result<char, Stop>
        ensures moved { WritesBy spec.seen_blanks (λ text s. Ok (spec.with_blanks text s)) text.old
            self.old result text.new self.new }
        ensures next { IfOk result (λ c. c ≡ slice_index (cursor_of self.new).rest 0) }
        ensures loaded { OnOk result (1 ≤ loaded self.new) }
    {
        let before = text.len();
        self.read_run::<Blank>(text)?;
        let c = self.look();
        if !is_break(c) {
            return Ok(c);
        }
        text.truncate(before);
        Ok(c)
    }
}
