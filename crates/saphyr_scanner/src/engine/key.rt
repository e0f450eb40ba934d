//! Tokens that may become keys: a key without `?` is known by the colon after it (YAML 1.2.2, 7.4.2 and
//! 8.2.2).

ghost use Rattle.std.specs.Prelude.{◌≡◌, ◌&&◌, Ok, ◌<◌, length};
ghost use Rattle.saphyr_scanner.specs.Steps.Core as spec;
ghost use Rattle.saphyr_scanner.specs.Steps.State as spec_state;

use crate::engine::{Candidate, Engine};
use crate::stopped::Stopped;
use saphyr_input::input::Input;
use saphyr_scalar::FaultText;

// How far after its start a key outside flow may have its colon.
const LONGEST_KEY: usize = 1024;

impl<T: Input> Engine<T> {
    ghost use Rattle.saphyr_scanner.specs.Views.Engine.{state, CarriesBy};
    ghost use Rattle.saphyr_scanner.specs.Steps.Queue.{next};

    // The token that comes next may be a key, if one is allowed.
    #[inline(always)]
    pub(super) fn save_key(&mut self)
        requires { 0 < length (state self.old).core.cursor.rest }
        ensures { state self.new ≡ spec_state.with_core
            (spec.save_key (next (state self.old).queue) (state self.old).core) (state self.old) }
    {
        if !self.key_allowed {
            return;
        }
        let mark = self.reader.mark();
        let place = self.queue.next();
        if self.in_block() {
            self.required = !self.deeper && self.indent == mark.col + 1;
        }
        self.level.key = Candidate { mark, place };
        self.level.has_key = true;
    }

    // No token of the level may be a key any more.
    #[inline(always)]
    pub(super) fn forget_key(&mut self)
        ensures { state self.new ≡ spec_state.with_core (spec.forget_key (state self.old).core)
            (state self.old) }
    {
        self.level.has_key = false;
        if self.in_block() {
            self.required = false;
        }
    }

    // No token of the level may be a key any more. A candidate that must be one is refused.
    #[inline(always)]
    #[tactic(auto, unfolding(crate::specs::Steps::Core::remove_key))]
    pub(super) fn remove_key(&mut self) -> Result<(), Stopped>
        ensures { CarriesBy spec.remove_key self.old result self.new }
    {
        if self.required && self.in_block() {
            let mark = self.reader.mark();
            return Err(self.refuse_behind(3, FaultText::KeyExpected, mark));
        }
        // Outside flow no key is required here, and inside flow what is stays so.
        self.level.has_key = false;
        Ok(())
    }

    // Whether a candidate outside flow is on another line, or too far away. Then it is none any more.
    #[inline(always)]
    pub(super) fn has_far_key(&self) -> bool
        ensures { result ≡ (spec.in_block (state self.now).core
            && spec.is_too_far (state self.now).core.level.key (state self.now).core.cursor.mark) }
    {
        if !self.in_block() || !self.level.has_key {
            return false;
        }
        let mark = self.reader.mark();
        let key = &self.level.key.mark;
        key.line < mark.line || mark.index.saturating_sub(key.index) > LONGEST_KEY
    }

    // A candidate outside flow is dropped on the next line, and once its colon would be too far away.
    #[inline(always)]
    #[tactic(auto, unfolding(crate::specs::Steps::Core::drop_far_key))]
    pub(crate) fn drop_far_key(&mut self) -> Result<(), Stopped>
        ensures { CarriesBy spec.drop_far_key self.old result self.new }
    {
        if !self.has_far_key() {
            return Ok(());
        }
        if self.required {
            return Err(self.refuse_open_here(FaultText::KeyWithoutColon));
        }
        self.forget_key();
        Ok(())
    }
}
