//! Anchors, aliases and tags (YAML 1.2.2, 6.9 and 7.1).

ghost use Rattle.std.specs.Prelude.{◌≡◌, ◌<◌, length, slice_index};
ghost use Rattle.saphyr_input.specs.Indicators.{exclamation_mark};
ghost use Rattle.saphyr_scanner.specs.Steps.Property as property;
ghost use Rattle.saphyr_scanner.specs.Views.Reads.{name_kind};

use crate::engine::Engine;
use crate::stopped::{Stopped, keep};
use crate::token::TokenKind;
use saphyr_input::input::Input;

impl<T: Input> Engine<T> {
    ghost use Rattle.saphyr_scanner.specs.Views.Engine.{state, ActsBy};
    ghost use Rattle.saphyr_scanner.specs.Steps.Queue.{next};

    // `&` or `*` and a name, which is an anchor's or an alias's.
    #[tactic(auto, unfolding(crate::specs::Steps::Property::name_steps, crate::specs::Steps::Property::read_name))]
    pub(super) fn fetch_name(&mut self, kind: TokenKind) -> Result<(), Stopped>
        requires { 0 < length (state self.old).core.cursor.rest }
        ensures { ActsBy (property.name_steps (name_kind kind) (next (state self.old).queue))
            self.old result self.new }
    {
        self.save_key();
        self.key_allowed = false;
        keep(&mut self.stop, self.queue.put_name(kind, &mut self.reader))
    }

    // `!` and the rest of a tag.
    #[tactic(auto, unfolding(crate::specs::Steps::Property::tag_steps, crate::specs::Steps::Property::read_tag))]
    pub(super) fn fetch_tag(&mut self) -> Result<(), Stopped>
        requires { slice_index (state self.old).core.cursor.rest 0 ≡ exclamation_mark }
        ensures { ActsBy (property.tag_steps (next (state self.old).queue)) self.old result
            self.new }
    {
        self.save_key();
        self.key_allowed = false;
        let in_flow = !self.in_block();
        let read = self.queue.put_tag(&mut self.reader, in_flow);
        keep(&mut self.stop, read)
    }
}
