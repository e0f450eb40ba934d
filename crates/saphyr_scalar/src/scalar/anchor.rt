//! The names of anchors and aliases, taken off a text (YAML 1.2.2, 6.9.2 and 7.1).

ghost use Rattle.std.specs.Prelude.{◌<◌, length, refl};
ghost use Rattle.saphyr_input.specs.Classes as class;
ghost use Rattle.saphyr_scalar.specs.Steps.Anchor as spec;
ghost use Rattle.saphyr_scalar.specs.Steps.Quoted.{with_front};

use crate::scalar::fault::{FaultText, Refusal, Stop};
use crate::scalar::reader::Reader;
use saphyr_input::char_set::CharSet;
use saphyr_input::char_traits::is_anchor_char;
use saphyr_input::input::Input;

// The characters of an anchor's name.
pub(crate) struct AnchorSet;

impl CharSet for AnchorSet {
    ghost test = { class.is_anchor_char };

    ghost without_nul = { refl };

    fn has(c: char) -> bool {
        is_anchor_char(c)
    }

    fn has_ascii(byte: u8) -> bool {
        matches!(byte, b'a'..=b'z') || byte < 0x80 && is_anchor_char(byte as char)
    }
}

impl<T: Input> Reader<T> {
    ghost use Rattle.saphyr_scalar.specs.Views.Reader.{cursor_of, WritesBy, text_alone};

    /// Takes off an anchor or an alias (YAML 1.2.2, 6.9.2 and 7.1), from its `&` or `*` on, and puts
    /// its name behind a text.
    ///
    /// A name without characters is refused at the indicator. After an error nothing is known of
    /// what is left of that text.
    pub fn read_anchor_onto(&mut self, text: &mut String) -> Result<(), Stop>
        requires { 0 < length (cursor_of self.old).rest }
        ensures { WritesBy text_alone (λ before s. with_front before (spec.anchor s)) text.old
            self.old result text.new self.new }
    {
        let start = self.mark;
        let before = text.len();
        self.skip_non_blank();
        self.read_run::<AnchorSet>(text)?;
        if text.len() == before {
            return Err(Stop::Refused(Refusal {
                text: FaultText::AnchorNameExpected,
                mark: start,
                may_change: self.is_missing(0),
            }));
        }
        Ok(())
    }
}
