//! Reading scalars right where the queue keeps their texts.

#![tactic(auto, using(crate::proofs::QueuedReads::token_put), unfolding(crate::specs::Views::Queue::queue_places))]

ghost use Rattle.std.specs.Prelude.{◌≡◌, ◌<◌, length, slice_index};
ghost use Rattle.saphyr_input.specs.Indicators.{exclamation_mark};
ghost use Rattle.saphyr_scalar.specs.Steps.Plain.{plain};
ghost use Rattle.saphyr_scalar.specs.Values.Flow as flow;
ghost use Rattle.saphyr_scalar.specs.Views.Reader.{Moves, cursor_of};
ghost use Rattle.saphyr_scalar.specs.declared.scalar.style.ScalarStyle.TheVariants.{Plain};
ghost use Rattle.saphyr_scanner.specs.Grammar.Tokens as tokens;
ghost use Rattle.saphyr_scanner.specs.Views.Queue.{queue};
ghost use Rattle.saphyr_scanner.specs.Views.Reads.{name_kind, name_whole, queue_with_token, quote_kind, quoted_whole, tag_kind, tag_whole};

use crate::queue::Queue;
use crate::queue::place::Place;
use crate::token::TokenKind;
use saphyr_input::input::Input;
use saphyr_scalar::values::Quote;
use saphyr_scalar::{Marker, Reader, Stop};

impl Queue {
    /// Reads a plain scalar, and puts its token at the end. Returns a comment that ended it. After an error no token
    /// is here.
    #[inline(always)]
    pub(crate) fn put_plain<T: Input>(
        &mut self,
        reader: &mut Reader<T>,
        in_flow: bool,
        indent: usize,
    ) -> Result<Option<Marker>, Stop>
        ensures { Moves (λ comment. (queue self.new, comment, cursor_of reader.new)) result
            (queue_with_token (tokens.Scalar Plain) (queue self.old) (cursor_of reader.old).mark
            (plain in_flow indent (cursor_of reader.old))) }
    {
        self.make_room()?;
        let start = reader.mark();
        match self.texts.read_plain(reader, in_flow, indent) {
            Ok((scalar, count)) => {
                let (end, comment) = (scalar.end, scalar.comment);
                match Place::of_text(TokenKind::Plain, &start, &end, count, &mut self.texts) {
                    Ok(place) => {
                        self.places.push_reserved(place);
                        Ok(comment)
                    }
                    Err(error) => {
                        Err(
                            self.texts
                                .forget(&mut self.places, &mut self.spent, error.into()),
                        )
                    }
                }
            }
            Err(stop) => Err(self.texts.forget(&mut self.places, &mut self.spent, stop)),
        }
    }

    /// Reads a quoted scalar in the same way, passes what separates it from what comes after it, and puts its token at
    /// the end. Returns whether an indicator is there.
    #[inline(always)]
    pub(crate) fn put_quoted<T: Input>(
        &mut self,
        reader: &mut Reader<T>,
        quote: Quote,
        in_block: bool,
        indent: usize,
    ) -> Result<bool, Stop>
        requires { slice_index (cursor_of reader.old).rest 0 ≡ flow.mark quote }
        ensures { Moves (λ given. (queue self.new, given, cursor_of reader.new)) result
            (queue_with_token (quote_kind quote) (queue self.old) (cursor_of reader.old).mark
            (quoted_whole in_block quote indent (cursor_of reader.old))) }
    {
        self.make_room()?;
        match self.texts.read_quoted(reader, quote, in_block, indent) {
            Ok((place, is_at_end)) => {
                self.places.push_reserved(place);
                Ok(is_at_end)
            }
            Err(stop) => Err(self.texts.forget(&mut self.places, &mut self.spent, stop)),
        }
    }

    /// Reads the name of an anchor or an alias, and puts its token at the end. After an error no token is here.
    pub(crate) fn put_name<T: Input>(
        &mut self,
        kind: TokenKind,
        reader: &mut Reader<T>,
    ) -> Result<(), Stop>
        requires { 0 < length (cursor_of reader.old).rest }
        ensures { Moves (λ given. (queue self.new, given, cursor_of reader.new)) result
            (queue_with_token (name_kind kind) (queue self.old) (cursor_of reader.old).mark
            (name_whole (cursor_of reader.old))) }
    {
        self.make_room()?;
        match self.texts.read_name(kind, reader) {
            Ok((place, ())) => {
                self.places.push_reserved(place);
                Ok(())
            }
            Err(stop) => Err(self.texts.forget(&mut self.places, &mut self.spent, stop)),
        }
    }

    /// Reads a tag in the same way.
    pub(crate) fn put_tag<T: Input>(
        &mut self,
        reader: &mut Reader<T>,
        in_flow: bool,
    ) -> Result<(), Stop>
        requires { slice_index (cursor_of reader.old).rest 0 ≡ exclamation_mark }
        ensures { Moves (λ given. (queue self.new, given, cursor_of reader.new)) result
            (queue_with_token tag_kind (queue self.old) (cursor_of reader.old).mark
            (tag_whole in_flow (cursor_of reader.old))) }
    {
        self.make_room()?;
        match self.texts.read_tag(reader, in_flow) {
            Ok((place, ())) => {
                self.places.push_reserved(place);
                Ok(())
            }
            Err(stop) => Err(self.texts.forget(&mut self.places, &mut self.spent, stop)),
        }
    }
}
