//! Quoted scalars, taken off a text word by word, with their lines folded on the way
//! (YAML 1.2.2, 7.3.1, 7.3.2 and 6.5).

mod gap;
mod words;

ghost use Rattle.std.specs.Prelude.{◌≡◌, slice_index, string_bytes};
ghost use Rattle.saphyr_scalar.specs.Steps.Quoted as spec;
ghost use Rattle.saphyr_scalar.specs.Values.Flow as flow;

use crate::scalar::fault::Stop;
use crate::scalar::position::Marker;
use crate::scalar::quoted::words::{InDouble, InSingle, Quotes};
use crate::scalar::reader::Reader;
use crate::values::Quote;
use saphyr_input::input::Input;

impl<T: Input> Reader<T> {
    ghost use Rattle.saphyr_scalar.specs.Views.Reader.{cursor_of, WritesBy, text_alone};

    // Whether the closing quote is here, and not the first of two single quotes. `c` is the first character.
    #[inline(always)]
    fn is_at_closing_quote(&mut self, c: char, quote: Quote) -> bool
        requires { c ≡ slice_index (cursor_of self.old).rest 0 }
        ensures value { result ≡ spec.is_closing quote (cursor_of self.old).rest }
        ensures same { cursor_of self.new ≡ cursor_of self.old }
    {
        match quote {
            Quote::Single => {
                self.load(2);
                c == '\'' && !self.input.nth_char_is(1, '\'')
            }
            Quote::Double => c == '"',
        }
    }

    // Moves what is left of a quoted scalar to the end of its text, and takes off the closing quote.
    #[inline(never)]
    fn read_quoted_rest<Q: Quotes>(
        &mut self,
        indent: usize,
        start: Marker,
        text: &mut String,
    ) -> Result<(), Stop>
        ensures { WritesBy text_alone (λ before s. spec.with_front before
            (spec.inner_text_at Q.quote indent start spec.no_gap s)) text.old self.old result
            text.new self.new }
    {
        let quote = Q::quote();
        let mut next = self.look();
        loop {
            let c = self.read_quoted_word(next, quote, start, text)?;
            if c == quote.mark() {
                break;
            }
            next = self.read_quoted_gap(c, quote, indent, start, text)?;
        }
        self.skip_non_blank();
        Ok(())
    }

    // Takes off a quoted scalar, from its opening quote on, and puts its text behind another. Most have only words on
    // one line without escapes: then that is all.
    #[inline(never)]
    fn read_behind<Q: Quotes>(&mut self, indent: usize, text: &mut String) -> Result<(), Stop>
        requires { slice_index (cursor_of self.old).rest 0 ≡ flow.mark Q.quote }
        ensures { WritesBy text_alone
            (λ before s. spec.with_front before (spec.quoted Q.quote indent s))
            text.old self.old result text.new self.new }
    {
        let quote = Q::quote();
        let start = self.mark;
        self.skip_non_blank();
        let c = self.take_literal_words(quote, text)?;
        if self.is_at_closing_quote(c, quote) {
            self.skip_non_blank();
            return Ok(());
        }
        self.read_quoted_rest::<Q>(indent, start, text)
    }

    /// Takes off a quoted scalar, from its opening quote to its closing one, and puts its text behind
    /// another. Between double quotes escapes are replaced (YAML 1.2.2, 7.3.1), between single
    /// quotes `''` is a quote (7.3.2), and lines are folded.
    ///
    /// `indent` is the column that later lines must reach. Refused at the opening quote are faults
    /// in escapes, a later line that begins left of that column or with a document marker, and a
    /// text that ends before the scalar does. A tab left of the column is refused at its own place.
    /// After an error nothing is known of what is left of the other text.
    #[inline(always)]
    pub fn read_quoted_onto(
        &mut self,
        quote: Quote,
        indent: usize,
        text: &mut String,
    ) -> Result<(), Stop>
        requires { slice_index (cursor_of self.old).rest 0 ≡ flow.mark quote }
        ensures { WritesBy text_alone
            (λ before s. spec.with_front before (spec.quoted quote indent s))
            text.old self.old result text.new self.new }
    {
        match quote {
            Quote::Double => self.read_behind::<InDouble>(indent, text),
            Quote::Single => self.read_behind::<InSingle>(indent, text),
        }
    }
}
