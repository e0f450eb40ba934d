//! A text of which more comes: whether its end is open, and laws of its readers. What a reader gives is the same
//! whatever comes, unless it leaves a rest that is open.

ghost use Rattle.std.specs.Prelude.{◌≡◌, ◌<◌, ◌≤◌, ℕ, Bool, false, List, Ok, Option};
ghost use Rattle.saphyr_scalar.specs.declared.scalar.position.Marker.{Marker};
ghost use Rattle.saphyr_scalar.specs.Views.Cursor.{Cursor, separation};
ghost use Rattle.saphyr_scalar.specs.Steps.Anchor.{anchor};
ghost use Rattle.saphyr_scalar.specs.Steps.Plain.{plain};
ghost use Rattle.saphyr_scalar.specs.Steps.Quoted.{quoted};
ghost use Rattle.saphyr_scalar.specs.Steps.Tag.{tag};
ghost use Rattle.saphyr_scalar.specs.Steps.Block.{block_scalar};
ghost use Rattle.saphyr_scalar.specs.Steps.Directive.{directive};
ghost use Rattle.saphyr_scalar.specs.Spelling.Directive.{ReadDirective};
ghost use Rattle.saphyr_scalar.specs.Known.{is_open, longer};

use crate::scalar::position::{Marker, Span};
use crate::scalar::reader::Reader;
use crate::values::{BlockStyle, Quote};
use saphyr_input::SkipTabs;
use saphyr_input::input::Input;

/// Where a reader leaves a rest that is not open, it gives the same with more behind the text, and
/// leaves that rest with more behind it: it has looked at nothing behind what came.
pub fn reads_what_came()
    ensures name { (s t : Cursor) (x more : List ℕ) → anchor s ≡ Ok (x, t) → is_open t.rest ≡ false
        → anchor (longer more s) ≡ Ok (x, longer more t) }
    ensures tag { (in_flow : Bool) (s t : Cursor) (handle suffix more : List ℕ)
        → tag in_flow s ≡ Ok (handle, suffix, t) → is_open t.rest ≡ false
        → tag in_flow (longer more s) ≡ Ok (handle, suffix, longer more t) }
    ensures plain { (in_flow : Bool) (indent : ℕ) (s t : Cursor) (text : List ℕ) (end : Marker)
        (comment : Option Marker) (more : List ℕ)
        → plain in_flow indent s ≡ Ok (text, end, comment, t) → is_open t.rest ≡ false
        → plain in_flow indent (longer more s) ≡ Ok (text, end, comment, longer more t) }
    ensures quoted { (quote : Quote) (indent : ℕ) (s t : Cursor) (text more : List ℕ)
        → quoted quote indent s ≡ Ok (text, t) → is_open t.rest ≡ false
        → quoted quote indent (longer more s) ≡ Ok (text, longer more t) }
    ensures block { (style : BlockStyle) (indent : ℕ) (s t : Cursor) (text : List ℕ) (span : Span)
        (more : List ℕ) → block_scalar style indent s ≡ Ok (text, span, t) → is_open t.rest ≡ false
        → block_scalar style indent (longer more s) ≡ Ok (text, span, longer more t) }
    ensures directive { (s t : Cursor) (d : ReadDirective) (end : Marker) (more : List ℕ)
        → directive s ≡ Ok (d, end, t) → is_open t.rest ≡ false
        → directive (longer more s) ≡ Ok (d, end, longer more t) }
    ensures separation { (tabs found : SkipTabs) (s t : Cursor) (more : List ℕ)
        → separation tabs s ≡ Ok (found, t) → is_open t.rest ≡ false
        → separation tabs (longer more s) ≡ Ok (found, longer more t) }
{}

impl<T: Input> Reader<T> {
    ghost use Rattle.saphyr_scalar.specs.Known.{ends_in_run, may_be_open};
    ghost use Rattle.saphyr_scalar.specs.Views.Cursor.{is_missing};
    ghost use Rattle.saphyr_scalar.specs.Views.Reader.{cursor_of, loaded};

    /// Whether nothing is left, or a beginning of a document marker, or a colon alone. What these are is told by what
    /// comes next. A NUL counts as the end.
    pub fn is_at_open_end(&mut self) -> bool
        ensures value { result ≡ may_be_open (cursor_of self.old).rest }
        ensures same { cursor_of self.new ≡ cursor_of self.old }
    {
        self.input.lookahead(4);
        match self.input.peek() {
            '\0' => true,
            ':' => self.input.nth_char_is(1, '\0'),
            '-' => self.ends_in_run('-'),
            '.' => self.ends_in_run('.'),
            _ => false,
        }
    }

    /// Whether the text ends before its character `n`, or has a NUL there.
    pub fn is_missing(&mut self, n: usize) -> bool
        requires { n < 8 }
        ensures value { result ≡ is_missing n (cursor_of self.old).rest }
        ensures same { cursor_of self.new ≡ cursor_of self.old }
    {
        self.input.lookahead(n + 1);
        self.input.nth_char_is(n, '\0')
    }

    // Whether one to three characters `c` are left, and nothing else.
    fn ends_in_run(&self, c: char) -> bool
        requires { 4 ≤ loaded self.now }
        ensures { result ≡ ends_in_run c (cursor_of self.now).rest }
    {
        let input = &self.input;
        input.nth_char_is(1, '\0')
            || input.nth_char_is(1, c)
                && (input.nth_char_is(2, '\0')
                    || input.nth_char_is(2, c) && input.nth_char_is(3, '\0'))
    }
}
