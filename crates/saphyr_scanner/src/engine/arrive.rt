//! The way to the next token: what is passed before it, which candidate is too far there, and which block collections
//! end.

ghost use Rattle.std.specs.Prelude.{◌≡◌, ◌≤◌, true, false, IsTrue, Ok, slice_index};
ghost use Rattle.saphyr_scanner.specs.Steps.Fetch as fetch;
ghost use Rattle.saphyr_scanner.specs.Steps.State.{with_core};
ghost use Rattle.saphyr_scanner.specs.Views.Ahead.{behind_feed, may_begin, may_begin_mark};

use crate::engine::Engine;
use crate::stopped::Stopped;
use saphyr_input::char_traits::{is_bom, is_z};
use saphyr_input::input::Input;

// Whether the character is one that most tokens begin with, and no blank, break or `#`.
#[inline(always)]
fn may_begin(c: char) -> bool
    ensures { result ≡ may_begin c }
{
    c == '"' || c > '#'
}

// Whether a directive or the marker of a document may begin with these characters, at the start of a line.
#[inline(always)]
fn may_begin_mark(c: char, next: char) -> bool
    ensures { result ≡ may_begin_mark c next }
{
    c == '%' || c == '.' || c == '-' && next == '-'
}

impl<T: Input> Engine<T> {
    ghost use Rattle.saphyr_scalar.specs.Views.Reader.{loaded};
    ghost use Rattle.saphyr_scanner.specs.Views.Ahead.{LeadsOn, fetched};
    ghost use Rattle.saphyr_scanner.specs.Views.Engine.{state, MovesBy};

    // Goes on to where the next token begins.
    #[tactic(auto, unfolding(crate::specs::Steps::Fetch::arrive))]
    fn arrive(&mut self) -> Result<(), Stopped>
        ensures { MovesBy fetch.arrive self.old result self.new }
    {
        self.pass_gap()?;
        self.drop_far_key()?;
        let mark = self.reader.mark();
        self.unroll(Some(mark.col), mark)
    }

    // Whether nothing is to be passed, dropped or ended before the next token. So it is before most tokens.
    #[inline(always)]
    pub(super) fn has_arrived(&self, c: char) -> bool
        requires { c ≡ slice_index (state self.now).core.cursor.rest 0 }
        ensures { IsTrue result → fetch.arrive (state self.now) ≡ Ok (state self.now) }
    {
        if !may_begin(c) || self.comment.is_some() || self.has_far_key() {
            return false;
        }
        self.is_far_enough(self.reader.mark().col)
    }

    // Whether the token that begins here is told by its first character.
    #[inline(always)]
    pub(super) fn is_content(&self, c: char) -> bool
        requires first { c ≡ slice_index (state self.now).core.cursor.rest 0 }
        requires loaded { 2 ≤ loaded self.now.reader }
        ensures { IsTrue result → LeadsOn (Ok true) (fetch.fetch_here (state self.now)) self.now }
    {
        let column = self.reader.mark().col;
        if is_z(c) || is_bom(c) || !self.is_far_enough(column) {
            return false;
        }
        column > 0 || !may_begin_mark(c, self.reader.input().peek_nth(1))
    }

    // Passes a line feed and the spaces behind it, and loads two places.
    #[inline(always)]
    fn pass_feed(&mut self, c: char)
        requires first { c ≡ slice_index (state self.old).core.cursor.rest 0 }
        requires loaded { 1 ≤ loaded self.old.reader }
        ensures passed { state self.new
            ≡ with_core (behind_feed (state self.old).core) (state self.old) }
        ensures loaded { 2 ≤ loaded self.new.reader }
    {
        self.reader.skip_seen_break(c);
        self.reader.skip_spaces(usize::MAX);
        if self.in_block() {
            self.key_allowed = true;
        }
        self.reader.load(2);
    }

    // A candidate outside flow that is too far is none any more where a token begins, unless it must be a key.
    #[inline(always)]
    fn lets_key_go(&mut self, c: char)
        requires { c ≡ slice_index (state self.old).core.cursor.rest 0 }
        ensures ahead { fetched (state self.new) ≡ fetched (state self.old) }
        ensures reader { self.new.reader ≡ self.old.reader }
    {
        if self.has_far_key() && may_begin(c) && self.comment.is_none() && !self.required {
            self.level.has_key = false;
        }
    }

    // Passes a line feed and the spaces behind it, or spaces on the line, and loads two places. Returns whether one of
    // these was there.
    #[inline(always)]
    fn pass_spaces(&mut self, c: char) -> bool
        requires first { c ≡ slice_index (state self.old).core.cursor.rest 0 }
        requires loaded { 2 ≤ loaded self.old.reader }
        ensures ahead { fetched (state self.new) ≡ fetched (state self.old) }
        ensures loaded { 2 ≤ loaded self.new.reader }
    {
        if c == '\n' {
            self.pass_feed(c);
            return true;
        }
        if c != ' ' {
            return false;
        }
        self.reader.skip_spaces(usize::MAX);
        self.reader.load(2);
        true
    }

    // Goes on behind a line feed and spaces, or behind spaces. Returns whether a token that is told by its first
    // character begins there, and nothing ends before it.
    #[inline(always)]
    fn reach_content(&mut self, c: char) -> bool
        requires first { c ≡ slice_index (state self.old).core.cursor.rest 0 }
        requires loaded { 2 ≤ loaded self.old.reader }
        ensures decides { IsTrue result → LeadsOn (Ok true) (fetched (state self.old)) self.new }
        ensures same { result ≡ false → fetched (state self.new) ≡ fetched (state self.old) }
    {
        if !self.pass_spaces(c) {
            return false;
        }
        let next = self.reader.input().peek();
        self.lets_key_go(next);
        self.has_arrived(next) && self.is_content(next)
    }

    // Goes on to where the next token begins, and puts it into the queue if its first character alone does not tell it.
    // `true`: the token is told by its first character, and is to be put into the queue.
    //
    // It is separate for speed. Mostly spaces, or a line feed and spaces, are all that is passed.
    #[inline(never)]
    pub(super) fn go_on(&mut self, c: char) -> Result<bool, Stopped>
        requires first { c ≡ slice_index (state self.old).core.cursor.rest 0 }
        requires loaded { 2 ≤ loaded self.old.reader }
        ensures { LeadsOn result (fetched (state self.old)) self.new }
    {
        if self.reach_content(c) {
            return Ok(true);
        }
        self.go_further()
    }

    // Goes on as `go_on` does, past all that may be passed, and ends what ends there.
    #[inline(never)]
    fn go_further(&mut self) -> Result<bool, Stopped>
        ensures { LeadsOn result (fetched (state self.old)) self.new }
    {
        self.arrive()?;
        self.reader.load(4);
        let c = self.reader.input().peek();
        if self.is_content(c) {
            return Ok(true);
        }
        self.fetch_mark(c)
    }
}
