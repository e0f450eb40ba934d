//! How many tokens are read before the first of them is handed out, and lines that are passed before the next one.

ghost use Rattle.std.specs.Prelude.{◌≡◌, ◌<◌, ◌≤◌, true, false, IsTrue, Ok, slice_index};
ghost use Rattle.saphyr_scanner.specs.Steps.Fetch as fetch;

use crate::engine::Engine;
use crate::law::takes_characters_off;
use crate::stopped::Stopped;
use saphyr_input::input::Input;
use saphyr_scalar::{FaultText, Stop};

impl<T: Input> Engine<T> {
    ghost use Rattle.saphyr_scalar.specs.Views.Reader.{loaded};
    ghost use Rattle.saphyr_scanner.specs.Views.Engine.{state, MovesBy};
    ghost use Rattle.saphyr_scanner.specs.Views.Lines.{PassesOn, behind_line_text, is_whole_break, placed};
    ghost use Rattle.saphyr_scanner.specs.Views.Scanning.{is_decided};

    // Whether the token at a place may still become a key in what is open around the level.
    #[inline(always)]
    fn is_held_around(&self, place: usize) -> bool
        ensures { result ≡ fetch.any_holds place (state self.now).core.outer }
    {
        for level in &self.outer {
            if level.holds(place) {
                return true;
            }
        }
        false
    }

    // Whether the first token of the queue may still become a key, in anything that is open. Then neither it nor
    // what follows it can be handed out: a mapping's start and a key may have to come before it.
    //
    // For speed the outermost is asked first. Inside flow it holds the token most often.
    #[inline(always)]
    fn is_held(&self) -> bool
        ensures { result ≡ fetch.is_held (state self.now) }
    {
        let place = self.queue.first();
        self.is_held_around(place) || self.level.holds(place)
    }

    /// Whether the next token must be read.
    #[inline(always)]
    pub(crate) fn needs_token(&self) -> bool
        ensures { result ≡ fetch.needs_token (state self.now) }
    {
        (self.queue.is_empty() || self.is_held()) && !self.ended
    }

    // Puts the next token into the queue. If the text is too long with it, it is refused.
    #[inline(always)]
    #[tactic(auto, unfolding(crate::specs::Steps::Fetch::fetch_within))]
    fn fetch_within(&mut self, limit: usize) -> Result<(), Stopped>
        ensures { MovesBy (fetch.fetch_within limit) self.old result self.new }
    {
        self.fetch()?;
        if self.reader.mark().index > limit {
            return Err(self.refuse_open_here(FaultText::TextTooLong));
        }
        Ok(())
    }

    /// Whether nothing that is open has a candidate. Then no token is held.
    #[inline(always)]
    pub(crate) fn has_no_candidate(&self) -> bool
        ensures settled { IsTrue result
            → fetch.without_far_key (state self.now) ≡ Ok (state self.now) }
        ensures free { IsTrue result → fetch.is_held (state self.now) ≡ false }
        ensures value { result ≡ fetch.has_no_candidate (state self.now).core }
    {
        !self.level.has_key && self.outer.is_empty()
    }

    /// Whether the stream's start comes next, and no token behind it. No character tells it.
    #[inline(always)]
    pub(crate) fn is_at_start(&self) -> bool
        ensures { result ≡ fetch.is_at_start (state self.now).core }
    {
        !self.started && self.has_no_candidate() && self.reader.mark().index == 0
    }

    /// Whether no token is there, and the text has more.
    #[inline(always)]
    pub(crate) fn has_none(&self) -> bool
        ensures some { result ≡ false → fetch.is_held (state self.now) ≡ false
            → fetch.needs_token (state self.now) ≡ false }
        ensures none { IsTrue result → fetch.needs_token (state self.now) ≡ true }
    {
        self.queue.is_empty() && !self.ended
    }

    /// Reads tokens until the head of the queue can be handed out, unless all were. To be called where the next token
    /// must be read.
    #[inline(never)]
    pub(crate) fn read_tokens(&mut self, limit: usize) -> Result<(), Stopped>
        requires needed { fetch.needs_token (state self.old) ≡ true }
        requires settled { fetch.without_far_key (state self.old) ≡ Ok (state self.old) }
        ensures { MovesBy (fetch.fill limit) self.old result self.new }
    {
        // A law. It does nothing when it runs.
        takes_characters_off();
        loop {
            self.fetch_within(limit)?;
            self.drop_far_key()?;
            if !self.needs_token() {
                return Ok(());
            }
        }
    }

    /// Whether the next token must be read, and none is there that may be a key.
    pub(crate) fn is_between(&self) -> bool
        ensures needed { IsTrue result → fetch.needs_token (state self.now) ≡ true }
        ensures settled { IsTrue result
            → fetch.without_far_key (state self.now) ≡ Ok (state self.now) }
        ensures free { IsTrue result → fetch.has_no_candidate (state self.now).core ≡ true }
        ensures started { IsTrue result → (state self.now).core.started ≡ true }
    {
        self.started && self.has_no_candidate() && self.has_none()
    }

    // Passes what a line without a token has before its end: spaces, a tab with the blanks behind it, and a comment.
    // Returns what comes next.
    fn pass_comment(&mut self) -> char
        ensures first { result ≡ slice_index (state self.new).core.cursor.rest 0 }
        ensures loaded { 1 ≤ loaded self.new.reader }
        ensures passed { state self.new
            ≡ placed (behind_line_text (state self.old).core.cursor) (state self.old) }
    {
        self.reader.skip_spaces(usize::MAX);
        let c = self.reader.look();
        if c == '\t' {
            self.reader.skip_blanks();
        }
        let c = self.reader.look();
        if c == '#' {
            self.reader.skip_comment();
        }
        self.reader.look()
    }

    // Whether LF or CR LF comes next, of which this is the first character.
    fn is_at_whole_break(&mut self, c: char) -> bool
        requires first { c ≡ slice_index (state self.old).core.cursor.rest 0 }
        requires loaded { 1 ≤ loaded self.old.reader }
        ensures whole { result ≡ is_whole_break (state self.old).core.cursor.rest }
        ensures loaded { 1 ≤ loaded self.new.reader }
        ensures same { state self.new ≡ state self.old }
    {
        if c == '\n' {
            return true;
        }
        self.reader.load(2);
        self.reader.input().next_2_are('\r', '\n')
    }

    // Passes a line that has no token. `false`: it has one, or its end did not come, and nothing is known.
    fn pass_line(&mut self) -> bool
        ensures { IsTrue result → PassesOn (state self.old) (state self.new) }
    {
        let c = self.pass_comment();
        if !self.is_at_whole_break(c) {
            return false;
        }
        self.reader.skip_seen_break(c);
        if self.in_block() {
            self.key_allowed = true;
        }
        true
    }

    /// Passes so many lines, which should have no token. `false`: one has, or its end did not come, and nothing is
    /// known.
    pub(crate) fn pass_lines(&mut self, lines: usize) -> bool
        ensures { IsTrue result → PassesOn (state self.old) (state self.new) }
    {
        for _ in 0..lines {
            if !self.pass_line() {
                return false;
            }
        }
        true
    }

    /// Whether what was read is so whatever comes behind what came of the text.
    pub(crate) fn is_decided(&mut self, read: Result<(), Stopped>) -> bool
        ensures decided { result
            ≡ is_decided read (state self.old).core.cursor.rest self.old.stop }
        ensures same { state self.new ≡ state self.old }
        ensures stop { self.new.stop ≡ self.old.stop }
    {
        match read {
            Ok(()) => !self.reader.is_at_open_end(),
            Err(_) => match self.stop {
                Stop::Refused(refusal) => !refusal.may_change,
                Stop::OutOfMemory => true,
            },
        }
    }
}
