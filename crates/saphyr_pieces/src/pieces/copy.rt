//! The copy of a reader that it goes back to, and the events that it handed out since.

ghost use Rattle.std.specs.Prelude.{◌≡◌, ◌++◌, List, ℕ, [], IfOk, OnErr, None};
ghost use Rattle.std.specs.Str.{chars};
ghost use Rattle.saphyr_scanner.specs.Views.Scanning.{text_in};
ghost use Rattle.saphyr_machine.specs.Views.Readers.{cursor_in, scanning_of};
ghost use Rattle.saphyr_pieces.specs.Passed.{passed_tokens};
ghost use Rattle.saphyr_pieces.specs.Views as spec;

use crate::owned::OwnedText;
use crate::pieces::PieceReader;
use crate::pieces::passed::Passed;
use crate::pieces::waiting::{idle_lines, is_far, may_be_idle, weight_behind};
use saphyr_machine::{Event, EventReader, Fault, Progress, no_event};
use saphyr_scanner::Growth;
use std::alloc::{AllocError, Global};
use std::mem::replace;

// So much room for a text is kept at most.
const MOST_ROOM: usize = 1 << 14;

// Reads so many events again.
fn read_again(reader: &mut EventReader<'static, OwnedText>, events: usize) -> Result<(), AllocError>
    ensures { IfOk result (λ _. spec.ReadsOnBy events reader.old reader.new) }
{
    let mut next = no_event();
    let mut fault = Fault::OutOfMemory;
    for _ in 0..events {
        match reader.advance(&mut next, &mut fault) {
            Progress::Event => {}
            Progress::Fault | Progress::Over => return Err(AllocError),
        }
    }
    Ok(())
}

// How many tokens wait that make no event.
fn idle_tokens(reader: &EventReader<'static, OwnedText>) -> usize {
    let text = reader.input().as_str();
    if !reader.is_between() || !may_be_idle(text) {
        return 0;
    }
    let Ok(mut scout) = reader.try_clone() else {
        return 0;
    };
    for count in 0..text.len() {
        if scout.pass_token().is_none() {
            return count;
        }
    }
    text.len()
}

// Passes so many tokens that make no event.
#[tactic(auto, using(crate::proofs::IdleTokens::stays_here, crate::proofs::IdleTokens::passes_more))]
fn pass_tokens(
    reader: &mut EventReader<'static, OwnedText>,
    passed: &mut Option<Passed>,
    tokens: usize,
) -> Result<(), AllocError>
    ensures { IfOk result (λ _. spec.PassesIdleOn (passed_tokens passed.old) reader.old
        (passed_tokens passed.new) reader.new) }
{
    for _ in 0..tokens {
        let Some(token) = reader.pass_token() else {
            return Err(AllocError);
        };
        *passed = Some(Passed::and(passed, &Some(token)));
    }
    Ok(())
}

// Keeps the memory of a text as room for another, if it is not too much.
fn keep_room(room: &mut String, text: String) {
    if text.capacity() <= MOST_ROOM {
        drop(replace(room, text));
    }
}

/// Has a reader go on over its text and more behind that, in the memory of another text, and leaves its own for the
/// next. If memory runs out, it stays.
pub(super) fn grow(
    alloc: Global,
    reader: &mut EventReader<'static, OwnedText>,
    more: &str,
    growth: Growth,
    room: &mut String,
) -> Result<(), AllocError>
    ensures cursor { IfOk result (λ _. (later : List ℕ) → cursor_in later reader.new
        ≡ cursor_in (chars more.now ++ text_in growth later []) reader.old) }
    ensures rest { IfOk result (λ _. (scanning_of reader.new).state.core.cursor.rest
        ≡ (scanning_of reader.old).state.core.cursor.rest ++ chars more.now) }
    ensures same { OnErr result (reader.new ≡ reader.old) }
{
    let Growth::Growing = reader.growth() else {
        return Err(AllocError);
    };
    let rest = reader.input().as_str();
    room.clear();
    room.reserve(rest.len() + more.len())?;
    room.push_str(rest)?;
    room.push_str(more)?;
    let Some(_) = reader.index().checked_add(room.as_str().len()) else {
        return Err(AllocError);
    };
    let text = replace(room, String::new(alloc));
    let old = reader.exchange(OwnedText::new(alloc, text), growth);
    keep_room(room, old.into_string());
    Ok(())
}

// Has a copy go on over what came since, if anything did.
fn catch_up(
    alloc: Global,
    copy: &mut EventReader<'static, OwnedText>,
    since: &str,
    room: &mut String,
) -> Result<(), AllocError>
    ensures { IfOk result (λ _. spec.GoesOnOver (chars since.now) copy.old copy.new) }
{
    if since.is_empty() {
        return Ok(());
    }
    grow(alloc, copy, since, Growth::Growing, room)
}

// Passes the lines that wait and have no token, so that their text is not kept.
fn pass_lines(reader: &mut EventReader<'static, OwnedText>) -> Result<(), AllocError>
    ensures { IfOk result (λ _. (more : List ℕ)
        → cursor_in more reader.new ≡ cursor_in more reader.old) }
{
    let lines = idle_lines(reader.input().as_str());
    if reader.pass_lines(lines) {
        Ok(())
    } else {
        Err(AllocError)
    }
}

// Passes the tokens that wait and make no event, and the lines without a token.
#[tactic(auto, using(crate::proofs::IdleTokens::stays_behind))]
fn pass_on(
    reader: &mut EventReader<'static, OwnedText>,
    passed: &mut Option<Passed>,
) -> Result<(), AllocError>
    ensures { IfOk result (λ _. spec.PassesIdleOn (passed_tokens passed.old) reader.old
        (passed_tokens passed.new) reader.new) }
{
    let tokens = idle_tokens(reader);
    pass_tokens(reader, passed, tokens)?;
    pass_lines(reader)
}

impl PieceReader {
    /// What came comes behind the copy's text too, if more may come. Otherwise there is no copy any more, and neither is
    /// one if memory runs out.
    pub(super) fn extend_copy(&mut self, growth: Growth)
        ensures copied { spec.Extends growth self.old self.new }
        ensures reader { self.new.reader ≡ self.old.reader }
        ensures more { self.new.more ≡ self.old.more }
        ensures source { self.new.source ≡ self.old.source }
        ensures passed { self.new.passed ≡ self.old.passed }
    {
        if self.copy.is_none() {
            return;
        }
        if let Growth::Growing = growth {
            if let Ok(()) = self.since.push_str(&self.more) {
                self.copied = self.copied.saturating_add(self.more.len());
                return;
            }
        }
        drop(self.copy.take());
    }

    /// Makes a copy to go back to, if there is none, or if it would be long to read from there.
    pub(super) fn renew_copy(&mut self)
        requires { spec.LeadsCopyTo self.old self.old.reader }
        ensures copied { spec.LeadsCopyTo self.new self.new.reader }
        ensures reader { self.new.reader ≡ self.old.reader }
        ensures more { self.new.more ≡ self.old.more }
        ensures source { self.new.source ≡ self.old.source }
        ensures passed { self.new.passed ≡ self.old.passed }
    {
        let left = self.reader.input().as_str().len();
        if self.copy.is_none() || is_far(self.copied, left) {
            self.make_copy(left);
        }
    }

    // Makes a copy, whose text has so many bytes. If memory runs out, there is none.
    #[inline(never)]
    fn make_copy(&mut self, left: usize)
        requires { spec.LeadsCopyTo self.old self.old.reader }
        ensures copied { spec.LeadsCopyTo self.new self.new.reader }
        ensures reader { self.new.reader ≡ self.old.reader }
        ensures more { self.new.more ≡ self.old.more }
        ensures source { self.new.source ≡ self.old.source }
        ensures passed { self.new.passed ≡ self.old.passed }
    {
        // An old copy would share the names that are to be changed.
        drop(self.copy.take());
        self.reader.share_names();
        if let Ok(copy) = self.reader.try_clone() {
            drop(self.copy.replace(copy));
            self.events = 0;
            self.copied = left;
            self.since.clear();
        }
    }

    /// Counts an event that was handed out.
    pub(super) fn count(&mut self, event: &Event<'static>)
        ensures copied { spec.CountsOne self.old self.new }
        ensures reader { self.new.reader ≡ self.old.reader }
        ensures more { self.new.more ≡ self.old.more }
        ensures source { self.new.source ≡ self.old.source }
        ensures passed { self.new.passed ≡ self.old.passed }
    {
        self.weight = weight_behind(event, self.weight);
        match self.events.checked_add(1) {
            Some(events) => self.events = events,
            None => drop(self.copy.take()),
        }
    }

    /// Goes back to the copy, reads its events again, and passes the tokens behind them that make no event, and the
    /// lines without a token. If memory runs out, the reader stays.
    pub(super) fn go_back(&mut self) -> Result<(), AllocError>
        ensures back { IfOk result (λ _. spec.GoesBack self.old self.new) }
        ensures copy { self.new.copy ≡ None }
        ensures more { self.new.more ≡ self.old.more }
        ensures source { self.new.source ≡ self.old.source }
        ensures same { OnErr result (self.new.reader ≡ self.old.reader) }
    {
        let Some(mut copy) = self.copy.take() else {
            return Err(AllocError);
        };
        catch_up(self.alloc, &mut copy, &self.since, &mut self.room)?;
        read_again(&mut copy, self.events)?;
        pass_on(&mut copy, &mut self.passed)?;
        drop(replace(&mut self.reader, copy));
        self.starved = true;
        Ok(())
    }
}
