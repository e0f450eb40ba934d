//! A parser of a text in UTF-8 that comes in pieces, which may be cut inside a character.

ghost use Rattle.std.specs.Prelude.{◌≡◌, ◌++◌, List, ℕ, IfOk, IsUtf8};
ghost use Rattle.saphyr_parser.specs.Cursor.{keeping_tags};
ghost use Rattle.saphyr_pieces.specs.Pieces.{FaultIsLast, HandsOutOrWaits, at};
ghost use Rattle.saphyr_parser_c.specs.Coming as spec;

use crate::encoding::{begins_as_utf16, whole_front};
use crate::status::Status;
use saphyr_parser::{Event, Fault, Marker, Progress, Span};
use saphyr_pieces::PieceParser;
use std::alloc::{AllocError, Global};

/// How much of a text came.
#[derive(Clone, Copy, PartialEq, Eq)]
pub enum Extent {
    Nothing,
    Part,
    All,
}

/// How many characters a text may have.
const MOST_CHARACTERS: usize = 4294967295;

// A limit that a caller sets, up to the most that there may be. 0 sets none.
pub(crate) fn bounded(limit: usize, most: usize) -> usize
    ensures { result ≡ spec.bounded limit most }
{
    if limit == 0 { most } else { limit.min(most) }
}

/// A parser of a text that comes in pieces, and the bytes that it can't have yet.
#[derive(Drop)]
pub struct Coming {
    pub(super) parser: PieceParser,
    // The bytes at the end of those that came that are no whole character.
    pub(super) waiting: Vec<u8>,
    pub(super) extent: Extent,
    // How many bytes may wait for an event.
    pub(super) most_waiting: usize,
    // Where the last event ends.
    pub(super) last_end: Marker,
}

impl Coming {
    /// A parser of a text of which nothing came. The limits are how many characters the text may have, and how many
    /// bytes may wait for an event; 0 sets none.
    pub fn new(
        alloc: Global,
        keep_tags: bool,
        most_characters: usize,
        most_waiting: usize,
    ) -> Result<Coming, AllocError>
        ensures { IfOk result (spec.IsOfNothing keep_tags most_characters most_waiting) }
    {
        let most_waiting = bounded(most_waiting, usize::MAX);
        let limit = bounded(most_characters, MOST_CHARACTERS);
        let mut parser = PieceParser::with_limit(alloc, limit)?;
        parser.look_past(most_waiting);
        parser.keep_tags(keep_tags);
        Ok(Coming {
            parser,
            waiting: Vec::new(alloc),
            extent: Extent::Nothing,
            most_waiting,
            last_end: Marker::new(0, 1, 0),
        })
    }

    /// What is told where no event comes: that more of the text is needed, or that more waits than may.
    pub fn waiting_status(&self) -> Status
        ensures { spec.WritesWaiting result self.now }
    {
        if self.parser.waiting() > self.most_waiting {
            Status::TooMuch
        } else {
            Status::More
        }
    }

    /// Where the last event ends: what is behind that place waits.
    pub fn last_end(&self) -> Marker
        ensures { result ≡ self.now.last_end }
    {
        self.last_end
    }

    /// Adds the next bytes. No bytes say that no more come.
    pub fn add(&mut self, alloc: Global, bytes: &[u8]) -> Status
        ensures { spec.Adds bytes.now self.old result self.new }
    {
        if self.extent == Extent::All {
            Status::Whole
        } else if bytes.is_empty() {
            self.end()
        } else if self.waiting.is_empty() {
            self.take_in(alloc, bytes)
        } else {
            match self.with_waiting(alloc, bytes) {
                Ok(bytes) => self.take_in(alloc, &bytes),
                Err(_) => {
                    self.lose();
                    Status::NoMemory
                }
            }
        }
    }

    /// Adds the next bytes, which are a text. This isn't tested but where a character was cut, whose rest they lack.
    pub fn add_text(&mut self, alloc: Global, text: &str) -> Status
        requires { IsUtf8 text.now }
        ensures { spec.Adds text.now self.old result self.new }
    {
        if self.extent == Extent::All {
            Status::Whole
        } else if text.is_empty() {
            self.end()
        } else if self.waiting.is_empty() {
            self.take(text, Vec::new(alloc))
        } else {
            self.add(alloc, text.as_bytes())
        }
    }

    // The bytes that wait, and these behind them.
    fn with_waiting(&self, alloc: Global, bytes: &[u8]) -> Result<Vec<u8>, AllocError>
        ensures { IfOk result (λ all. all.items ≡ self.now.waiting.items ++ bytes.now) }
    {
        let mut all = Vec::from_slice(alloc, &self.waiting)?;
        all.extend_from_slice(bytes)?;
        Ok(all)
    }

    // Adds the bytes in place of those that wait. They are some.
    fn take_in(&mut self, alloc: Global, bytes: &[u8]) -> Status
        ensures { spec.TakesIn bytes.now self.old result self.new }
    {
        let Some(count) = whole_front(bytes) else {
            return self.refusal_of(bytes);
        };
        let (front, rest) = bytes.split_at(count);
        let Ok(waiting) = Vec::from_slice(alloc, rest) else {
            self.lose();
            return Status::NoMemory;
        };
        let front = unsafe { str::from_utf8_unchecked(front) };
        self.take(front, waiting)
    }

    // Adds characters, behind which these bytes wait.
    fn take(&mut self, front: &str, waiting: Vec<u8>) -> Status
        ensures { spec.TakesWhole front.now waiting self.old result self.new }
    {
        let Ok(()) = self.parser.add(front) else {
            self.extent = Extent::All;
            return Status::NoMemory;
        };
        self.waiting = waiting;
        self.extent = Extent::Part;
        Status::Done
    }

    // Ends the text after memory ran out for more of it: what comes later would not be what follows.
    fn lose(&mut self)
        ensures { spec.LosesRest self.old self.new }
    {
        self.parser.run_out_of_memory();
        self.extent = Extent::All;
    }

    // Why bytes are refused that aren't UTF-8.
    fn refusal_of(&self, bytes: &[u8]) -> Status
        ensures { spec.IsRefusal bytes.now self.now result }
    {
        if self.extent == Extent::Nothing && begins_as_utf16(bytes) {
            Status::Utf16
        } else {
            Status::NotUtf8
        }
    }

    // Says that no more comes.
    fn end(&mut self) -> Status
        ensures { spec.EndsPieces self.old result self.new }
    {
        if !self.waiting.is_empty() {
            return Status::NotUtf8;
        }
        self.extent = Extent::All;
        match self.parser.end() {
            Ok(()) => Status::Done,
            Err(_) => Status::NoMemory,
        }
    }

    /// Hands out what comes next, which is written into its place. `None`: it waits for more of the text.
    pub fn next_into(
        &mut self,
        next: &mut (Event<'static>, Span),
        fault: &mut Fault,
    ) -> Option<Progress>
        ensures next { HandsOutOrWaits result next.new fault.new self.old.parser self.new.parser }
        ensures ended { FaultIsLast result self.new.parser }
        ensures same { spec.KeepsRest self.old self.new }
        ensures last { spec.GoesBehind result next.new fault.new self.old self.new }
    {
        match self.parser.next_event_into(next, fault) {
            Some(Progress::Event) => {
                self.last_end = next.1.end;
                Some(Progress::Event)
            }
            Some(Progress::Fault) => Some(Progress::Fault),
            Some(Progress::Over) => Some(Progress::Over),
            None => None,
        }
    }

    /// An independent parser at the same place.
    pub fn copy(&self, alloc: Global) -> Result<Coming, AllocError>
        ensures { IfOk result (spec.IsCopyOfPieces self.now) }
    {
        let waiting = Vec::from_slice(alloc, &self.waiting)?;
        Ok(Coming {
            parser: self.parser.try_clone()?,
            waiting,
            extent: self.extent,
            most_waiting: self.most_waiting,
            last_end: self.last_end,
        })
    }

    /// Sets whether the prefixes of tags hold for later documents too.
    pub fn keep_tags(&mut self, value: bool)
        ensures at { (later : List ℕ)
            → at self.new.parser later ≡ keeping_tags value (at self.old.parser later) }
        ensures same { spec.KeepsRest self.old self.new }
        ensures last { self.new.last_end ≡ self.old.last_end }
    {
        self.parser.keep_tags(value);
    }
}
