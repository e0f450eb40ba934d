//! A parser with the event that it gave last. C may read the texts of that event until the next call.

ghost use Rattle.std.specs.Prelude.{◌≡◌, IfOk, IsUtf8, MatchResult};
ghost use Rattle.saphyr_parser_c.specs.Inner.{RefusesText};

use crate::answer::{write_event, write_fault, write_lent};
use crate::coming::Coming;
use crate::encoding::begins_as_utf16;
use crate::found::Found;
use crate::shown::{CEvent, bare, blank};
use crate::source::Source;
use crate::status::Status;
use saphyr_parser::{Event, Fault, Marker, Parser, Progress, Span, no_event};
use std::alloc::{AllocError, Global};
use std::mem;
use yaml_tree::{Grower, NodeTable};

// Why a text that isn't UTF-8 is refused.
pub(crate) fn unreadable(text: &[u8]) -> Status
    requires { IsUtf8 text.now → ⊥ }
    ensures { RefusesText text.now result }
{
    if begins_as_utf16(text) {
        Status::Utf16
    } else {
        Status::NotUtf8
    }
}

/// A parser, and what it handed out last.
#[derive(Drop)]
pub struct Inner {
    pub(super) source: Source,
    // What was handed out last: places for an event and for a fault, and which of them it was.
    pub(super) next: (Event<'static>, Span),
    pub(super) fault: Fault,
    pub(super) progress: Progress,
    // Of a text that comes in pieces: whether that was only shown, and is still to be handed out.
    pub(super) shown: bool,
    // The trees of its text, once they are loaded.
    pub(super) table: NodeTable,
    // Of a text that comes in pieces: the tree of the next document, as far as that was taken.
    pub(super) growing: Option<Box<Grower, Global>>,
    // What is found in a text. The parser then reads no text: one type of handle serves both.
    pub(super) found: Option<Box<Found, Global>>,
}

impl Inner {
    ghost use Rattle.saphyr_parser.specs.Calls as calls;
    ghost use Rattle.saphyr_parser.specs.Cursor as cursor;
    ghost use Rattle.saphyr_parser_c.specs.Inner as spec;

    // A parser that has handed out nothing here, on the heap.
    fn fresh(alloc: Global, source: Source) -> Result<Box<Inner, Global>, AllocError>
        ensures { IfOk result (λ b. (b.value.source ≡ source) × spec.IsFresh b.value) }
    {
        let inner = Inner {
            source,
            next: no_event(),
            fault: Fault::OutOfMemory,
            progress: Progress::Over,
            shown: false,
            table: NodeTable::new(alloc),
            growing: None,
            found: None,
        };
        match Box::new(alloc, inner) {
            Ok(inner) => Ok(inner),
            Err(_) => Err(AllocError),
        }
    }

    /// A parser at the start of a text, on the heap.
    pub fn over(
        alloc: Global,
        text: &'static [u8],
        keep_tags: bool,
    ) -> Result<Box<Inner, Global>, Status>
        ensures { MatchResult result
            (λ b. spec.IsOverText text.now keep_tags b.value) (spec.RefusesText text.now) }
    {
        let Ok(text) = str::from_utf8(text) else {
            return Err(unreadable(text));
        };
        match Inner::over_text(alloc, text, keep_tags) {
            Ok(inner) => Ok(inner),
            Err(_) => Err(Status::NoMemory),
        }
    }

    /// A parser over bytes that are known to be a text.
    pub fn over_text(
        alloc: Global,
        text: &'static str,
        keep_tags: bool,
    ) -> Result<Box<Inner, Global>, AllocError>
        requires { IsUtf8 text.now }
        ensures { IfOk result (λ b. spec.IsOverText text.now keep_tags b.value) }
    {
        let parser = Parser::new_from_str(alloc, text).keep_tags(keep_tags);
        let inner = Inner::fresh(alloc, Source::Whole(parser))?;
        Ok(inner)
    }

    /// A parser of a text that comes in pieces, of which nothing came, on the heap.
    pub fn of_pieces(
        alloc: Global,
        keep_tags: bool,
        most_characters: usize,
        most_waiting: usize,
    ) -> Result<Box<Inner, Global>, AllocError>
        ensures { IfOk result
            (λ b. spec.IsOfPieces keep_tags most_characters most_waiting b.value) }
    {
        let coming = Coming::new(alloc, keep_tags, most_characters, most_waiting)?;
        let inner = Inner::fresh(alloc, Source::of_pieces(alloc, coming)?)?;
        Ok(inner)
    }

    /// Adds the next bytes of a text that comes in pieces. No bytes say that no more come.
    pub fn add(&mut self, alloc: Global, bytes: &[u8]) -> Status
        ensures { spec.AddsToC bytes.now self.old result self.new }
    {
        match &mut self.source {
            Source::Whole(_) => Status::Whole,
            Source::Pieces(coming) => coming.add(alloc, bytes),
        }
    }

    /// The same of bytes that are known to be a text.
    pub fn add_text(&mut self, alloc: Global, text: &str) -> Status
        requires { IsUtf8 text.now }
        ensures { spec.AddsToC text.now self.old result self.new }
    {
        match &mut self.source {
            Source::Whole(_) => Status::Whole,
            Source::Pieces(coming) => coming.add_text(alloc, text),
        }
    }

    /// Hands out what comes next, and keeps it here until the next call.
    pub fn step(&mut self, alloc: Global, out: &mut CEvent) -> Status
        ensures { spec.HandsToC self.old result out.new self.new }
    {
        match &mut self.source {
            Source::Whole(parser) => {
                self.progress = parser.next_event_into(&mut self.next, &mut self.fault);
                self.write(alloc, out)
            }
            Source::Pieces(_) if self.shown => {
                self.shown = false;
                self.give_up();
                self.write(alloc, out)
            }
            Source::Pieces(coming) => {
                let Some(progress) = coming.next_into(&mut self.next, &mut self.fault) else {
                    let status = coming.waiting_status();
                    let place = coming.last_end();
                    return self.wait(status, place, out);
                };
                self.progress = progress;
                self.give_up();
                self.write(alloc, out)
            }
        }
    }

    // Gives up the tree of a document that lacks an event.
    #[inline(always)]
    fn give_up(&mut self)
        ensures { spec.GivesUp self.old self.new }
    {
        self.growing = None;
    }

    // Says that no event comes, why, and behind which place.
    fn wait(&mut self, status: Status, place: Marker, out: &mut CEvent) -> Status
        ensures { spec.Waits self.old status place result out.new self.new }
    {
        self.progress = Progress::Over;
        *out = bare(0, place, place);
        status
    }

    // Writes what is kept.
    #[inline(always)]
    fn write(&mut self, alloc: Global, out: &mut CEvent) -> Status
        ensures { spec.WritesKept self.old result out.new self.new }
    {
        match self.progress {
            Progress::Event => {
                write_event(alloc, &mut self.next, out);
                Status::Event
            }
            Progress::Fault => write_fault(alloc, &mut self.fault, out),
            Progress::Over => {
                *out = blank();
                Status::End
            }
        }
    }

    /// Shows what comes next.
    pub fn look(&mut self, alloc: Global, out: &mut CEvent) -> Status
        ensures { spec.ShowsToC self.old result out.new self.new }
    {
        match &mut self.source {
            Source::Whole(parser) => write_lent(parser.peek(), out),
            Source::Pieces(_) if self.shown => self.write(alloc, out),
            Source::Pieces(coming) => {
                let Some(progress) = coming.next_into(&mut self.next, &mut self.fault) else {
                    let status = coming.waiting_status();
                    let place = coming.last_end();
                    return self.wait(status, place, out);
                };
                self.progress = progress;
                self.shown = true;
                self.write(alloc, out)
            }
        }
    }

    // What was shown and is still to be handed out, if anything was.
    fn copy_shown(&self, copy: &mut Inner) -> Result<(), AllocError>
        ensures { spec.CopiesShown self.now copy.old result copy.new }
    {
        if self.shown {
            copy.next = (self.next.0.try_clone()?, self.next.1);
            copy.fault = self.fault.try_clone()?;
            copy.progress = self.progress;
            copy.shown = true;
        }
        Ok(())
    }

    /// An independent parser at the same place, on the heap.
    #[tactic(auto, using(crate::proofs::OfPieces::copied))]
    pub fn copy(&self, alloc: Global) -> Result<Box<Inner, Global>, AllocError>
        ensures { IfOk result (λ b. spec.IsCopyOfParser self.now b.value) }
    {
        let source = self.source.copy(alloc)?;
        let mut copy = Inner::fresh(alloc, source)?;
        self.copy_shown(&mut copy)?;
        Ok(copy)
    }

    /// Sets whether the prefixes of tags hold for later documents too.
    pub fn keep_tags(&mut self, alloc: Global, value: bool)
        ensures { spec.SetsKeepTags value self.old self.new }
    {
        match &mut self.source {
            Source::Whole(place) => {
                let parser = mem::replace(place, Parser::new_from_str(alloc, ""));
                *place = parser.keep_tags(value);
            }
            Source::Pieces(coming) => coming.keep_tags(value),
        }
    }
}
