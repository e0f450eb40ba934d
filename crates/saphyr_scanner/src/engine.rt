//! The state of a scanner, and the steps that several kinds of tokens share. `fill` says how many tokens are read.
//! `arrive` goes to the next one, and `fetch` chooses by the characters there. `block`, `flow`, `value`, `scalar`,
//! `property` and `document` read the token. `level`, `key` and `indent` say what is open, and what may be a key.

mod arrive;
mod block;
mod cloning;
mod document;
mod fetch;
mod fill;
mod flow;
mod indent;
mod key;
mod level;
mod property;
mod scalar;
mod value;

ghost use Rattle.std.specs.Prelude.{◌≡◌, ◌<◌, ◌^◌, length, Ok};
ghost use Rattle.saphyr_scanner.specs.Grammar.Tokens as tokens;
ghost use Rattle.saphyr_scanner.specs.Steps.Core as spec;
ghost use Rattle.saphyr_scanner.specs.Steps.Passing as passing;
ghost use Rattle.saphyr_scanner.specs.Steps.State as spec_state;

use crate::gap::skip_gap;
use crate::queue::{Extent, Queue};
use crate::stopped::{Stopped, keep};
use crate::token::TokenKind;
pub(crate) use level::{Candidate, Context, Level};
use saphyr_input::input::{Input, SkipTabs};
use saphyr_scalar::{FaultText, Marker, Reader, Refusal, Span, Stop};
use std::alloc::Global;

/// The state of a scanner: the rest of the text, the tokens that were read and not handed out, and
/// what is open.
///
/// The steps for every token are inlined, since a call costs more than most of them. What ended the reading is a field:
/// a result with room for it would be cleared before each call and copied after it.
#[derive(Drop)]
pub(crate) struct Engine<T: Input> {
    // The rest of the text, and the place that is reached.
    pub(super) reader: Reader<T>,
    // The tokens that were read and not handed out.
    pub(super) queue: Queue,
    // The innermost flow collection, or the outside of all, and the token there that may be a key.
    level: Level,
    // What is open around the level, the outermost first: at `b` in `[a, {b`, the outside and the sequence.
    pub(super) outer: Vec<Level>,
    // Whether the candidate outside flow must be a key, since it is at the column of the innermost block
    // collection: `b` on the line after `a: 1` is refused without its colon.
    required: bool,
    // Whether the next token may begin a key. Outside flow, also whether a `-`, a `?` or a colon without a candidate
    // may come. It is true outside flow at the start of a line and after these three, and inside flow after an
    // opening bracket and a comma: `a: b: c` and `a: - b` are refused.
    key_allowed: bool,
    // The index at which a colon inside flow needs no blank after it: the end of a quoted scalar or a flow
    // collection, and of the blanks after it. So `{"a":b}` is a pair, and `{a:b}` has only the key `a:b`.
    adjacent: usize,
    // The first column to the right of the innermost block collection, or 0 if none is open: 3 at `b` in `- a: b`.
    pub(super) indent: usize,
    // Whether content must be at `indent` or right of it, as after `a:` and in the brackets of `- [`. Otherwise it may
    // also be one column further left, where the collection's next entry begins.
    deeper: bool,
    // What `indent` was around each block collection, the outermost first: 0 and 1 at `b` in `- a: b`.
    outer_indents: Vec<usize>,
    // The comment that ended the last plain scalar. It is kept up to the next token, to refuse content of the next line
    // that would go on with the scalar.
    comment: Option<Marker>,
    // Whether the token of the stream's start was put into the queue.
    pub(super) started: bool,
    // Whether the token of the stream's end was put into the queue.
    pub(super) ended: bool,
    // What ended the reading, once a call has returned `Stopped`.
    pub(super) stop: Stop,
    // Where the memory of tokens and their texts comes from.
    pub(super) alloc: Global,
}

impl<T: Input> Engine<T> {
    ghost use Rattle.std.specs.Prelude.{false};
    ghost use Rattle.saphyr_scalar.specs.Known.{may_be_open};
    ghost use Rattle.saphyr_scalar.specs.Views.Cursor.{is_missing};
    ghost use Rattle.saphyr_scalar.specs.Views.Reader.{Moves};
    ghost use Rattle.saphyr_scanner.specs.Views.Engine.{state, stopped_by, CarriesBy, Performs};
    ghost use Rattle.saphyr_scanner.specs.Views.Tokens.{kind_with, no_parts};
    ghost use Rattle.saphyr_scalar.specs.declared.scalar.fault.Stop.TheVariants.{Refused};

    pub(crate) fn new(alloc: Global, input: T) -> Self
        ensures start { state result ≡ spec_state.start (T.rest input) }
        ensures countable { length (T.rest input) < 2 ^ 63 }
    {
        Engine {
            reader: Reader::new(input),
            queue: Queue::new(alloc),
            level: Level::new(Context::Block),
            outer: Vec::new(alloc),
            required: false,
            key_allowed: true,
            adjacent: 0,
            indent: 0,
            deeper: false,
            outer_indents: Vec::new(alloc),
            comment: None,
            started: false,
            ended: false,
            stop: Stop::OutOfMemory,
            alloc,
        }
    }

    // Whether no flow collection is open.
    fn in_block(&self) -> bool
        ensures { result ≡ spec.in_block (state self.now).core }
    {
        self.level.context.is_block()
    }

    // The text is refused at a place. Where it is open, what comes behind what came may change that.
    fn refuse(&mut self, text: FaultText, mark: Marker, may_change: bool) -> Stopped
        ensures { self.new.stop ≡ Refused (record
            { text = text; mark = mark; may_change = may_change }) }
    {
        self.stop = Stop::Refused(Refusal {
            text,
            mark,
            may_change,
        });
        Stopped
    }

    // The text is refused at the place that is reached, whatever comes.
    fn refuse_here(&mut self, text: FaultText) -> Stopped
        ensures { self.new.stop ≡ Refused (record
            { text = text; mark = (state self.old).core.cursor.mark; may_change = false }) }
    {
        let mark = self.reader.mark();
        self.refuse(text, mark, false)
    }

    // The text is refused at a place, unless what is left of it is open.
    fn refuse_open(&mut self, text: FaultText, mark: Marker) -> Stopped
        ensures { self.new.stop ≡ Refused (record {
          text = text;
          mark = mark;
          may_change = may_be_open (state self.old).core.cursor.rest;
        }) }
    {
        let may_change = self.reader.is_at_open_end();
        self.refuse(text, mark, may_change)
    }

    // The text is refused at the place that is reached, unless what is left of it is open.
    fn refuse_open_here(&mut self, text: FaultText) -> Stopped
        ensures { self.new.stop ≡ Refused (record {
          text = text;
          mark = (state self.old).core.cursor.mark;
          may_change = may_be_open (state self.old).core.cursor.rest;
        }) }
    {
        let mark = self.reader.mark();
        self.refuse_open(text, mark)
    }

    // The text is refused at a place, once its character `n` came.
    fn refuse_behind(&mut self, n: usize, text: FaultText, mark: Marker) -> Stopped
        requires { n < 8 }
        ensures { self.new.stop ≡ Refused (record {
          text = text;
          mark = mark;
          may_change = is_missing n (state self.old).core.cursor.rest;
        }) }
    {
        let may_change = self.reader.is_missing(n);
        self.refuse(text, mark, may_change)
    }

    // Puts a token without parts from one place to another into the queue.
    #[inline(always)]
    fn put(&mut self, start: Marker, end: Marker, kind: TokenKind) -> Result<(), Stopped>
        ensures { Performs (spec.from_to start end (kind_with kind no_parts)) self.old result
            self.new }
    {
        keep(&mut self.stop, self.queue.put(kind, &start, &end))
    }

    // Puts a token with these parts into the queue.
    #[tactic(auto, using(crate::proofs::Parts::all_parts))]
    fn put_parts(
        &mut self,
        span: Span,
        kind: TokenKind,
        handle: &str,
        text: &str,
        major: u32,
        minor: u32,
    ) -> Result<(), Stopped>
        ensures { Performs (spec.from_to span.start span.end (kind_with kind (record
            { handle = handle.now; text = text.now; major = major; minor = minor })))
            self.old result self.new }
    {
        let extent = Extent {
            span,
            handle: handle.len(),
            text: text.len(),
            major,
            minor,
        };
        let put = self.queue.put_parts(kind, extent, handle, text);
        keep(&mut self.stop, put)
    }

    // Passes blanks and a comment, up to the end of the line.
    #[inline(always)]
    fn separate(&mut self) -> Result<SkipTabs, Stopped>
        ensures { Moves (λ found. (found, state self.new)) (stopped_by result self.new.stop)
            (spec_state.on_core_with (passing.separate (state self.old).core) (state self.old)) }
    {
        keep(&mut self.stop, self.reader.skip_ws_to_eol(SkipTabs::Yes))
    }

    // Passes what is between two tokens.
    #[inline(never)]
    #[tactic(auto, unfolding(crate::specs::Steps::Passing::pass_gap))]
    fn pass_gap(&mut self) -> Result<(), Stopped>
        ensures { CarriesBy passing.pass_gap self.old result self.new }
    {
        let least = self.least_column();
        if keep(&mut self.stop, skip_gap(&mut self.reader, least))? && self.in_block() {
            self.key_allowed = true;
        }
        self.check_comment()
    }

    // Refuses a comment that ended a plain scalar, if the next line could go on with the scalar.
    #[inline(always)]
    #[tactic(auto, unfolding(crate::specs::Steps::Passing::check_comment))]
    fn check_comment(&mut self) -> Result<(), Stopped>
        ensures { CarriesBy passing.check_comment self.old result self.new }
    {
        let Some(comment) = self.comment else {
            return Ok(());
        };
        self.comment = None;
        if self.goes_on_behind(comment) {
            return Err(self.refuse_open(FaultText::CommentInsideText, comment));
        }
        Ok(())
    }

    // Whether the next line could go on with a plain scalar that a comment ended.
    #[inline(never)]
    #[tactic(auto, unfolding(crate::specs::Steps::Passing::goes_on_behind))]
    fn goes_on_behind(&mut self, comment: Marker) -> bool
        ensures value { result ≡ passing.goes_on_behind comment (state self.old).core }
        ensures same { state self.new ≡ state self.old }
    {
        self.reader.load(4);
        let mark = self.reader.mark();
        let input = self.reader.input();
        self.in_block()
            && mark.line.saturating_sub(comment.line) == 1
            && (if self.deeper {
                self.indent < mark.col
            } else {
                self.indent <= mark.col
            })
            && !input.next_is_z()
            && !(mark.col == 0 && input.next_is_document_indicator())
            && input.next_can_be_plain_scalar(false)
    }
}
