//! The states at the beginnings and the ends of the stream and of documents, with the directives
//! (YAML 1.2.2, 6.8 and chapter 9).

ghost use Rattle.std.specs.Prelude.{◌≡◌, ℕ, List, None, string_bytes};
ghost use Rattle.saphyr_scanner.specs.Views.Tokens.{Parts, kind_with};
ghost use Rattle.saphyr_machine.specs.Steps.Documents as spec;

use crate::context::NodeContext;
use crate::event::Event;
use crate::handles::Handles;
use crate::machine::Machine;
use crate::prefixes::Prefixes;
use crate::state::State;
use saphyr_input::input::Input;
use saphyr_scalar::{FaultText, Marker, Span};
use saphyr_scanner::{Stopped, TokenKind, TokenParts};
use std::alloc::Global;

// Whether a token of the kind is passed: a byte order mark or, where this is true, the end of a document.
pub(super) fn is_passable(kind: TokenKind, ends: bool) -> bool
    ensures { (x : Parts) → result ≡ spec.is_passable ends (kind_with kind x) }
{
    match kind {
        TokenKind::ByteOrderMark => true,
        TokenKind::DocumentEnd => ends,
        _ => false,
    }
}

pub(super) fn is_directive(kind: TokenKind) -> bool
    ensures { (x : Parts) → result ≡ spec.is_directive (kind_with kind x) }
{
    matches!(
        kind,
        TokenKind::VersionDirective | TokenKind::TagDirective | TokenKind::ReservedDirective
    )
}

// What the directives of a document have declared.
#[derive(Drop)]
pub struct Declared {
    version: bool,
    // Whether prefixes of an earlier document were kept. If none were, the handles of the prefixes are exactly the
    // declared ones, and are not noted a second time: a text may have a million of them.
    apart: bool,
    handles: Handles,
}

impl Declared {
    ghost use Rattle.saphyr_machine.specs.Steps.Machine.{Names, is_listed};
    ghost use Rattle.saphyr_machine.specs.Views.Documents.{declared_of};

    fn nothing(alloc: Global, prefixes: &Prefixes) -> Declared
        ensures { declared_of result prefixes.now ≡ spec.none_declared }
    {
        Declared {
            version: false,
            apart: !prefixes.is_empty(),
            handles: Handles::new(alloc),
        }
    }

    // Whether the document has declared the handle.
    fn has(&self, handle: &str, prefixes: &Prefixes) -> bool
        ensures { result ≡ is_listed handle.now (declared_of self.now prefixes.now).handles }
    {
        if self.apart {
            self.handles.contains(handle)
        } else {
            prefixes.contains(handle)
        }
    }
}

impl<T: Input> Machine<T> {
    ghost use Rattle.std.specs.Prelude.{IfOk, Ok, List, ℕ, true};
    ghost use Rattle.saphyr_scalar.specs.Views.Reader.{Moves};
    ghost use Rattle.saphyr_scanner.specs.Views.Engine.{stopped_by};
    ghost use Rattle.saphyr_scanner.specs.Views.Scanning.{IsReady};
    ghost use Rattle.saphyr_scanner.specs.Grammar.Tokens as tokens;
    ghost use Rattle.saphyr_scanner.specs.Views.Tokens.{Piece};
    ghost use Rattle.saphyr_machine.specs.Views.Machines.{machine_in, emitted_of, ComesTo, IsNext, EmitsBy};
    ghost use Rattle.saphyr_machine.specs.Steps.Machine as machine;
    ghost use Rattle.saphyr_machine.specs.Steps.Machine.{taken_token};
    ghost use Rattle.saphyr_machine.specs.Events as events;
    ghost use Rattle.saphyr_machine.specs.declared.state.State.TheVariants.{DocumentEnd, End};
    ghost use Rattle.saphyr_machine.specs.Views.Documents.{declared_of as seen};

    // Passes byte order marks and, where this is true, ends of documents. Returns the kind of the token that is next.
    fn pass_marks(&mut self, ends: bool) -> Result<TokenKind, Stopped>
        ensures { ComesTo (spec.unpassed_token (spec.is_passable ends)) self.old result self.new }
    {
        loop {
            let kind = self.peek()?;
            if !is_passable(kind, ends) {
                return Ok(kind);
            }
            self.skip();
        }
    }

    // Takes a version directive. A version may be declared once.
    fn version_directive(&mut self, declared: &mut Declared) -> Result<(), Stopped>
        requires { IsReady self.old.scanner }
        ensures { (more : List ℕ) (t : Piece) (m : machine.Machine)
            → taken_token (machine_in more self.old) ≡ Ok (t, m)
            → Moves {Y = spec.Declared × machine.Machine}
            (λ _. (seen declared.new self.new.prefixes, machine_in more self.new))
            (stopped_by result self.new.scanner.stop)
            (spec.version_declared t.span.start (seen declared.old self.old.prefixes) m) }
    {
        let place = self.skip().start;
        if declared.version {
            return Err(self.refuse(FaultText::DuplicateVersionDirective, place));
        }
        declared.version = true;
        Ok(())
    }

    // Takes a tag directive. Each handle may be declared once.
    #[tactic(auto, using(crate::proofs::Names::given_names))]
    fn tag_directive(&mut self, declared: &mut Declared) -> Result<(), Stopped>
        requires { IsReady self.old.scanner }
        ensures { (more : List ℕ) (t : Piece) (m : machine.Machine) (handle prefix : List ℕ)
            → taken_token (machine_in more self.old) ≡ Ok (t, m)
            → t.kind ≡ tokens.TagDirective handle prefix
            → Moves {Y = spec.Declared × machine.Machine}
            (λ _. (seen declared.new self.new.prefixes, machine_in more self.new))
            (stopped_by result self.new.scanner.stop)
            (spec.with_handle handle prefix t.span.start (seen declared.old self.old.prefixes) m) }
    {
        let place = self.span().start;
        let TokenParts {
            handle,
            text: prefix,
            ..
        } = self.take_parts()?;
        if declared.has(handle.as_str(), &self.prefixes) {
            return Err(self.refuse(FaultText::DuplicateTagDirective, place));
        }
        if declared.apart {
            let noted = declared.handles.insert(&handle);
            self.scanner.keep(noted)?;
        }
        let declared = self.prefixes.declare(&handle, &prefix);
        self.scanner.keep(declared)
    }

    // Takes a directive. Reserved ones are ignored.
    fn directive(&mut self, kind: TokenKind, declared: &mut Declared) -> Result<(), Stopped>
        requires { IsNext kind self.old }
        ensures { (more : List ℕ) (t : Piece) (m : machine.Machine)
            → taken_token (machine_in more self.old) ≡ Ok (t, m)
            → spec.is_directive t.kind ≡ true
            → Moves {Y = spec.Declared × machine.Machine}
            (λ _. (seen declared.new self.new.prefixes, machine_in more self.new))
            (stopped_by result self.new.scanner.stop)
            (spec.directive_at t.kind t (seen declared.old self.old.prefixes) m) }
    {
        match kind {
            TokenKind::VersionDirective => self.version_directive(declared),
            TokenKind::TagDirective => self.tag_directive(declared),
            _ => {
                self.skip();
                Ok(())
            }
        }
    }

    // Takes the directives. Returns the kind of the token that is next.
    fn directives(&mut self) -> Result<TokenKind, Stopped>
        ensures { ComesTo (spec.directives spec.none_declared) self.old result self.new }
    {
        let mut declared = Declared::nothing(self.alloc, &self.prefixes);
        loop {
            let kind = self.peek()?;
            if !is_directive(kind) {
                return Ok(kind);
            }
            self.directive(kind, &mut declared)?;
        }
    }

    // The start of the stream.
    #[tactic(auto, unfolding(crate::specs::Steps::Documents::stream_start))]
    pub(super) fn stream_start<'input>(
        &mut self,
        next: &mut (Event<'input>, Span),
    ) -> Result<(), Stopped>
        ensures { EmitsBy spec.stream_start self.old result next.new self.new }
    {
        match self.peek()? {
            TokenKind::StreamStart => {
                let span = self.skip();
                self.state = State::ImplicitDocumentStart;
                self.emit(next, Event::StreamStart, span);
                Ok(())
            }
            _ => Err(self.refuse_next(FaultText::DocumentStartExpected)),
        }
    }

    // A document begins, with `---` where this is true, and goes on in the state.
    #[inline(always)]
    fn begin_document<'input>(
        &mut self,
        explicit: bool,
        state: State,
        span: Span,
        next: &mut (Event<'input>, Span),
    ) -> Result<(), Stopped>
        ensures { EmitsBy (λ m. machine.emit (events.DocumentStart explicit) span
            (machine.with_state state (machine.push DocumentEnd (spec.without_anchors m))))
            self.old result next.new self.new }
    {
        self.anchors.forget();
        self.push(State::DocumentEnd)?;
        self.state = state;
        self.emit(next, Event::DocumentStart(explicit), span);
        Ok(())
    }

    // A document with `---`, whose directives begin with the next token.
    fn explicit_document<'input>(&mut self, next: &mut (Event<'input>, Span)) -> Result<(), Stopped>
        ensures { EmitsBy spec.next_document self.old result next.new self.new }
    {
        match self.directives()? {
            TokenKind::DocumentStart => {
                let span = self.skip();
                self.begin_document(true, State::DocumentContent, span, next)
            }
            TokenKind::ByteOrderMark => Err(self.refuse_next(FaultText::MisplacedByteOrderMark)),
            _ => Err(self.refuse_next(FaultText::DocumentStartExpected)),
        }
    }

    // The end of the stream.
    fn end_stream<'input>(&mut self, next: &mut (Event<'input>, Span))
        requires { IsReady self.old.scanner }
        ensures { (more : List ℕ) → IfOk (taken_token (machine_in more self.old)) (λ taken.
            machine.emit events.StreamEnd taken.0.span (machine.with_state End taken.1)
            ≡ Ok (emitted_of (machine_in more self.new) next.new)) }
    {
        let span = self.skip();
        self.state = State::End;
        self.emit(next, Event::StreamEnd, span);
    }

    // The start of a document that may begin without `---`, or the end of the stream.
    #[tactic(auto, unfolding(crate::specs::Steps::Documents::implicit_start, crate::specs::Steps::Documents::bare_document, crate::specs::Steps::Documents::explicit_document), using(crate::proofs::Passing::put_back_again))]
    pub(super) fn implicit_document_start<'input>(
        &mut self,
        next: &mut (Event<'input>, Span),
    ) -> Result<(), Stopped>
        ensures { EmitsBy spec.implicit_start self.old result next.new self.new }
    {
        match self.pass_marks(true)? {
            TokenKind::StreamEnd => {
                self.end_stream(next);
                Ok(())
            }
            TokenKind::VersionDirective
            | TokenKind::TagDirective
            | TokenKind::ReservedDirective
            | TokenKind::DocumentStart => self.explicit_document(next),
            _ => {
                let span = self.span();
                self.begin_document(false, State::BlockNode, span, next)
            }
        }
    }

    // The start of a document that begins with `---`, or the end of the stream.
    #[tactic(auto, unfolding(crate::specs::Steps::Documents::explicit_start, crate::specs::Steps::Documents::explicit_document), using(crate::proofs::Passing::put_back_again))]
    pub(super) fn document_start<'input>(
        &mut self,
        next: &mut (Event<'input>, Span),
    ) -> Result<(), Stopped>
        ensures { EmitsBy spec.explicit_start self.old result next.new self.new }
    {
        match self.pass_marks(true)? {
            TokenKind::StreamEnd => {
                self.end_stream(next);
                Ok(())
            }
            _ => self.explicit_document(next),
        }
    }

    // What follows `---`.
    #[tactic(auto, unfolding(crate::specs::Steps::Documents::document_content), using(crate::proofs::Passing::put_back_again))]
    pub(super) fn document_content<'input>(
        &mut self,
        next: &mut (Event<'input>, Span),
    ) -> Result<(), Stopped>
        ensures { EmitsBy spec.document_content self.old result next.new self.new }
    {
        match self.peek()? {
            TokenKind::VersionDirective
            | TokenKind::TagDirective
            | TokenKind::ReservedDirective
            | TokenKind::DocumentStart
            | TokenKind::DocumentEnd
            | TokenKind::ByteOrderMark
            | TokenKind::StreamEnd => {
                let span = self.span();
                self.pop();
                let event = self.empty_scalar();
                self.emit(next, event, span);
                Ok(())
            }
            kind => self.node(NodeContext::Block, kind, next),
        }
    }

    // Passes the byte order marks that end a document. The first of these has this place. Only a marker or the end may
    // follow them.
    #[tactic(auto, unfolding(crate::specs::Steps::Documents::token_behind_marks))]
    fn behind_marks(&mut self, first: Marker) -> Result<TokenKind, Stopped>
        ensures { ComesTo (spec.token_behind_marks first) self.old result self.new }
    {
        let kind = self.pass_marks(false)?;
        match kind {
            TokenKind::DocumentStart | TokenKind::DocumentEnd | TokenKind::StreamEnd => Ok(kind),
            _ => Err(self.refuse(FaultText::MisplacedByteOrderMark, first)),
        }
    }

    // Comes to the token after a document and its byte order marks.
    #[tactic(auto, unfolding(crate::specs::Steps::Documents::token_behind_document))]
    fn behind_document(&mut self) -> Result<TokenKind, Stopped>
        ensures { ComesTo spec.token_behind_document self.old result self.new }
    {
        let kind = self.peek()?;
        if !matches!(kind, TokenKind::ByteOrderMark) {
            return Ok(kind);
        }
        let first = self.skip().start;
        self.behind_marks(first)
    }

    // The end of a document.
    #[tactic(auto, unfolding(crate::specs::Steps::Documents::document_end), using(crate::proofs::Passing::put_back_again))]
    pub(super) fn document_end<'input>(
        &mut self,
        next: &mut (Event<'input>, Span),
    ) -> Result<(), Stopped>
        ensures { EmitsBy spec.document_end self.old result next.new self.new }
    {
        let kind = self.behind_document()?;
        let span = self.span();
        match kind {
            TokenKind::DocumentEnd => {
                self.skip();
                self.state = State::ImplicitDocumentStart;
            }
            TokenKind::VersionDirective | TokenKind::TagDirective | TokenKind::ReservedDirective =>
                {
                    return Err(self.refuse_next(FaultText::DocumentEndExpected));
                }
            _ => self.state = State::DocumentStart,
        }
        if !self.keep_tags {
            self.prefixes.forget();
        }
        self.emit(next, Event::DocumentEnd, span);
        Ok(())
    }
}
