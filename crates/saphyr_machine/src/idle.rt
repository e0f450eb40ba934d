//! Tokens between documents that make no event. The reader of a text in pieces passes them, so that they are not kept.

ghost use Rattle.std.specs.Prelude.{◌≡◌, ℕ, List, [], ◌∷◌, true, IfOk, IfSome, IsTrue};
ghost use Rattle.saphyr_machine.specs.Passed as spec;

use crate::document::{is_directive, is_passable};
use crate::machine::Machine;
use crate::reader::EventReader;
use crate::state::State;
use saphyr_input::input::Input;
use saphyr_scalar::Span;
use saphyr_scanner::{Stopped, TokenKind, TokenParts};

/// A token that was passed.
#[derive(Drop)]
pub struct PassedToken {
    pub(super) kind: TokenKind,
    pub(super) span: Span,
    pub(super) parts: TokenParts,
}

impl<T: Input> Machine<T> {
    ghost use Rattle.std.specs.Prelude.{Ok};
    ghost use Rattle.saphyr_scalar.specs.declared.scalar.position.Span.{Span as Place};
    ghost use Rattle.saphyr_scanner.specs.Views.Scanning.{tokens_in};
    ghost use Rattle.saphyr_scanner.specs.Views.Tokens.{Parts, piece_with};
    ghost use Rattle.saphyr_machine.specs.Views.Machines.{machine_in};

    // Whether a token of this kind, which was the next between two documents, makes no event: it is `...`, a byte
    // order mark, or a reserved directive before another directive.
    fn makes_no_event(&mut self, kind: TokenKind) -> Result<bool, Stopped>
        ensures same { IfOk result (λ no. (more : List ℕ)
            → machine_in more self.new ≡ machine_in more self.old) }
        ensures none { IfOk result (λ no. no ≡ true → (more : List ℕ) (span : Place) (x : Parts)
            → spec.MakeNoEvent (piece_with span kind x ∷ []) (tokens_in more self.new.scanner)) }
    {
        match kind {
            TokenKind::ReservedDirective => Ok(is_directive(self.peek()?)),
            _ => Ok(is_passable(kind, true)),
        }
    }
}

impl<T: Input> EventReader<'_, T> {
    ghost use Rattle.saphyr_machine.specs.Views.Readers.{cursor, cursor_in};

    /// Whether nothing was read ahead, and a document may begin next without `---`.
    pub fn is_between(&self) -> bool
        ensures { IsTrue result → spec.IsBetweenDocuments (cursor self.now) }
    {
        let between = matches!(self.machine.state, State::ImplicitDocumentStart);
        between && self.current.is_none() && self.kept.is_none()
    }

    /// Passes the next token, if a document may begin there without `---`, and the next event doesn't depend on the
    /// token. `None`: it does, or what came doesn't tell, and nothing is known of the reader any more.
    pub fn pass_token(&mut self) -> Option<PassedToken>
        ensures { IfSome result (λ t. (more : List ℕ)
            → spec.PassesIdle (spec.piece_of t ∷ []) (cursor_in more self.old)
            (cursor_in more self.new)) }
    {
        if !self.is_between() {
            return None;
        }
        let Ok(kind) = self.machine.peek() else {
            return None;
        };
        let span = self.machine.span();
        let Ok(parts) = self.machine.take_parts() else {
            return None;
        };
        match self.machine.makes_no_event(kind) {
            Ok(true) => Some(PassedToken { kind, span, parts }),
            _ => None,
        }
    }
}
