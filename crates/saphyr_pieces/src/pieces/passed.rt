//! The tokens that a reader passed since its last event. Contracts see them, and at run time there is nothing.

ghost use Rattle.std.specs.Prelude.{List};
ghost use Rattle.std.specs.Borrow.{ftrue};
ghost use Rattle.saphyr_scanner.specs.Views.Tokens.{Piece};

use saphyr_machine::PassedToken;
use std::marker::{Model, Send};

/// The tokens that were passed. Without them no contract could say where the events of a parser go on: it has the
/// tokens that are left.
#[derive(Drop)]
pub(crate) struct Passed {
    ghost tokens: { List Piece },
}

impl Model for Passed {
    ghost also_owns = { λ _. ftrue };
}

// It owns nothing.
unsafe impl Send for Passed {}

impl Passed {
    ghost use Rattle.std.specs.Prelude.{◌≡◌, ◌++◌};
    ghost use Rattle.saphyr_pieces.specs.Passed.{passed_tokens, token_pieces};

    /// The tokens that were passed before, and behind them this one, if it is one.
    pub(crate) fn and(_before: &Option<Passed>, _token: &Option<PassedToken>) -> Passed
        ensures { result.tokens ≡ passed_tokens _before.now ++ token_pieces _token.now }
    {
        Passed {}
    }
}
