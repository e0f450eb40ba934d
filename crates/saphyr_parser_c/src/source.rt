//! What a parser reads: a whole text, or one that comes in pieces.

ghost use Rattle.std.specs.Prelude.{IfOk};
ghost use Rattle.saphyr_parser_c.specs.Inner.{IsSourceCopy, IsSourceOf};

use crate::coming::Coming;
use saphyr_parser::{Parser, StrInput};
use std::alloc::{AllocError, Global};

/// The parser of a text.
#[derive(Drop)]
pub enum Source {
    Whole(Parser<'static, StrInput<'static>>),
    // On the heap, so that the parser of a whole text is no larger for it.
    Pieces(Box<Coming, Global>),
}

impl Source {
    /// The parser of a text that comes in pieces.
    pub fn of_pieces(alloc: Global, coming: Coming) -> Result<Source, AllocError>
        ensures { IfOk result (IsSourceOf coming) }
    {
        match Box::new(alloc, coming) {
            Ok(coming) => Ok(Source::Pieces(coming)),
            Err(_) => Err(AllocError),
        }
    }

    /// An independent parser at the same place.
    pub fn copy(&self, alloc: Global) -> Result<Source, AllocError>
        ensures { IfOk result (λ copy. IsSourceCopy self.now copy) }
    {
        match self {
            Source::Whole(parser) => Ok(Source::Whole(parser.try_clone()?)),
            Source::Pieces(coming) => Ok(Source::of_pieces(alloc, coming.copy(alloc)?)?),
        }
    }
}
