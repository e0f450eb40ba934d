//! Laws of the reader of block scalars in the standard's words (YAML 1.2.2, 8.1): what is spelled with line feeds is
//! read.

ghost use Rattle.std.specs.Prelude.{ℕ, List};
ghost use Rattle.saphyr_scalar.specs.Views.Cursor.{Cursor};
ghost use Rattle.saphyr_scalar.specs.Values.Block.{Line};
ghost use Rattle.scalar_laws.specs.Spelling.Block.{IsBlockScalar, IsTaken};

use saphyr_scalar::values::{BlockStyle, Chomping};

/// If a block scalar is spelled with line feeds for its breaks, and what ends it follows, it is read,
/// without a fault, and is the value of its lines.
pub fn reads_each_block_scalar()
    ensures { (style : BlockStyle) (chomping : Chomping) (indent i n : ℕ) (lines : List Line)
        (s : Cursor) (body others : List ℕ)
        → IsBlockScalar indent i n chomping lines s.rest body others
        → IsTaken style indent i n chomping lines s body others }
{}
