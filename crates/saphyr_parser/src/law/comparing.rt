//! Laws of parsers over equal characters, and of the orders, hashes and defaults of values.
ghost use Rattle.std.specs.Prelude.{◌≡◌, ◌↔◌, Bool};
ghost use Rattle.std.specs.Cmp.Lexicographic.{slice_cmp};
ghost use Rattle.std.specs.Ordering.{nat_cmp, ordering_then};
ghost use Rattle.std.specs.declared.cmp.Ordering.TheVariants.{Equal};
ghost use Rattle.saphyr_machine.specs.Cursor.{keeping_tags, to_come};
ghost use Rattle.saphyr_machine.specs.Views.Events.{resolved_tag};
ghost use Rattle.saphyr_machine.specs.declared.tag.Tag.{Tag as DeclaredTag};
ghost use Rattle.saphyr_parser.specs.StyleOrder.{style_rank};
ghost use Rattle.saphyr_scanner.specs.Grammar.Forest.{Style};

use crate::cursor::Parser;
use saphyr_input::input::Input;
use saphyr_machine::Tag;
use saphyr_scalar::{Marker, ScalarStyle, Span};
use std::alloc::Global;
use std::cmp::Ordering;
use std::hash::Hash;

/// Inputs of any two kinds with the same characters give equal parsers: the same events with the same spans, and
/// the same fault, whether prefixes of tags are kept or not.
pub fn reads_inputs_alike<'a, 'b, T: Input, U: Input>(
    alloc: Global,
    one: T,
    other: U,
) -> (Parser<'a, T>, Parser<'b, U>)
    requires { T.rest one ≡ U.rest other }
    ensures parsers { result.0 ≡ result.1 }
    ensures events { (keep : Bool) → to_come (keeping_tags keep result.0)
        ≡ to_come (keeping_tags keep result.1) }
{
    (Parser::new(alloc, one), Parser::new(alloc, other))
}

/// Tags are ordered by the bytes of their handles, and equal handles by those of the suffixes. Tags compare as
/// equal exactly if they are equal.
pub fn orders_tags(one: &Tag, other: &Tag) -> Ordering
    ensures order { result ≡ ordering_then (slice_cmp nat_cmp (resolved_tag one.now).handle
        (resolved_tag other.now).handle)
        (slice_cmp nat_cmp (resolved_tag one.now).suffix (resolved_tag other.now).suffix) }
    ensures equal { result ≡ Equal ↔ resolved_tag one.now ≡ resolved_tag other.now }
{
    one.cmp(other)
}

/// Styles are ordered as they are declared: plain, single quoted, double quoted, literal, folded. They compare as
/// equal exactly if they are equal.
pub fn orders_styles(one: ScalarStyle, other: ScalarStyle) -> Ordering
    ensures order { result ≡ nat_cmp (style_rank one) (style_rank other) }
    ensures equal { result ≡ Equal ↔ one ≡ other }
{
    one.cmp(&other)
}

/// Places are ordered by their indexes, then by their lines and columns. So those of one text are in the text's order.
/// They compare as equal exactly if they are equal.
pub fn orders_places(one: Marker, other: Marker) -> Ordering
    ensures order { result ≡ ordering_then (nat_cmp one.index other.index)
        (ordering_then (nat_cmp one.line other.line) (nat_cmp one.col other.col)) }
    ensures equal { result ≡ Equal ↔ one ≡ other }
{
    one.cmp(&other)
}

/// Equal tags feed a hasher alike, and so do equal styles.
pub fn hashes_alike()
    ensures tags { (one other : DeclaredTag) → resolved_tag one ≡ resolved_tag other
        → ⟦<Tag as Hash>⟧.hash_input one ≡ ⟦<Tag as Hash>⟧.hash_input other }
    ensures styles { (one other : Style) → one ≡ other
        → ⟦<ScalarStyle as Hash>⟧.hash_input one ≡ ⟦<ScalarStyle as Hash>⟧.hash_input other }
{}

/// A default place has index, line and column 0, and a default span is the empty one there.
pub fn starts_at_zero() -> (Marker, Span)
    ensures place { result.0 ≡ record { index = 0; line = 0; col = 0 } }
    ensures span { result.1 ≡ record { start = result.0; end = result.0 } }
{
    (Marker::default(), Span::default())
}
