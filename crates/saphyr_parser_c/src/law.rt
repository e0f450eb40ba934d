//! What follows from the contracts, which no code needs.

ghost use Rattle.std.specs.Prelude.{◌≡◌, ◌++◌, ℕ, Bool, true, false, List, [], Some, None};
ghost use Rattle.yaml_tree.specs.declared.table.NodeTable.{NodeTable};
ghost use Rattle.yaml_tree.specs.declared.tally.Limits.{Limits};
ghost use Rattle.yaml_tree.specs.Tables.{Event};
ghost use Rattle.saphyr_parser_c.specs.declared.inner.Inner.{Inner};
ghost use Rattle.saphyr_parser_c.specs.declared.shown.CEvent.{CEvent};
ghost use Rattle.saphyr_parser_c.specs.declared.status.Status.{Status};
ghost use Rattle.saphyr_parser_c.specs.declared.status.Status.TheVariants.{Done};
ghost use Rattle.saphyr_parser_c.specs.Growing as spec;
ghost use Rattle.saphyr_parser_c.specs.Inner.{AddsToC, ShowsToC};

use saphyr_parser::law::hands_out_what_comes;

/// However a text is cut, and however many calls take a document's events, the table is that of the next document of
/// the whole text, by `load_next_table`; and where none is told to be left, none is.
///
/// Say that a parser was at a place of the text, then bytes came and calls took events, and that it is behind these.
/// `takes`, `peeks`, `adds` and `ends` say that it is so again after the next call.
pub fn loads_pieces_as_the_whole()
    ensures loads { (limits : Limits) (es : List Event) (table : NodeTable) (came : List ℕ)
        (all : Bool) (start before after : Inner)
        → spec.PassesThese es (spec.once_came came all (spec.spot_of start)) (spec.spot_of before)
        → spec.ClosesDocument limits es table (spec.spot_of before) (spec.spot_of after)
        → spec.LoadsAsWhole limits (Some table) (spec.once_came came all (spec.spot_of start))
        (spec.spot_of after) }
    ensures none { (limits : Limits) (es : List Event) (came : List ℕ) (all : Bool)
        (start before after : Inner)
        → spec.PassesThese es (spec.once_came came all (spec.spot_of start)) (spec.spot_of before)
        → spec.EndsNoDocument es (spec.spot_of before) (spec.spot_of after)
        → spec.LoadsAsWhole limits None (spec.once_came came all (spec.spot_of start))
        (spec.spot_of after) }
    ensures takes { (es took : List Event) (came : List ℕ) (all : Bool) (start before after : Inner)
        → spec.PassesThese es (spec.once_came came all (spec.spot_of start)) (spec.spot_of before)
        → spec.PassesThese took (spec.spot_of before) (spec.spot_of after)
        → spec.PassesThese (es ++ took) (spec.once_came came all (spec.spot_of start))
        (spec.spot_of after) }
    ensures peeks { (before after : Inner) (s : Status) (c : CEvent) → ShowsToC before s c after
        → spec.PassesThese [] (spec.spot_of before) (spec.spot_of after) }
    ensures adds { (es : List Event) (came bytes : List ℕ) (start before after : Inner)
        → (bytes ≡ [] → ⊥) → AddsToC bytes before Done after
        → spec.PassesThese es (spec.once_came came false (spec.spot_of start)) (spec.spot_of before)
        → spec.PassesThese es (spec.once_came (came ++ bytes) false (spec.spot_of start))
        (spec.spot_of after) }
    ensures ends { (es : List Event) (came : List ℕ) (start before after : Inner)
        → AddsToC [] before Done after
        → spec.PassesThese es (spec.once_came came false (spec.spot_of start)) (spec.spot_of before)
        → spec.PassesThese es (spec.once_came came true (spec.spot_of start)) (spec.spot_of after) }
{
    hands_out_what_comes();
}
