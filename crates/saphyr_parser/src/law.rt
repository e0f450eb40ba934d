//! Laws of the definitions that the promises on a parser use, for those who prove more about parsers.

mod calling;
mod comparing;
mod later;
mod refusing;

pub use calling::{
    hands_out_what_comes, hands_out_what_was_peeked, keeps_no_prefixes_at_first,
    loads_the_end_again,
};
pub use comparing::{
    hashes_alike, orders_places, orders_styles, orders_tags, reads_inputs_alike, starts_at_zero,
};
pub use event_laws::{
    begins_alike, begins_forests, closes_tokens, counts_anchors, emits_breaks_alike,
    emits_by_kinds, finds_the_latest_anchor, gives_each_forest, has_events, has_one_meaning,
    keeps_spans_in, loads_all_events, nests_each_forest, nests_events, refuses_at_tokens,
    sets_at_document_ends, stands_at_no_colon, takes_all_events,
};
pub use later::{
    keeps_spans_later, keeps_spans_over_load, leaves_later_parsers, loads_later_parsers,
};
pub use refusing::refuses_long_texts;
