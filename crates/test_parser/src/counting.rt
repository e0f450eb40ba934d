//! What the example `example_count` counts of a text.
use crate::helpers::expect;
use example_count::{Counts, count_all};
use std::alloc::Global;

// The scalars of a text by each input, and where the last of its events begins, or that it is refused.
const COUNTED: &[(&str, Option<(usize, usize)>)] = &[
    ("a: 1\nb: {c: d}\n", Some((5, 15))),
    ("[a", None),
];

fn are_counts(alloc: Global, text: &str, wanted: Option<(usize, usize)>) -> bool {
    match count_all(alloc, text) {
        Ok(counts) => wanted == scalars_and_place(counts),
        Err(fault) => {
            drop(fault);
            wanted.is_none()
        }
    }
}

// The number that each input gives, where it is the same.
fn scalars_and_place(counts: Counts) -> Option<(usize, usize)> {
    let scalars = counts.from_text;
    if counts.from_iterator == scalars && counts.from_own_input == scalars {
        return Some((scalars, counts.last_index));
    }
    None
}

#[test]
fn counts_scalars_in_each_way(rt: HostRuntime) {
    for &(text, wanted) in COUNTED {
        expect(&rt, are_counts(rt.alloc(), text, wanted), text);
    }
}
