//! What `load` hands over and where it stops: at a document's end, at a fault, and where the receiver refuses.
ghost use Rattle.std.specs.Prelude.{◌≡◌, ◌⊎◌};

use crate::showing::Call::{Load, LoadAll, LoadPlaceless, LoadRefused, Next, Peek};
use crate::showing::{Row, expect_each, expect_lines, shown};
use saphyr_parser::Parser;
use std::alloc::Global;

// Gives `a`, then `None`, then `b`. From the fourth place on `[`, `1`, then `None`, then `]`.
#[derive(Drop)]
struct Stutter {
    place: u8,
}

impl Iterator for Stutter {
    type Item = char;

    ghost use Rattle.std.specs.Prelude.{◌≡◌, ◌+◌, ◌<◌, ◌==◌, None, Some, if◌then◌else◌};

    ghost next_gives = { λ s r t. (r ≡ (if s.place == 0 then Some 97
        else (if s.place == 2 then Some 98 else (if s.place == 3 then Some 91
        else (if s.place == 4 then Some 49 else (if s.place == 6 then Some 93 else None))))))
        × (s.place < 7 → t.place ≡ s.place + 1) };

    fn next(&mut self) -> Option<char> {
        let place = self.place;
        if place < 7 {
            self.place += 1;
        }
        match place {
            0 => Some('a'),
            2 => Some('b'),
            3 => Some('['),
            4 => Some('1'),
            6 => Some(']'),
            _ => None,
        }
    }
}

// The lines of all that it gives from a place on.
fn shown_from(alloc: Global, place: u8) -> String
    requires { (place ≡ 0) ⊎ (place ≡ 3) }
{
    match Parser::new_from_iter(alloc, Stutter { place }) {
        Ok(parser) => shown(alloc, parser, (&[LoadAll], None)),
        Err(_) => String::new(alloc),
    }
}

const TWO_DOCUMENTS: &str = "> +STR @ 0,1,0 0,1,0
> +DOC @ 0,1,0 1,1,1
> =VAL :a @ 0,1,0 1,1,1
> -DOC @ 2,2,0 5,2,3
loaded
> +DOC --- @ 2,2,0 5,2,3
> =VAL :b @ 6,3,0 7,3,1
> -DOC @ 8,4,0 8,4,0
loaded
> -STR @ 8,4,0 8,4,0
loaded
> -STR @ 8,4,0 8,4,0
loaded
nothing
";

const COLLECTIONS: &str = "> +STR @ 0,1,0 0,1,0
> +DOC @ 0,1,0 1,1,1
> +MAP @ 0,1,0 1,1,1
> =VAL \"a @ 1,1,1 4,1,4
> +SEQ @ 5,1,5 6,1,6
> =VAL :1 @ 6,1,6 7,1,7
> =VAL :true @ 8,1,8 12,1,12
> -SEQ @ 12,1,12 13,1,13
> -MAP @ 13,1,13 14,1,14
> -DOC @ 14,2,0 14,2,0
> -STR @ 14,2,0 14,2,0
loaded
> -STR @ 14,2,0 14,2,0
loaded
nothing
";

const PEEKED: &str = "> +STR @ 0,1,0 0,1,0
> +STR @ 0,1,0 0,1,0
> -STR @ 0,1,0 0,1,0
loaded
";

const REFUSED: &str = "> +STR @ 0,1,0 0,1,0
> +DOC @ 0,1,0 1,1,1
! the receiver refused an event
! load was called inside a document
> =VAL \"a @ 1,1,1 4,1,4
> +SEQ @ 5,1,5 6,1,6
> =VAL :1 @ 6,1,6 7,1,7
> =VAL :true @ 8,1,8 12,1,12
> -SEQ @ 12,1,12 13,1,13
> -MAP @ 13,1,13 14,1,14
> -DOC @ 14,2,0 14,2,0
> -STR @ 14,2,0 14,2,0
";

const ANSWERED: &str = "> +STR @ 0,1,0 0,1,0
> +DOC @ 16,3,0 26,4,3
> =VAL :scalar key @ 16,3,0 26,4,3
! mapping values are not allowed in this context at byte 26 line 4 column 4
! mapping values are not allowed in this context at byte 26 line 4 column 4
! mapping values are not allowed in this context at byte 26 line 4 column 4
nothing
! mapping values are not allowed in this context at byte 26 line 4 column 4
nothing
nothing
";

const LATER: &str = "> +STR @ 0,1,0 0,1,0
> +DOC @ 0,1,0 2,1,2
> =VAL &1 :x @ 0,1,0 4,1,4
> -DOC @ 5,2,0 8,2,3
> +DOC --- @ 5,2,0 8,2,3
! while parsing node, found unknown anchor at byte 9 line 2 column 5
! while parsing node, found unknown anchor at byte 9 line 2 column 5
";

#[test]
fn loads_documents_and_stands_behind_what_stopped_it(rt: HostRuntime) {
    const ROWS: &[Row] = &[
        (
            "a\n---\nb\n",
            (&[Load, Load, Load, Load, Next], None),
            TWO_DOCUMENTS,
        ),
        (
            "{\"a\":[1,true]}",
            (&[LoadAll, Load, Next], None),
            COLLECTIONS,
        ),
        ("", (&[Peek, LoadAll], None), PEEKED),
        ("", (&[Peek, LoadPlaceless], None), PEEKED),
        (
            "{\"a\":[1,true]}",
            (&[LoadRefused(2), LoadAll], None),
            REFUSED,
        ),
        (
            "\n# syntax error\nscalar\nkey: [1, 2]]\nkey1:a2\n",
            (&[Load, Load, Next, Next, Load, Next, Next], None),
            ANSWERED,
        ),
        ("&a x\n--- *a", (&[LoadAll], None), LATER),
    ];
    expect_each(&rt, rt.alloc(), ROWS);
}

const UP_TO_NONE: &str = "> +STR @ 0,1,0 0,1,0
> +DOC @ 0,1,0 1,1,1
> =VAL :a @ 0,1,0 1,1,1
> -DOC @ 1,2,0 1,2,0
> -STR @ 1,2,0 1,2,0
loaded
";

const ENDS_INSIDE: &str = "> +STR @ 0,1,0 0,1,0
> +DOC @ 0,1,0 1,1,1
> +SEQ @ 0,1,0 1,1,1
> =VAL :1 @ 1,1,1 2,1,2
! while parsing a flow sequence, expected ',' or ']' at byte 2 line 2 column 1
! while parsing a flow sequence, expected ',' or ']' at byte 2 line 2 column 1
";

#[test]
fn loads_an_iterator_up_to_its_first_none(rt: HostRuntime) {
    expect_lines(&rt, shown_from(rt.alloc(), 0), UP_TO_NONE);
    expect_lines(&rt, shown_from(rt.alloc(), 3), ENDS_INSIDE);
}
