//! What no clause says: that calls succeed, and which fault a text gets.
use crate::showing::Call::{LoadPlaceless, Next, Peek};
use crate::showing::{Calls, Row, expect_each};

const AT_EACH_END: Calls = (&[Next, Peek, Next, Next, Peek], None);

const AROUND_THE_FAULT: Calls = (&[], Some(&[Next, Peek, Peek, Next, Next, LoadPlaceless]));

// Three documents that use a prefix of the first.
const PREFIXED: &str = "%TAG !prefix! tag:example.com,2011:
--- !prefix!A
a: b
--- !prefix!B
c: d
--- !prefix!C
e: f
";

// What is told of it where the setting is made before the first document's end is read.
const KEPT: &str = "> +STR @ 0,1,0 0,1,0
> +DOC --- @ 36,2,0 39,2,3
> +MAP <tag:example.com,2011:A> @ 40,2,4 50,3,0
> =VAL :a @ 50,3,0 51,3,1
> =VAL :b @ 53,3,3 54,3,4
> -MAP @ 55,4,0 55,4,0
> -DOC @ 55,4,0 58,4,3
> +DOC --- @ 55,4,0 58,4,3
> +MAP <tag:example.com,2011:B> @ 59,4,4 69,5,0
> =VAL :c @ 69,5,0 70,5,1
> =VAL :d @ 72,5,3 73,5,4
> -MAP @ 74,6,0 74,6,0
> -DOC @ 74,6,0 77,6,3
> +DOC --- @ 74,6,0 77,6,3
> +MAP <tag:example.com,2011:C> @ 78,6,4 88,7,0
> =VAL :e @ 88,7,0 89,7,1
> =VAL :f @ 91,7,3 92,7,4
> -MAP @ 93,8,0 93,8,0
> -DOC @ 93,8,0 93,8,0
> -STR @ 93,8,0 93,8,0
";

// And where that end was peeked before.
const KEPT_LATE: &str = "> +STR @ 0,1,0 0,1,0
> +DOC --- @ 36,2,0 39,2,3
> +MAP <tag:example.com,2011:A> @ 40,2,4 50,3,0
> =VAL :a @ 50,3,0 51,3,1
> =VAL :b @ 53,3,3 54,3,4
> -MAP @ 55,4,0 55,4,0
> -DOC @ 55,4,0 58,4,3
> -DOC @ 55,4,0 58,4,3
> +DOC --- @ 55,4,0 58,4,3
! the handle wasn't declared at byte 59 line 4 column 5
";

const BEFORE_THE_END: Calls = (&[Next, Next, Next, Next, Next, Next], Some(&[]));

const BEHIND_A_PEEK: Calls = (&[Next, Next, Next, Next, Next, Next, Peek], Some(&[]));

const ROWS: &[Row] = &[
    // Texts without documents.
    (
        "",
        AT_EACH_END,
        "> +STR @ 0,1,0 0,1,0
> -STR @ 0,1,0 0,1,0
> -STR @ 0,1,0 0,1,0
nothing
nothing
",
    ),
    (
        "# c",
        AT_EACH_END,
        "> +STR @ 0,1,0 0,1,0
> -STR @ 3,2,0 3,2,0
> -STR @ 3,2,0 3,2,0
nothing
nothing
",
    ),
    // Texts with a fault after the stream's start, which is given once.
    (
        "\0",
        AROUND_THE_FAULT,
        "> +STR @ 0,1,0 0,1,0
! found unprintable character at byte 0 line 1 column 1
! found unprintable character at byte 0 line 1 column 1
! found unprintable character at byte 0 line 1 column 1
nothing
! found unprintable character at byte 0 line 1 column 1
",
    ),
    (
        "}",
        AROUND_THE_FAULT,
        "> +STR @ 0,1,0 0,1,0
! misplaced bracket at byte 0 line 1 column 1
! misplaced bracket at byte 0 line 1 column 1
! misplaced bracket at byte 0 line 1 column 1
nothing
! misplaced bracket at byte 0 line 1 column 1
",
    ),
    (
        "a\0b",
        AROUND_THE_FAULT,
        "> +STR @ 0,1,0 0,1,0
! found unprintable character at byte 1 line 1 column 2
! found unprintable character at byte 1 line 1 column 2
! found unprintable character at byte 1 line 1 column 2
nothing
! found unprintable character at byte 1 line 1 column 2
",
    ),
    // Prefixes are kept from an end that is not yet read.
    (PREFIXED, BEFORE_THE_END, KEPT),
    (PREFIXED, BEHIND_A_PEEK, KEPT_LATE),
];

#[test]
fn shows_what_comes_and_each_fault(rt: HostRuntime) {
    expect_each(&rt, rt.alloc(), ROWS);
}
