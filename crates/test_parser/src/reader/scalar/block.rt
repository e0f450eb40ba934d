//! Block scalars: headers, breaks, ends and faults (YAML 1.2.2, 8.1).

use crate::reader::shown::expect_shown;

const ROWS: &[&str] = &[
    // Headers, breaks and ends.
    "0 |2-  # c\n   a\n\n =>  a @ 11,2,2 15,4,0",
    "0 >+2\t\n  a\n => a\n @ 7,2,2 9,3,0",
    "0 |+ \0a =>  @ 0,1,0 3,1,3",
    "0 |\r\n a\r\n\r b\r => a\n\nb\n @ 4,2,1 11,5,0",
    "0 >\r a\r b\r\n => a b\n @ 3,2,1 9,4,0",
    "0 |\n a\0b => a\n @ 3,2,1 4,2,2",
    "0 |+\n a\u{feff}b => a @ 4,2,1 5,2,2",
    "0 |\n\u{feff} =>  @ 2,2,0 2,2,0",
    "1 |\n  a\n b => a\n @ 4,2,2 7,3,1",
    "3 |+\n\n- b => \n @ 4,3,0 4,3,0",
    "0 |\na\n...\n => a\n @ 2,2,0 4,3,0",
    "0 |\n---\n =>  @ 2,2,0 2,2,0",
    "0 |\n --- b\n => --- b\n @ 3,2,1 9,3,0",
    "0 |\n----\n => ----\n @ 2,2,0 7,3,0",
    "0 >\n a\n \tb\n c\n => a\n\tb\nc\n @ 3,2,1 12,5,0",
    "0 |\n a \t\n  \n => a \t\n \n @ 3,2,1 10,4,0",
    "0 |+\n  a\n    => a\n \n @ 5,2,2 10,3,3",
    "0 |+\n  a\n  => a\n @ 5,2,2 8,3,1",
    "0 >+\n\n  \n  a\n => \n\na\n @ 9,4,2 11,5,0",
    // Refused.
    "0 |-0 => ! BlockScalarIndicatorZero @ 0,1,0",
    "1 |2+-\n   a => ! BlockScalarHeaderEndExpected @ 0,1,0",
    "0 >12\n a => ! BlockScalarHeaderEndExpected @ 0,1,0",
    "1 |2\n a => ! BlockScalarLineIndentation @ 4,2,1",
    "0 |#c\n a => ! CommentWithoutWhitespace @ 1,1,1",
    "0 | \u{feff}\n a => ! MisplacedByteOrderMark @ 2,1,2",
];

#[test]
fn reads_block_scalars(rt: HostRuntime) {
    expect_shown(&rt, rt.alloc(), false, ROWS);
}
