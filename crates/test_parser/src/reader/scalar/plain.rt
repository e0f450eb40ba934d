//! Plain scalars of one line and of several, the comments that end them, and their faults (YAML 1.2.2, 7.3.3).

use crate::reader::shown::expect_shown;

const IN_BLOCK: &[&str] = &[
    // One line.
    "1 b c\t d : e => b c\t d @ 6,1,6 > 7,1,7",
    "0 a:b, c] => a:b, c] @ 7,1,7 > 7,1,7",
    "0 a#b: => a#b @ 3,1,3 > 3,1,3",
    "0 - x => - x @ 3,1,3 > 3,1,3",
    "0 a\0b => a @ 1,1,1 > 1,1,1",
    "0 a \u{feff} => a @ 1,1,1 > 2,1,2",
    "2 é => é @ 1,1,1 > 1,1,1",
    // Several lines.
    "0 scalar\nkey: [1, 2]] => scalar key @ 10,2,3 > 10,2,3",
    "0 key\n  : value => key @ 3,1,3 > 6,2,2 blank",
    "0 a\n --- b => a --- b @ 8,2,6 > 8,2,6",
    "0 a\n--- b => a @ 1,1,1 > 2,2,0 blank",
    "1 b\r\nc: d => b @ 1,1,1 > 3,2,0 blank",
    "2 b  \n \t\n  c \r\r\n\n d => b\nc @ 10,3,3 > 16,6,1 blank",
    "1 b\n\t\n\n  c => b\n\nc @ 8,4,3 > 8,4,3",
    "1 b\n \tc => b c @ 5,2,3 > 5,2,3",
    "1 b\n \t => b @ 1,1,1 > 4,2,2 blank",
    "1 b\n\t => b @ 1,1,1 > 3,2,1 blank",
    "0 b\n => b @ 1,1,1 > 2,2,0 blank",
    // Comments end scalars.
    "1 b # c\n d => b @ 1,1,1 # 2,1,2 > 2,1,2",
    "1 b\n # c\n d => b @ 1,1,1 > 3,2,1 blank",
    "1 b\n\t# c\n d => b @ 1,1,1 # 3,2,1 > 3,2,1 blank",
    "1 b\n\t \t# c => b @ 1,1,1 # 5,2,3 > 5,2,3 blank",
    "1 b\n \t# c\n d => b @ 1,1,1 > 4,2,2 blank",
    "0 b\n\t# c\nd => b @ 1,1,1 > 3,2,1 blank",
    // Refused.
    "1 a\n\tb => ! TabInsidePlain @ 0,1,0",
    "3 a\n  \t  b => ! TabInsidePlain @ 0,1,0",
    "1 a\n\t\u{feff} => ! MisplacedByteOrderMark @ 3,2,1",
    "0 : a => ! PlainEnd @ 0,1,0",
];

const IN_FLOW: &[&str] = &[
    // One line.
    "0 a:b, c] => a:b @ 3,1,3 > 3,1,3",
    "0 true ] => true @ 4,1,4 > 5,1,5",
    "0 a:] => a @ 1,1,1 > 1,1,1",
    // Several lines.
    "0 a\n\nb] => a\nb @ 4,3,1 > 4,3,1",
    "0 a\n: b} => a @ 1,1,1 > 2,2,0 blank",
    "0 a\n...\n => a @ 1,1,1 > 2,2,0 blank",
    // Comments end scalars.
    "1 b # c\n d => b @ 1,1,1 > 2,1,2",
    "1 b\n\t# c\n d => b @ 1,1,1 > 3,2,1 blank",
    // Refused.
    "0 a -, b] => ! PlainDashBeforeFlow @ 2,1,2",
    "0 a\n-] => ! PlainDashBeforeFlow @ 2,2,0",
    "1 a\n\t] => ! TabInsidePlain @ 0,1,0",
];

#[test]
fn reads_plain_scalars(rt: HostRuntime) {
    expect_shown(&rt, rt.alloc(), false, IN_BLOCK);
    expect_shown(&rt, rt.alloc(), true, IN_FLOW);
}
