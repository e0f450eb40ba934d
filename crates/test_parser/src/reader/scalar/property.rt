//! Tags, anchors and aliases, their ends and their faults (YAML 1.2.2, 6.9 and 7.1).

use crate::reader::shown::expect_shown;

const READ: &[&str] = &[
    // Tags.
    "0 !!str a => !!|str > 5,1,5",
    "0 ! a => |! > 1,1,1",
    "0 ! => |! > 1,1,1",
    "0 !<tag:x> a => |tag:x > 8,1,8",
    "0 !<> => | > 3,1,3",
    "0 !<a,[b]!%20c>\n => |a,[b]! c > 13,1,13",
    "0 !foo a => !|foo > 4,1,4",
    "0 !e!x y => !e!|x > 4,1,4",
    "0 !prefix!A\r\n => !prefix!|A > 9,1,9",
    "0 !a-b_1!c\0 => !a-b_1!|c > 8,1,8",
    "0 !a.b:c\t => !|a.b:c > 6,1,6",
    "0 !%C3%A9 x => !|é > 7,1,7",
    "0 !!%e2%82%ac => !!|€ > 11,1,11",
    "0 !a%F0%9F%98%80b => !|a😀b > 15,1,15",
    "0 !%7F%00 => !|\u{7f}\0 > 7,1,7",
    "0 !%ED%9F%BF%EE%80%80 => !|퟿ > 19,1,19",
    "0 !%F4%8F%BF%BF => !|􏿿 > 13,1,13",
    "0 !a%21%2521 => !|a!%21 > 10,1,10",
    "0   !a => !|a > 4,1,4",
    // Anchors and aliases.
    "0 &a x => a > 2,1,2",
    "0 *a => a > 2,1,2",
    "0 *a:b  => a:b > 4,1,4",
    "0 &a!t x => a!t > 4,1,4",
    "0 *&*\n => &* > 3,1,3",
    "0 &é😀\u{feff} => é😀 > 3,1,3",
    "0 *a,b => a > 2,1,2",
    "0 *a] => a > 2,1,2",
    "0 &a\tb => a > 2,1,2",
    "0 &a\0 => a > 2,1,2",
    "0   &ab\r => ab > 5,1,5",
];

const REFUSED: &[&str] = &[
    // Tags, at their start.
    "0 \t !<a b> => ! VerbatimTagEndExpected @ 2,1,2",
    "0 \t !<a => ! VerbatimTagEndExpected @ 2,1,2",
    "0 \t !! x => ! TagSuffixExpected @ 2,1,2",
    "0 \t !e! => ! TagSuffixExpected @ 2,1,2",
    "0 \t !%C3 x => ! TagEscape @ 2,1,2",
    "0 \t !%4 x => ! TagEscape @ 2,1,2",
    "0 \t !%G0 x => ! TagEscape @ 2,1,2",
    "0 \t !<%> => ! TagEscape @ 2,1,2",
    "0 \t !%E2%82 => ! TagEscape @ 2,1,2",
    "0 \t !%80 x => ! TagEscapeLeadingByte @ 2,1,2",
    "0 \t !%BF%80 x => ! TagEscapeLeadingByte @ 2,1,2",
    "0 \t !%F8%80%80%80%80 x => ! TagEscapeLeadingByte @ 2,1,2",
    "0 \t !%C3%41 x => ! TagEscapeTrailingByte @ 2,1,2",
    "0 \t !%E2%82%C0 x => ! TagEscapeTrailingByte @ 2,1,2",
    "0 \t !%C0%80 x => ! TagEscapeCodePoint @ 2,1,2",
    "0 \t !%C1%BF x => ! TagEscapeCodePoint @ 2,1,2",
    "0 \t !%E0%9F%BF x => ! TagEscapeCodePoint @ 2,1,2",
    "0 \t !%F0%8F%BF%BF x => ! TagEscapeCodePoint @ 2,1,2",
    "0 \t !%ED%A0%80 x => ! TagEscapeCodePoint @ 2,1,2",
    "0 \t !%ED%BF%BF x => ! TagEscapeCodePoint @ 2,1,2",
    "0 \t !%F4%90%80%80 x => ! TagEscapeCodePoint @ 2,1,2",
    "0 \t !%F7%BF%BF%BF x => ! TagEscapeCodePoint @ 2,1,2",
    "0 \t !a!b!c => ! TagEndExpected @ 2,1,2",
    "0 \t !a\"b => ! TagEndExpected @ 2,1,2",
    "0 \t !a\u{feff} => ! TagEndExpected @ 2,1,2",
    "0 \t !é => ! TagEndExpected @ 2,1,2",
    "0 \t !<a>b => ! TagEndExpected @ 2,1,2",
    // Names without characters, at the indicator.
    "0  & a => ! AnchorNameExpected @ 1,1,1",
    "0  * => ! AnchorNameExpected @ 1,1,1",
    "0  &] => ! AnchorNameExpected @ 1,1,1",
    "0  *, => ! AnchorNameExpected @ 1,1,1",
    "0  &\n => ! AnchorNameExpected @ 1,1,1",
    "0  *\u{feff}a => ! AnchorNameExpected @ 1,1,1",
    // Tags that flow indicators end in flow.
    "0 !a,b => ! TagEndExpected @ 0,1,0",
    "0 !!x] => ! TagEndExpected @ 0,1,0",
    "0 !} => ! TagEndExpected @ 0,1,0",
    "0 !<a>[ => ! TagEndExpected @ 0,1,0",
];

// Tags inside flow, where a flow indicator ends them.
const READ_IN_FLOW: &[&str] = &[
    "0 !a,b => !|a > 2,1,2",
    "0 !!x] => !!|x > 3,1,3",
    "0 !} => |! > 1,1,1",
    "0 !<a>[ => |a > 4,1,4",
];

#[test]
fn reads_tags_and_names(rt: HostRuntime) {
    expect_shown(&rt, rt.alloc(), false, READ);
    expect_shown(&rt, rt.alloc(), false, REFUSED);
    expect_shown(&rt, rt.alloc(), true, READ_IN_FLOW);
}
