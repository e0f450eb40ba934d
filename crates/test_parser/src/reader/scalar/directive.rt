//! Directives, the places after them, and their faults (YAML 1.2.2, 6.8).

use crate::reader::shown::expect_shown;

const READ: &[&str] = &[
    // Versions.
    "0 %YAML 1.2\n--- => YAML 1.2 @ 9,1,9 > 10,2,0 blank",
    "0 %YAML 1.2 => YAML 1.2 @ 9,1,9 > 9,1,9",
    "0 %YAML \t10.03 # c\r\n# => YAML 10.3 @ 12,1,12 > 18,2,0 blank",
    "0 %YAML 123456789.999999999 \t\r--- => YAML 123456789.999999999 @ 25,1,25 > 28,2,0 blank",
    "0 %YAML 1.2\0\n => YAML 1.2 @ 9,1,9 > 9,1,9",
    // Prefixes of tags.
    "0 %TAG !prefix! tag:example.com,2011:\n--- !prefix!A => \
     TAG !prefix! tag:example.com,2011: @ 35,1,35 > 36,2,0 blank",
    "0 %TAG ! tag:x,2000:\n => TAG ! tag:x,2000: @ 18,1,18 > 19,2,0 blank",
    "0 %TAG !e! tag:a,2000:\n%TAG => TAG !e! tag:a,2000: @ 20,1,20 > 21,2,0 blank",
    "0 %TAG \t!!  !foo%C3%A9! # c => TAG !! !fooé! @ 21,1,21 > 25,1,25",
    "0 %TAG !e!tag:x#c\r\n => TAG !e! tag:x#c @ 15,1,15 > 17,2,0 blank",
    "0 %TAG ! %2C,[\n => TAG ! ,,[ @ 12,1,12 > 13,2,0 blank",
    // Directives that are passed over.
    "0 %FOO bar # baz\n => FOO @ 14,1,14 > 15,2,0 blank",
    "0 %YAML1.2\n => YAML1.2 @ 8,1,8 > 9,2,0 blank",
    "0 %TAGS\t => TAGS @ 6,1,6 > 6,1,6",
    "0 %yaml#1,[%é\r\n => yaml#1,[%é @ 11,1,11 > 13,2,0 blank",
];

const REFUSED: &[&str] = &[
    "0  \t% x => ! DirectiveNameExpected @ 3,1,3",
    "0  \t% => ! DirectiveNameExpected @ 3,1,3",
    "0  \t%\u{feff}a => ! DirectiveNameExpected @ 3,1,3",
    "0  \t%a\u{feff} => ! DirectiveNameCharacter @ 3,1,3",
    "0  \t%YAML => ! VersionNumberExpected @ 2,1,2",
    "0  \t%YAML x => ! VersionNumberExpected @ 2,1,2",
    "0  \t%YAML 1. => ! VersionNumberExpected @ 2,1,2",
    "0  \t%YAML .2 => ! VersionNumberExpected @ 2,1,2",
    "0  \t%YAML 1 => ! VersionDigitOrDotExpected @ 2,1,2",
    "0  \t%YAML 1,2 => ! VersionDigitOrDotExpected @ 2,1,2",
    "0  \t%YAML 1234567890.1 => ! VersionNumberTooLong @ 2,1,2",
    "0  \t%YAML 1.0000000001 => ! VersionNumberTooLong @ 2,1,2",
    "0  \t%YAML 1.2 x => ! DirectiveEndExpected @ 2,1,2",
    "0  \t%YAML 1.2.3 => ! DirectiveEndExpected @ 2,1,2",
    "0  \t%YAML 1.2#c => ! CommentWithoutWhitespace @ 11,1,11",
    "0  \t%YAML 1.2 \u{feff} => ! MisplacedByteOrderMark @ 12,1,12",
    "0  \t%FOO \u{feff} => ! MisplacedByteOrderMark @ 7,1,7",
    "0  \t%FOO # \u{feff} => ! MisplacedByteOrderMark @ 9,1,9",
    "0  \t%TAG => ! TagHandleStartExpected @ 2,1,2",
    "0  \t%TAG x => ! TagHandleStartExpected @ 2,1,2",
    "0  \t%TAG !e tag:x => ! TagDirectiveHandleEndExpected @ 2,1,2",
    "0  \t%TAG !\n => ! TagPrefixCharacter @ 2,1,2",
    "0  \t%TAG ! ,x => ! TagPrefixCharacter @ 2,1,2",
    "0  \t%TAG !! [ => ! TagPrefixCharacter @ 2,1,2",
    "0  \t%TAG ! é => ! TagPrefixCharacter @ 2,1,2",
    "0  \t%TAG ! %zz => ! TagEscape @ 2,1,2",
    "0  \t%TAG ! a%C3 x => ! TagEscape @ 2,1,2",
    "0  \t%TAG ! %80 => ! TagEscapeLeadingByte @ 2,1,2",
    "0  \t%TAG ! a%C3%41 => ! TagEscapeTrailingByte @ 2,1,2",
    "0  \t%TAG ! %C0%80 => ! TagEscapeCodePoint @ 2,1,2",
    "0  \t%TAG ! a%ED%A0%80 => ! TagEscapeCodePoint @ 2,1,2",
    "0  \t%TAG ! a\"b => ! TagDirectiveEndExpected @ 2,1,2",
    "0  \t%TAG ! a\u{feff} => ! TagDirectiveEndExpected @ 2,1,2",
    "0  \t%TAG ! tag:x y => ! DirectiveEndExpected @ 2,1,2",
];

#[test]
fn reads_directives(rt: HostRuntime) {
    expect_shown(&rt, rt.alloc(), false, READ);
    expect_shown(&rt, rt.alloc(), false, REFUSED);
}
