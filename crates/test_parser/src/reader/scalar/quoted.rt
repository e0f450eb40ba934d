//! Quoted scalars, their ends and their faults (YAML 1.2.2, 7.3.1 and 7.3.2).

use crate::reader::shown::expect_shown;

const READ: &[&str] = &[
    // In double quotes.
    "0 \"a \\\n  b\n\n c\" => a b\nc > 13,4,3",
    "0 \"a\r\nb\" => a b > 6,2,2",
    "0 \"a\r\rb\" => a\nb > 6,3,2",
    "0 \"a\n\r\nb\" => a\nb > 7,3,2",
    "0 \"a \t\n \tb\" => a b > 9,2,4",
    "0 \"a\n\n\n b\" => a\n\nb > 8,4,3",
    "0 \"a\n \n\t\n b\" => a\n\nb > 10,4,3",
    "0 \" a \" =>  a  > 5,1,5",
    "0 \" \n a\n \" =>  a  > 8,3,2",
    "0 \"a\\\n\n b\" => a\nb > 8,3,3",
    "0 \"a\\\r\n\r\n b\" => a\nb > 10,3,3",
    "0 \"a\\ \n\\ b\" => a   b > 9,2,4",
    "0 \"a\n\\\nb\" => a b > 7,3,2",
    "0 \"a\\\n\\\nb\" => ab > 8,3,2",
    "0 \"\\\n\" =>  > 4,2,1",
    "0 \"a\n---\" => a --- > 7,2,4",
    "0 \"a\n --- b\" => a --- b > 10,2,7",
    "0 \"a'b''c # d: e\" => a'b''c # d: e > 15,1,15",
    "0 \"\\x41\\u00e9\\U0001F600\\n\" => Aé😀\n > 24,1,24",
    // In single quotes.
    "0 'it''s' => it's > 7,1,7",
    "0 '' =>  > 2,1,2",
    "0 '''' => ' > 4,1,4",
    "0 '''''' => '' > 6,1,6",
    "0 'a\\' => a\\ > 4,1,4",
    "0 'a\\\nb' => a\\ b > 6,2,2",
    "0 'a\"b' => a\"b > 5,1,5",
    "0 ' a \n\n b ' =>  a\nb  > 10,3,4",
    "0 'a ''\n ''b' => a ' 'b > 11,2,5",
    "0 'a' 'b' => a > 3,1,3",
    // The reader ends right after the closing quote.
    "0 \"a\r\nb\" c => a b > 6,2,2",
    "0 \"\u{feff}\" => \u{feff} > 3,1,3",
    "0 \"a\n\u{feff}b\" => a \u{feff}b > 6,2,3",
    "0 'it''s' # c => it's > 7,1,7",
    "0 'a\n\n' => a\n > 5,3,1",
    // Lines right of the indentation.
    "0 \"a\nb\" => a b > 5,2,2",
    "1 \"a\n b\" => a b > 6,2,3",
    "1 \"a\n \tb\" => a b > 7,2,4",
    "2 \"a\n\n  b\" => a\nb > 8,3,4",
    "8 \"a\\\n\" => a > 5,2,1",
    "8 \"a\tb\" => a\tb > 5,1,5",
];

const REFUSED: &[&str] = &[
    // The text ends inside quotes.
    "3 \" => ! EndInsideQuotes @ 0,1,0",
    "3 \"a => ! EndInsideQuotes @ 0,1,0",
    "3 \"a  => ! EndInsideQuotes @ 0,1,0",
    "3 \"a\n => ! EndInsideQuotes @ 0,1,0",
    "3 \"a\n  => ! EndInsideQuotes @ 0,1,0",
    "3 \"a\\\n => ! EndInsideQuotes @ 0,1,0",
    "3 \"a\0\" => ! EndInsideQuotes @ 0,1,0",
    "3 \"a\n\0\" => ! EndInsideQuotes @ 0,1,0",
    "3 ' => ! EndInsideQuotes @ 0,1,0",
    "3 'a'' => ! EndInsideQuotes @ 0,1,0",
    "3 'a\n => ! EndInsideQuotes @ 0,1,0",
    // A marker of a document is inside quotes.
    "0 \"a\n---\nb\" => ! DocumentIndicatorInsideQuotes @ 0,1,0",
    "0 \"a\n... b\" => ! DocumentIndicatorInsideQuotes @ 0,1,0",
    "0 \"a\n\n... => ! DocumentIndicatorInsideQuotes @ 0,1,0",
    "0 \"a\\\n---\0\" => ! DocumentIndicatorInsideQuotes @ 0,1,0",
    "0 'a\r---\tb' => ! DocumentIndicatorInsideQuotes @ 0,1,0",
    // Lines left of the indentation.
    "1 \"a\nb\" => ! QuotedIndentation @ 0,1,0",
    "2 \"a\n b\" => ! QuotedIndentation @ 0,1,0",
    "1 \"a\n\" => ! QuotedIndentation @ 0,1,0",
    "2 \"a\\\n \" => ! QuotedIndentation @ 0,1,0",
    "2 'a\n\n b' => ! QuotedIndentation @ 0,1,0",
    "1 \"a\n\tb\" => ! TabAsIndentation @ 3,2,0",
    "2 \"a\n \t\n   b\" => ! TabAsIndentation @ 4,2,1",
    "1 'a\n\n\tb' => ! TabAsIndentation @ 4,3,0",
    // Escapes that are none.
    "0 \"a\n\\q\" => ! UnknownEscape @ 0,1,0",
    "0 \"\\ => ! UnknownEscape @ 0,1,0",
    "0 \"\\x1g\" => ! HexadecimalDigitExpected @ 0,1,0",
    "0 \"\\u12\" => ! HexadecimalDigitExpected @ 0,1,0",
    "0 \"\\ud83d\\ude00\" => ! EscapedCodePoint @ 0,1,0",
    "0 \"\\U00110000\" => ! EscapedCodePoint @ 0,1,0",
];

#[test]
fn reads_quoted_scalars(rt: HostRuntime) {
    expect_shown(&rt, rt.alloc(), false, READ);
    expect_shown(&rt, rt.alloc(), false, REFUSED);
}
