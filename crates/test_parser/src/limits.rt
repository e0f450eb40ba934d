//! Texts with limits on their characters.
use crate::helpers::{expect, repeated};
use crate::showing::{Calls, shown_by_iter, shown_by_list, shown_by_str};
use std::alloc::Global;
use std::process::Abort;

// Texts that show one thing each.
const TEXTS: &[&str] = &[
    "",
    "{\"a\":[1,true]}",
    "a: b\r\nc: d",
    "[? : x]",
    "[? ]",
    "[? a : b, : d]",
    "[\"a\":[]]",
    "[a: []]",
    "[a:[]]",
    "[a:b]",
    "{\"a\":\t1}",
    ">\n a\n b\n\n  c\n d\n",
    "|\n a\n ",
    "|+\n a\n ",
    "--- |\na\n---\nb\n",
    "a\n---\nb\n",
    "&a x\n--- *a",
    "- &a x\n- *a\n- &a y\n- *a",
    "a\u{0}b",
    "\"a \\\n  b\n\n c\"",
    "!%C3%A9 x",
    "\n# syntax error\nscalar\nkey: [1, 2]]\nkey1:a2\n",
    "%TAG !prefix! tag:example.com,2011:\n--- !prefix!A\na: b\n--- !prefix!B\nc: d\n--- !prefix!C\ne: f\n",
    "a: b\nc:\n  d: e\nf:\n  - g\n  - h\n",
    "[ : foo ]",
    "- [ {a: b}:value ]",
    "key\n  : value",
    "?",
    "[a -, b]",
    "a:\n- b\nc: d",
    "? a\n: b",
    "\u{feff}a: 1",
    "foo: |\n  bar",
    "\"a\" # c",
    "[? a : {b: c}]",
    "[&a x, *a]",
    "[1 2]",
    "[1,]",
    "{\"a\":1,\"a\":2}",
    "{\"a\" 1}",
    "\"\\ud83d\\ude00\"",
    "\"a\"\n\"b\"",
    "[1",
    "'it''s'",
    "[a\n\nb]",
    "{a: b, c, : d, ? e}",
    "{a\n: b}",
    "[a\n: b]",
    "# c",
    "- - a\n  - b\n- c",
    "- a: b\n  c: d",
    "? - a\n: - b",
    "a: b: c",
    "- [a,\nb]",
    "a: b\n\t# c\n d",
    "a: b\n\t# c\nd: e",
    ": a",
    "|-\n a\n\n",
    "|+\n a\n\n",
    "|2\n   a\n",
    "k: |2\n   a",
    ">\n a\n  b\n c\n",
    "|+\n",
    "|+\n\n",
    "|+\n ",
    "|\n   \n a",
    "|0",
    "|\n\ta",
    "a: |-\n                  a\n                      b\n",
    "!!str a",
    "! a",
    "!<tag:x> a",
    "%TAG ! tag:x,2000:\n---\n!foo a",
    "%TAG !e! tag:a,2000:\n%TAG !e! tag:b,2000:\n---\n!e!x y",
    "%YAML 1.1\n%YAML 1.1\n---",
    "{}\n%YAML 1.2\n---",
    "!%C0%80 x",
    "!%ED%A0%80 x",
    "!%F4%90%80%80 x",
    "!%80 x",
    "!%C3%41 x",
    "!%C3 x",
    "a\n...\n\u{feff}b",
    "a: b\u{feff}c",
    "a\n --- b",
    "a\n...\n]",
    "%TAG !e! tag:e,2000:\n--- # c\n- &x !e!m\n  k: |-\n    t\n  ? [1, 2]\n  : - *x\n...\nb\n",
    "[a: {b: c}, d: e]: f",
    "\"a",
    "{-",
    "---\n[ a, b, c ] ]\n",
    "{a:\t# c\nb}",
    "[a:\tb]",
    "a:\tb",
    "a:\t b",
];

// The lines before the one that says that the text is too long, where it is the last. No page states its place.
fn before_too_long(lines: &str) -> Option<&str> {
    let (before, place) = lines.split_once("! text longer than 4294967295 characters at ")?;
    if place.lines().count() == 1 {
        Some(before)
    } else {
        None
    }
}

const THREE_CHARACTERS: &str = "> +STR @ 0,1,0 0,1,0
> +DOC @ 0,1,0 3,1,3
> =VAL :abc @ 0,1,0 3,1,3
> -DOC @ 3,2,0 3,2,0
> -STR @ 3,2,0 3,2,0
";

// What a parser gives is asked of it alone.
const NO_CALLS: Calls = (&[], None);

// These are the lines, and after them the text is too long or isn't.
fn are_lines(printed: String, lines: &str, is_too_long: bool) -> bool {
    let holds = match before_too_long(printed.as_str()) {
        Some(before) => is_too_long && before == lines,
        None => !is_too_long && printed.as_str() == lines,
    };
    drop(printed);
    holds
}

// Three characters of a text may be read, and each input gives these lines.
fn expect_by_each(rt: &impl Abort, alloc: Global, text: &str, lines: &str, is_too_long: bool) {
    let by_str = shown_by_str(alloc, text, Some(3), NO_CALLS);
    expect(rt, are_lines(by_str, lines, is_too_long), text);
    let by_iter = shown_by_iter(alloc, text, Some(3), NO_CALLS);
    expect(rt, are_lines(by_iter, lines, is_too_long), text);
    let by_list = shown_by_list(alloc, text, Some(3), NO_CALLS);
    expect(rt, are_lines(by_list, lines, is_too_long), text);
}

#[test]
fn refuses_a_text_past_the_limit(rt: HostRuntime) {
    let start = "> +STR @ 0,1,0 0,1,0\n";
    expect_by_each(&rt, rt.alloc(), "abc", THREE_CHARACTERS, false);
    expect_by_each(&rt, rt.alloc(), "abcd", start, true);
}

// The lines are all lines of the text, or, where not all of it may be read, a beginning of them and then that the text
// is too long.
fn are_within(printed: String, all: &str, is_whole: bool) -> bool {
    let holds = match before_too_long(printed.as_str()) {
        Some(before) => !is_whole && all.starts_with(before),
        None => printed.as_str() == all,
    };
    drop(printed);
    holds
}

// With this limit each input gives all these lines of a text, or a beginning of them.
fn gives_within(alloc: Global, text: &str, limit: usize, all: &str) -> bool {
    let is_whole = limit == text.len();
    let by_str = shown_by_str(alloc, text, Some(limit), NO_CALLS);
    let holds_by_str = are_within(by_str, all, is_whole);
    let by_iter = shown_by_iter(alloc, text, Some(limit), NO_CALLS);
    let holds_by_iter = are_within(by_iter, all, is_whole);
    let by_list = shown_by_list(alloc, text, Some(limit), NO_CALLS);
    holds_by_str && holds_by_iter && are_within(by_list, all, is_whole)
}

// With each limit up to its length a text gives all these lines, or a beginning of them.
fn gives_beginnings_of(alloc: Global, text: &str, all: &str) -> bool {
    for limit in 0..=text.len() {
        if !gives_within(alloc, text, limit, all) {
            return false;
        }
    }
    true
}

// With each limit up to its length a text gives what it gives without, or a beginning of that.
fn gives_beginnings(alloc: Global, text: &str) -> bool {
    let all = shown_by_str(alloc, text, None, NO_CALLS);
    let holds = gives_beginnings_of(alloc, text, all.as_str());
    drop(all);
    holds
}

#[test]
fn gives_a_beginning_up_to_each_limit(rt: HostRuntime) {
    for &text in TEXTS {
        expect(&rt, gives_beginnings(rt.alloc(), text), text);
    }
}

// Long texts by what they show: their pieces, and how often each comes.
const LONG: &[(&str, &[(&str, usize)])] = &[
    ("as many brackets as may be open", &[("[", 255), ("]", 255)]),
    ("one more", &[("[", 256)]),
    ("the longest key", &[("a", 1024), (": b", 1)]),
    ("one character more", &[("a", 1025), (": b", 1)]),
    ("too many braces", &[("{a: ", 256)]),
    (
        "a long key in brackets",
        &[("[", 1), ("a", 1100), ("]: b", 1)],
    ),
    (
        "texts that are held, up to the longest that is packed",
        &[
            ("[a, \"", 1),
            ("b", 253),
            ("\", ", 1),
            ("c", 255),
            (", d]", 1),
        ],
    ),
    (
        "longer ones",
        &[
            ("[a, \"", 1),
            ("b", 254),
            ("\", ", 1),
            ("c", 256),
            (", d]", 1),
        ],
    ),
    (
        "few characters of more bytes",
        &[
            ("[a, \"", 1),
            ("\u{e9}", 130),
            ("\", ", 1),
            ("\u{e9}", 130),
            (", d]", 1),
        ],
    ),
];

#[test]
fn gives_a_beginning_of_a_long_text(rt: HostRuntime) {
    for &(shown, pieces) in LONG {
        let text = repeated(rt.alloc(), pieces);
        let holds = gives_beginnings(rt.alloc(), text.as_str());
        drop(text);
        expect(&rt, holds, shown);
    }
}
