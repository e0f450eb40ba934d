//! What `run_dump` prints and says: the lines against the table that they were taken from, and where reading or writing
//! fails.

use crate::helpers::{expect, repeated};
use crate::writer::{Keeping, Manner, Source, WHOLE};
use saphyr_parser::run_dump;
use std::alloc::Global;
use std::process::Abort;

// The status of a run over a source, named `f`, and whether it says this.
fn run_into(
    alloc: Global,
    mut source: Source<'_>,
    out: &mut Keeping,
    (manner, message): (Manner, &str),
) -> (u8, bool) {
    let mut err = Keeping::new(alloc, manner);
    let status = run_dump(alloc, "f", &mut source, out, &mut err);
    let has_message = err.has_taken(message);
    drop(err);
    (status, has_message)
}

// A source, the lines that a run prints of it, what it says, and how both are taken.
type Run<'a> = (Source<'a>, (Manner, &'a str), (Manner, &'a str));

// A run prints these lines and says this, and has the status 1 where it says something.
fn expect_run(rt: &impl Abort, alloc: Global, (source, (manner, lines), message): Run<'_>) {
    let mut out = Keeping::new(alloc, manner);
    let (status, has_message) = run_into(alloc, source, &mut out, message);
    let has_lines = out.has_taken(lines);
    drop(out);
    let wanted = if message.1.is_empty() { 0 } else { 1 };
    expect(rt, status == wanted, lines);
    expect(rt, has_lines, lines);
    expect(rt, has_message, message.1);
}

// The run over some bytes, where nothing fails but what the bytes are.
fn expect_of_bytes(rt: &impl Abort, alloc: Global, bytes: &[u8], lines: &str, message: &str) {
    let source = Source {
        rest: bytes,
        is_broken: false,
    };
    expect_run(rt, alloc, (source, (WHOLE, lines), (WHOLE, message)));
}

// The runs over texts that are taken, and their lines.
fn expect_runs(rt: &impl Abort, alloc: Global, rows: &[(&str, &str)]) {
    for &(text, lines) in rows {
        expect_of_bytes(rt, alloc, text.as_bytes(), lines, "");
    }
}

// Adds the lines of so many nodes with anchors.
fn push_anchors(lines: &mut String, count: usize) {
    for place in 0..count {
        let _ = write!(lines, "=VAL &{} :x\n", place + 1);
    }
}

// The lines of a sequence of so many nodes with anchors, and of one more with this line.
fn lines_behind_anchors(alloc: Global, count: usize, line: &str) -> String {
    let mut lines = repeated(alloc, &[("+STR\n+DOC\n+SEQ\n", 1)]);
    push_anchors(&mut lines, count);
    let _ = lines.push_str(line);
    let _ = lines.push_str("-SEQ\n-DOC\n-STR\n");
    lines
}

// The line of a node in a sequence, after so many nodes with anchors.
fn expect_behind_anchors(rt: &impl Abort, alloc: Global, count: usize, node: &str, line: &str) {
    let text = repeated(alloc, &[("- &a x\n", count), ("- ", 1), (node, 1)]);
    let lines = lines_behind_anchors(alloc, count, line);
    expect_of_bytes(rt, alloc, text.as_bytes(), lines.as_str(), "");
    drop(text);
    drop(lines);
}

// Nodes, each the only one of a text, and the text's lines.
const NODES: &[(&str, &str)] = &[
    ("a", "+STR\n+DOC\n=VAL :a\n-DOC\n-STR\n"),
    ("--- a", "+STR\n+DOC\n=VAL :a\n-DOC\n-STR\n"),
    ("[]", "+STR\n+DOC\n+SEQ\n-SEQ\n-DOC\n-STR\n"),
    ("&a []", "+STR\n+DOC\n+SEQ &1\n-SEQ\n-DOC\n-STR\n"),
    ("{}", "+STR\n+DOC\n+MAP\n-MAP\n-DOC\n-STR\n"),
    ("!<!%C3%A9> []", "+STR\n+DOC\n+SEQ <!é>\n-SEQ\n-DOC\n-STR\n"),
];

// Scalars, each the only node of a text, and the text's lines.
const SCALARS: &[(&str, &str)] = &[
    ("é b", "+STR\n+DOC\n=VAL :é b\n-DOC\n-STR\n"),
    ("'é b'", "+STR\n+DOC\n=VAL 'é b\n-DOC\n-STR\n"),
    ("\"é b\"", "+STR\n+DOC\n=VAL \"é b\n-DOC\n-STR\n"),
    ("|-\n é b", "+STR\n+DOC\n=VAL |é b\n-DOC\n-STR\n"),
    (">-\n é b", "+STR\n+DOC\n=VAL >é b\n-DOC\n-STR\n"),
    ("---", "+STR\n+DOC\n=VAL :\n-DOC\n-STR\n"),
    ("\\", "+STR\n+DOC\n=VAL :\\\\\n-DOC\n-STR\n"),
    ("\"a\\nb\\n\"", "+STR\n+DOC\n=VAL \"a\\nb\\n\n-DOC\n-STR\n"),
    (
        "\"\\r\\b\\t\"",
        "+STR\n+DOC\n=VAL \"\\r\\b\\t\n-DOC\n-STR\n",
    ),
    (
        "\"\\0\\a\\v\\f\\e\\x7f\\N\\ufeff\\\"'\"",
        "+STR\n+DOC\n=VAL \"\0\x07\x0b\x0c\x1b\u{7f}\u{85}\u{feff}\"'\n-DOC\n-STR\n",
    ),
];

// How many nodes with anchors come before a node, the node, and its line.
const BEHIND_ANCHORS: &[(usize, &str, &str)] = &[
    (
        22,
        "&a !!map {}",
        "+MAP &23 <tag:yaml.org,2002:map>\n-MAP\n",
    ),
    (1, "*a", "=ALI *1\n"),
    (120, "*a", "=ALI *120\n"),
    (3, "&a !s >-\n  x", "=VAL &4 <!s> >x\n"),
];

#[test]
fn prints_the_ids_of_anchors(rt: HostRuntime) {
    for &(count, node, line) in BEHIND_ANCHORS {
        expect_behind_anchors(&rt, rt.alloc(), count, node, line);
    }
}

// What a program is run on, and what it prints and says.
const RUNS: &[(&[u8], &str, &str)] = &[
    (b"", "+STR\n-STR\n", ""),
    (b"# c\n", "+STR\n-STR\n", ""),
    (
        b"# c\n\0",
        "+STR\n",
        "found unprintable character at byte 4 line 2 column 1\n",
    ),
    (b"\xff", "", "dump_events: f is not UTF-8\n"),
    (b"# \xe2\x82", "", "dump_events: f is not UTF-8\n"),
    (
        b"[a:[]]",
        "+STR\n",
        "':' may not precede any of `[{` in flow mapping at byte 2 line 1 column 3\n",
    ),
    (
        b"\n# syntax error\nscalar\nkey: [1, 2]]\nkey1:a2\n",
        "+STR\n+DOC\n=VAL :scalar key\n",
        "mapping values are not allowed in this context at byte 26 line 4 column 4\n",
    ),
];

#[test]
fn runs(rt: HostRuntime) {
    for (bytes, lines, message) in RUNS {
        expect_of_bytes(&rt, rt.alloc(), bytes, lines, message);
    }
}

const EMPTY: Source = Source {
    rest: b"",
    is_broken: false,
};

// A source after whose first bytes reading fails.
const BROKEN: Source = Source {
    rest: b"# c",
    is_broken: true,
};

const REFUSED: Source = Source {
    rest: b"\0",
    is_broken: false,
};

// A writer with little room.
const FULL: Manner = Manner {
    at_a_time: 1,
    room: 7,
    ..WHOLE
};

const SAYING: Manner = Manner {
    at_a_time: 1,
    room: 20,
    ..WHOLE
};

// A writer that can't pass on the lines.
const STUCK: Manner = Manner {
    is_stuck: true,
    ..WHOLE
};

#[test]
fn runs_where_reading_or_writing_fails(rt: HostRuntime) {
    const RUNS: &[Run] = &[
        (BROKEN, (WHOLE, ""), (WHOLE, "dump_events: can't read f\n")),
        (
            EMPTY,
            (FULL, "+STR\n-S"),
            (WHOLE, "dump_events: can't write\n"),
        ),
        (
            EMPTY,
            (STUCK, "+STR\n-STR\n"),
            (SAYING, "dump_events: can't w"),
        ),
        (REFUSED, (STUCK, "+STR\n"), (SAYING, "dump_events: can't w")),
    ];
    for &run in RUNS {
        expect_run(&rt, rt.alloc(), run);
    }
}

// Texts of flow collections and block collections, and of scalars, and their lines.
const TEXTS: &[(&str, &str)] = &[
    (
        "{\"a\":[1,true]}",
        "+STR\n+DOC\n+MAP\n=VAL \"a\n+SEQ\n=VAL :1\n=VAL :true\n-SEQ\n-MAP\n-DOC\n-STR\n",
    ),
    (
        "[&a x, *a]",
        "+STR\n+DOC\n+SEQ\n=VAL &1 :x\n=ALI *1\n-SEQ\n-DOC\n-STR\n",
    ),
    (
        "[? : x]",
        "+STR\n+DOC\n+SEQ\n+MAP\n=VAL :\n=VAL :x\n-MAP\n-SEQ\n-DOC\n-STR\n",
    ),
    (
        "[? ]",
        "+STR\n+DOC\n+SEQ\n+MAP\n=VAL :\n=VAL :\n-MAP\n-SEQ\n-DOC\n-STR\n",
    ),
    ("[a:b]", "+STR\n+DOC\n+SEQ\n=VAL :a:b\n-SEQ\n-DOC\n-STR\n"),
    ("!%C3%A9 x", "+STR\n+DOC\n=VAL <!é> :x\n-DOC\n-STR\n"),
    (
        "a: b\r\nc: d",
        "+STR\n+DOC\n+MAP\n=VAL :a\n=VAL :b\n=VAL :c\n=VAL :d\n-MAP\n-DOC\n-STR\n",
    ),
    (
        ">\n a\n b\n\n  c\n d\n",
        "+STR\n+DOC\n=VAL >a b\\n\\n c\\nd\\n\n-DOC\n-STR\n",
    ),
    ("|\n a\n ", "+STR\n+DOC\n=VAL |a\\n\n-DOC\n-STR\n"),
    ("|+\n a\n ", "+STR\n+DOC\n=VAL |a\\n\\n\n-DOC\n-STR\n"),
    (
        "--- |\na\n---\nb\n",
        "+STR\n+DOC\n=VAL |a\\n\n-DOC\n+DOC\n=VAL :b\n-DOC\n-STR\n",
    ),
    (
        "- &a x\n- *a\n- &a y\n- *a",
        "+STR\n+DOC\n+SEQ\n=VAL &1 :x\n=ALI *1\n=VAL &2 :y\n=ALI *2\n-SEQ\n-DOC\n-STR\n",
    ),
    (
        "\"a \\\n  b\n\n c\"",
        "+STR\n+DOC\n=VAL \"a b\\nc\n-DOC\n-STR\n",
    ),
];

#[test]
fn prints_a_line_for_each_event(rt: HostRuntime) {
    expect_runs(&rt, rt.alloc(), NODES);
    expect_runs(&rt, rt.alloc(), SCALARS);
    expect_runs(&rt, rt.alloc(), TEXTS);
}
