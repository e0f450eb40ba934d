//! What the checker prints of texts: each kind of finding, and how a line and its caret are shown.

use crate::helpers::is_text;
use std::alloc::{AllocError, Global};
use yaml_check::{CheckFault, Format, Limits, Options, RuleSet, Verdict, check_source};

const FEW: Options = Options {
    limits: Limits { depth: 2, nodes: 9 },
    ..Options::DEFAULT
};

// What is printed of bytes that are called `f`, and after it how they are judged.
fn printed(alloc: Global, bytes: &[u8], options: Options) -> Result<Vec<u8>, AllocError> {
    let mut source = bytes;
    let mut out = Vec::new(alloc);
    let judged = check_source(alloc, "f", &mut source, options, &mut out);
    out.extend_from_slice(word_of(judged).as_bytes())?;
    Ok(out)
}

fn word_of(judged: Result<Verdict, CheckFault>) -> &'static str {
    match judged {
        Ok(Verdict::Right) => "right",
        Ok(Verdict::Warned) => "warned",
        Ok(Verdict::Wrong) => "wrong",
        Err(CheckFault::CantRead(_)) => "unread",
        Err(CheckFault::CantWrite) => "unwritten",
        Err(CheckFault::OutOfMemory) => "unknown",
    }
}

// Whether that is this.
fn prints(alloc: Global, bytes: &[u8], options: Options, wanted: &str) -> bool {
    match printed(alloc, bytes, options) {
        Ok(said) => said.as_slice() == wanted.as_bytes(),
        Err(_) => false,
    }
}

// Texts with what is printed of them.
const PRINTED: &[(&str, &str)] = &[
    // Right texts.
    ("", "right"),
    ("a: 1\nb: {a: 2}\n", "right"),
    ("- &a b\n- *a\n", "right"),
    ("--- ''\n", "right"),
    ("--- !!null\n", "right"),
    ("--- &a\n", "right"),
    // Keys that differ in their tags, and in where the tags' names are cut.
    ("!!str a: 1\n!b a: 2\n", "right"),
    (
        "%TAG !a! tag:a\n%TAG !b! tag:a!b\n---\n!a!b%21c k: 1\n!b!c k: 2\n",
        "right",
    ),
    // Equal keys of two mappings, and equal values.
    ("- a: 1\n- a: 1\n", "right"),
    ("a: {b: b}\nb: b\n", "right"),
    // As many nodes and collections as there may be.
    ("[[a, b, c, d, e, f, g]]", "right"),
    // Keys that are twice.
    (
        "a: 1\n'a': 2\n",
        "f:2:1: warning: duplicate key; first at 1:1\n'a': 2\n^\nwarned",
    ),
    (
        "{a: 1, b: {a: 2}, a: 3}",
        "f:1:19: warning: duplicate key; first at 1:2\n\
        {a: 1, b: {a: 2}, a: 3}\n                  ^\nwarned",
    ),
    (
        "!!str a: 1\n!<tag:yaml.org,2002:str> a: 2\n",
        "f:2:1: warning: duplicate key; first at 1:1\n\
        !<tag:yaml.org,2002:str> a: 2\n^\nwarned",
    ),
    // Other warnings.
    (
        "---",
        "f:1:1: warning: this document has no content\n---\n^\nwarned",
    ),
    (
        "--- a\n--- # nothing\n",
        "f:2:1: warning: this document has no content\n--- # nothing\n^\nwarned",
    ),
    (
        "&a [*a]",
        "f:1:5: warning: this alias is inside the node that it repeats\n&a [*a]\n    ^\nwarned",
    ),
    (
        "[[[a]], [[]]]",
        "f:1:3: warning: more than 2 collections are open here\n[[[a]], [[]]]\n  ^\n\
        f:1:10: warning: more than 2 collections are open here\n[[[a]], [[]]]\n         ^\nwarned",
    ),
    (
        "[1, 2, 3, 4, 5, 6, 7, 8, 9]",
        "f:1:26: warning: the text has more than 9 nodes\n[1, 2, 3, 4, 5, 6, 7, 8, 9]\n\
        \u{20}                        ^\nwarned",
    ),
    // Faults. The error is where a person mends the text, if that is known, and findings come by their places.
    (
        "[a:[]]",
        "f:1:3: error: ':' may not precede any of `[{` in flow mapping\n[a:[]]\n  ^\n\
        f:1:1: note: the sequence that begins here is not closed yet\n[a:[]]\n^\nwrong",
    ),
    (
        "a: 1\na: *b\n",
        "f:2:1: warning: duplicate key; first at 1:1\na: *b\n^\n\
        f:2:4: error: while parsing node, found unknown anchor\na: *b\n   ^\n\
        f:2:4: note: no anchor has this name; a text that begins with * needs quotes\nwrong",
    ),
    // A bracket is not closed: an outermost one, and one before a closing brace. Above, one is.
    (
        "[1, 2\nhost: y",
        "f:1:1: error: the sequence that begins here is not closed yet\n[1, 2\n^\n\
        f:2:5: note: the parser stops here: illegal placement of ':' indicator\nhost: y\n    ^\nwrong",
    ),
    (
        "[{a: 1, a: 2},\nhost: y",
        "f:1:1: error: the sequence that begins here is not closed yet\n[{a: 1, a: 2},\n^\n\
        f:3:1: note: the parser stops here: while parsing a flow mapping, did not find expected ',' or '}'\n\n^\n\
        f:1:9: warning: duplicate key; first at 1:3\n[{a: 1, a: 2},\n        ^\nwrong",
    ),
    (
        "{a: [b,\nc\n}",
        "f:1:5: error: the sequence that begins here is not closed yet\n{a: [b,\n    ^\n\
        f:3:1: note: the parser stops here: while parsing a flow sequence, expected ',' or ']'\n}\n^\nwrong",
    ),
    // Wide characters take two columns, and a tab the two of its escape.
    (
        "名: [*b]",
        "f:1:5: error: while parsing node, found unknown anchor\n名: [*b]\n     ^\n\
        f:1:5: note: no anchor has this name; a text that begins with * needs quotes\n\
        f:1:4: note: the sequence that begins here is not closed yet\n名: [*b]\n    ^\nwrong",
    ),
    (
        "x: [ \t*b]",
        "f:1:7: error: while parsing node, found unknown anchor\nx: [ \\t*b]\n       ^\n\
        f:1:7: note: no anchor has this name; a text that begins with * needs quotes\n\
        f:1:4: note: the sequence that begins here is not closed yet\nx: [ \\t*b]\n   ^\nwrong",
    ),
    // A long line is cut. Here 200 characters are on each side of the alias.
    (
        "[\"\
        xxxxxxxxxxxxxxxxxxxxxxxxxxxxxxxxxxxxxxxxxxxxxxxxxxxxxxxxxxxxxxxxxxxxxxxxxxxxxxxxxxxxxxxxxxxxxxxxxxxx\
        xxxxxxxxxxxxxxxxxxxxxxxxxxxxxxxxxxxxxxxxxxxxxxxxxxxxxxxxxxxxxxxxxxxxxxxxxxxxxxxxxxxxxxxxxxxxxxxxxxxx\
        \", *b, \"\
        xxxxxxxxxxxxxxxxxxxxxxxxxxxxxxxxxxxxxxxxxxxxxxxxxxxxxxxxxxxxxxxxxxxxxxxxxxxxxxxxxxxxxxxxxxxxxxxxxxxx\
        xxxxxxxxxxxxxxxxxxxxxxxxxxxxxxxxxxxxxxxxxxxxxxxxxxxxxxxxxxxxxxxxxxxxxxxxxxxxxxxxxxxxxxxxxxxxxxxxxxxx\
        \"]",
        "f:1:206: error: while parsing node, found unknown anchor\n\
        ...xxxxxxxxxxxxxxxxxxxxxxxxxxxxxxxxxxxxxxxxxxxxxxxxxxxxxxxxxxxxxxxxxxxxxxxxxxxxxxxxxxxxxxxxxxxxxxxxxxxx\
        xxxxxxxxxxxxxx\", *b, \"xxxxxxxxxxxxxxxxxxxxxxxxxxxxxxxxxxxxxxxxxxxxxxxxxxxxxxxxxxxxxxxxxxxxxxxx...\n\
        \u{20}                                                           \
        \u{20}                                                           ^\n\
        f:1:206: note: no anchor has this name; a text that begins with * needs quotes\n\
        f:1:1: note: the sequence that begins here is not closed yet\n\
        [\"xxxxxxxxxxxxxxxxxxxxxxxxxxxxxxxxxxxxxxxxxxxxxxxxxxxxxxxxxxxxxxxxxxxxxxxxxxxxxxxxxxxxxxxxxxxxxxxxx\
        xxxxxxxxxxxxxxxxxxxxxxxxxxxxxxxxxxxxxxxxxxxxxxxxxxxxxxxxxxxxxxxxxxxxxxxxxxxxxxxxxxxxxxxxxxxxxxxxxx...\n\
        ^\nwrong",
    ),
];

#[test]
fn what_is_printed(rt: HostRuntime) {
    for &(text, wanted) in PRINTED {
        assert!(rt;
            prints(rt.alloc(), text.as_bytes(), FEW, wanted),
            "{text:?}"
        );
    }
}

#[test]
fn bytes_that_are_no_text(rt: HostRuntime) {
    let wanted = "f:2:4: error: the text is not UTF-8 from here on\nb: \n   ^\nwrong";
    assert!(rt; prints(rt.alloc(), b"a: 1\nb: \xff\n", FEW, wanted));
    let wanted = "f:1:1: error: the text is UTF-16, and not UTF-8\n\n^\nwrong";
    assert!(rt; prints(rt.alloc(), b"\xff\xfea\0", FEW, wanted));
}

#[test]
fn what_is_asked_for_is_printed(rt: HostRuntime) {
    let events = Options {
        events: true,
        ..FEW
    };
    let right = "+STR\n+DOC\n=VAL :a\n-DOC\n-STR\nright";
    assert!(rt; prints(rt.alloc(), b"a", events, right));
    let quiet = Options {
        quiet: true,
        ..events
    };
    let warned = "+STR\n+DOC\n=VAL :\n-DOC\n-STR\nwarned";
    assert!(rt; prints(rt.alloc(), b"---", quiet, warned));
}

#[test]
fn a_rule_that_is_off_shows_nothing(rt: HostRuntime) {
    let fewer = Options {
        rules: RuleSet {
            duplicate_key: false,
            ..RuleSet::ALL
        },
        ..FEW
    };
    assert!(rt; prints(rt.alloc(), b"{a: 1, a: 2}", fewer, "right"));
}

#[test]
fn so_many_warnings_are_printed(rt: HostRuntime) {
    let one = Options {
        max_findings: 1,
        ..FEW
    };
    let wanted = "f:1:8: warning: duplicate key; first at 1:2\n{a: 1, a: 2, a: 3, a: 4}\n\
        \u{20}      ^\n\
        f:1:14: note: 2 more warnings begin here\n{a: 1, a: 2, a: 3, a: 4}\n\
        \u{20}            ^\nwarned";
    assert!(rt; prints(rt.alloc(), b"{a: 1, a: 2, a: 3, a: 4}", one, wanted));
}

#[test]
fn findings_as_json(rt: HostRuntime) {
    let json = Options {
        format: Format::Json,
        ..FEW
    };
    let warned = "{\"file\":\"f\",\"line\":1,\"column\":8,\"end\":{\"line\":1,\"column\":9},\
        \"rule\":\"duplicate-key\",\"severity\":\"warning\",\
        \"message\":\"duplicate key; first at 1:2\"}\nwarned";
    assert!(rt; prints(rt.alloc(), b"{a: 1, a: 2}", json, warned));
    let wrong = "{\"file\":\"f\",\"line\":1,\"column\":2,\"end\":{\"line\":1,\"column\":2},\
        \"rule\":\"syntax\",\"severity\":\"error\",\
        \"message\":\"\\\"-\\\" is only valid inside a block\"}\n\
        {\"file\":\"f\",\"line\":1,\"column\":1,\"end\":{\"line\":1,\"column\":1},\
        \"rule\":\"syntax\",\"severity\":\"note\",\
        \"message\":\"the sequence that begins here is not closed yet\"}\nwrong";
    assert!(rt; prints(rt.alloc(), b"[- a]", json, wrong));
}
