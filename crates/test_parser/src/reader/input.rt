//! The tests of inputs. Each text is read as a text, as an iterator and as a list of characters: so the bodies that an
//! input has of its own answer as the default bodies do.

mod buffered;
mod steps;

use example_count::Characters;
use saphyr_input::StrInput;
use saphyr_input::input::{Input, SkipTabs};
use steps::{Ask, Row, Step, expect_steps};

const LONG: &str = "né: a text of more than sixteen characters\n- and 日本\0!";

// Characters are counted and appended.
const RUNS: &[Row] = &[
    (LONG, &[Step::Rest(LONG)]),
    ("éa b", &[Step::Word(2, "éa"), Step::Rest(" b")]),
    ("a_1-é", &[Step::Letters(4, "a_1-"), Step::Rest("é")]),
    (
        "éa b",
        &[
            Step::Word(2, "éa"),
            Step::SkipBlanks(1),
            Step::Letters(1, "éab"),
            Step::SkipLine(0),
        ],
    ),
];

const BARE: &str = "comments must be separated from other tokens by whitespace";

const BOTH: SkipTabs = SkipTabs::Result(true, true);

const SPACE: SkipTabs = SkipTabs::Result(false, true);

// White space and comments.
const SEPARATIONS: &[Row] = &[
    (
        "\t # x\n",
        &[Step::Separate(SkipTabs::Yes, 5, Ok(BOTH)), Step::Rest("\n")],
    ),
    (
        " #\u{FEFF}",
        &[
            Step::Separate(SkipTabs::No, 2, Ok(SPACE)),
            Step::Rest("\u{FEFF}"),
        ],
    ),
    (
        "#x",
        &[
            Step::Separate(SkipTabs::Yes, 0, Err(BARE)),
            Step::Rest("#x"),
        ],
    ),
    (
        " \tx",
        &[
            Step::Separate(SkipTabs::No, 1, Ok(SPACE)),
            Step::Rest("\tx"),
        ],
    ),
];

#[test]
fn reads_runs_and_white_space(rt: HostRuntime) {
    expect_steps(&rt, rt.alloc(), RUNS);
    expect_steps(&rt, rt.alloc(), SEPARATIONS);
}

// Past the end every place reads as NUL.
const PAST_THE_END: &[Row] = &[
    (
        "ab",
        &[
            Step::Empty,
            Step::Load(3),
            Step::Loaded(3),
            Step::PeekNth(2, '\0'),
            Step::Load(4),
            Step::Is(Ask::Two('a', 'b')),
            Step::Is(Ask::Three('a', 'b', '\0')),
            Step::Is(Ask::CharAt(2, '\0')),
        ],
    ),
    (
        "",
        &[
            Step::Load(4),
            Step::Is(Ask::Two('\0', '\0')),
            Step::Is(Ask::Z),
            Step::Is(Ask::Breakz),
            Step::Is(Ask::BlankOrBreakz),
            Step::Peek('\0'),
            Step::PeekOpt(None),
            Step::Look('\0'),
        ],
    ),
    ("é", &[Step::Load(4), Step::PeekNth(1, '\0')]),
];

const CLASSES: &[Row] = &[
    ("é", &[Step::Load(4), Step::Is(Ask::Char('é'))]),
    ("éa", &[Step::Load(4), Step::Is(Ask::CharAt(1, 'a'))]),
    ("a:", &[Step::Load(4), Step::Is(Ask::PlainInFlow)]),
    ("\n", &[Step::Load(4), Step::Is(Ask::BlankOrBreak)]),
    ("\t", &[Step::Load(4), Step::Is(Ask::Blank)]),
    ("\r", &[Step::Load(4), Step::Is(Ask::Break)]),
    ("]", &[Step::Load(4), Step::Is(Ask::Flow)]),
    ("7", &[Step::Load(4), Step::Is(Ask::Digit)]),
    ("_", &[Step::Load(4), Step::Is(Ask::Alpha)]),
    (
        ": ,",
        &[
            Step::Load(4),
            Step::IsNot(Ask::PlainInBlock),
            Step::Is(Ask::Char(':')),
            Step::IsNot(Ask::Blank),
            Step::IsNot(Ask::Break),
            Step::IsNot(Ask::Breakz),
            Step::IsNot(Ask::Digit),
            Step::IsNot(Ask::Alpha),
            Step::IsNot(Ask::Flow),
        ],
    ),
    (
        " ,",
        &[
            Step::Load(4),
            Step::Is(Ask::BlankOrBreak),
            Step::Is(Ask::BlankOrBreakz),
        ],
    ),
];

const NO_MARKER: &[Step] = &[
    Step::Load(4),
    Step::IsNot(Ask::DocumentStart),
    Step::IsNot(Ask::DocumentEnd),
    Step::IsNot(Ask::DocumentIndicator),
];

const START: &[Step] = &[
    Step::Load(4),
    Step::Is(Ask::DocumentStart),
    Step::IsNot(Ask::DocumentEnd),
    Step::Is(Ask::DocumentIndicator),
];

const END: &[Step] = &[
    Step::Load(4),
    Step::IsNot(Ask::DocumentStart),
    Step::Is(Ask::DocumentEnd),
    Step::Is(Ask::DocumentIndicator),
];

// Markers of documents, and a word that is none.
const MARKERS: &[Row] = &[
    ("---é", NO_MARKER),
    ("--- a", START),
    ("---", START),
    ("---\n", START),
    ("...\n", END),
    ("...", END),
];

#[test]
fn shows_what_comes_next(rt: HostRuntime) {
    expect_steps(&rt, rt.alloc(), PAST_THE_END);
    expect_steps(&rt, rt.alloc(), CLASSES);
    expect_steps(&rt, rt.alloc(), MARKERS);
}

const TAKEN_OFF: &[Row] = &[
    (
        "éa-  #é\nx",
        &[
            Step::Empty,
            Step::Read('é'),
            Step::ReadInLine(Some('a')),
            Step::Empty,
            Step::Look('-'),
            Step::Loaded(1),
            Step::Skip,
            Step::SkipBlanks(2),
            Step::SkipLine(2),
            Step::Load(2),
            Step::SkipMany(2),
            Step::Rest(""),
        ],
    ),
    (
        "é\n",
        &[
            Step::ReadInLine(Some('é')),
            Step::Empty,
            Step::ReadInLine(None),
            Step::Look('\n'),
        ],
    ),
    (
        "abé\ncd",
        &[
            Step::Read('a'),
            Step::Read('b'),
            Step::ReadInLine(Some('é')),
            Step::Load(5),
            Step::Loaded(5),
            Step::Peek('\n'),
            Step::PeekNth(2, 'd'),
            Step::PeekNth(3, '\0'),
            Step::SkipMany(2),
            Step::PeekOpt(Some('d')),
            Step::SkipMany(3),
            Step::Look('\0'),
        ],
    ),
];

// What ends a line is kept.
const KEPT: &[Row] = &[
    (
        "\n-",
        &[Step::ReadInLine(None), Step::Look('\n'), Step::Rest("\n-")],
    ),
    ("\0-", &[Step::ReadInLine(None), Step::Rest("\0-")]),
    (
        "\u{FEFF}-",
        &[Step::ReadInLine(None), Step::Rest("\u{FEFF}-")],
    ),
    ("", &[Step::ReadInLine(None), Step::Rest("")]),
];

// Copies in mid-text, with places loaded.
const COPIED: &[Row] = &[(
    "one two three four five",
    &[
        Step::Load(6),
        Step::SkipMany(4),
        Step::Copy("two three four five"),
        Step::Rest("two three four five"),
    ],
)];

#[test]
fn takes_characters_off(rt: HostRuntime) {
    expect_steps(&rt, rt.alloc(), TAKEN_OFF);
    expect_steps(&rt, rt.alloc(), KEPT);
    expect_steps(&rt, rt.alloc(), COPIED);
}

#[test]
fn shows_how_much_can_be_loaded(rt: HostRuntime) {
    assert!(rt; StrInput::new("").bufmaxlen() == 128);
    assert!(rt; Characters::new(&[]).bufmaxlen() == 8);
}
