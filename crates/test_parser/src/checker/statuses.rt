//! The status of several files, and the words of calls of the checker.

use crate::helpers::is_text;
use std::alloc::{AllocError, Global};
use yaml_check::{Call, CheckFault, FileName, Rule, Verdict, parse_arguments, status_of};

type Answer = Result<Verdict, CheckFault>;

const RIGHT: Answer = Ok(Verdict::Right);

const WARNED: Answer = Ok(Verdict::Warned);

const WRONG: Answer = Ok(Verdict::Wrong);

// The status of files, also where warnings count as errors.
const STATUSES: &[(&[Answer], u8, u8)] = &[
    (&[], 0, 0),
    (&[RIGHT, RIGHT], 0, 0),
    (&[RIGHT, WARNED], 0, 1),
    (&[RIGHT, WRONG, RIGHT], 1, 1),
    (&[WRONG, Err(CheckFault::CantWrite)], 2, 2),
    (&[WARNED, Err(CheckFault::OutOfMemory)], 2, 2),
];

#[test]
fn the_worst_file_decides(rt: HostRuntime) {
    for (answers, status, strict) in STATUSES {
        assert!(rt; status_of(answers, false) == *status);
        assert!(rt; status_of(answers, true) == *strict);
    }
}

fn all_named(alloc: Global, words: &[&str]) -> Result<Vec<FileName>, AllocError> {
    let mut all = Vec::new(alloc);
    for word in words {
        all.push(FileName::from_bytes(alloc, word.as_bytes())?)?;
    }
    Ok(all)
}

// What a call asks for, as a text: whether events are printed, findings are not, warnings count, and keys that are
// twice are told, then the form, how many warnings are printed, the limits, and the files.
fn printed(alloc: Global, call: &Call) -> Result<String, AllocError> {
    match call {
        Call::Help => String::from_str(alloc, "help"),
        Call::Version => String::from_str(alloc, "version"),
        Call::Check(options, files) => {
            let (events, quiet, strict) = (options.events, options.quiet, options.strict);
            let keys = options.rules.has(Rule::DuplicateKey);
            let (depth, nodes) = (options.limits.depth, options.limits.nodes);
            let (form, most) = (options.format, options.max_findings);
            let names = files.iter().map(|file| file.text.as_str());
            let files: Result<Vec<&str>, AllocError> = names.collect(alloc);
            let files = files?;
            format!(in alloc;
                "{events} {quiet} {strict} {keys} {form:?} {most} {depth} {nodes} {files:?}"
            )
        }
    }
}

// What words ask for, or the fault of a wrong call.
fn asked(alloc: Global, words: &[FileName]) -> Result<String, AllocError> {
    match parse_arguments(alloc, words) {
        Ok(call) => {
            let text = printed(alloc, &call);
            drop(call);
            text
        }
        Err(wrong) => {
            let text = format!(in alloc; "{wrong}");
            drop(wrong);
            text
        }
    }
}

// Whether a call with these words asks for this.
fn asks(alloc: Global, words: &[&str], wanted: &str) -> bool {
    match all_named(alloc, words) {
        Ok(words) => {
            let said = asked(alloc, words.as_slice());
            drop(words);
            is_text(said, wanted)
        }
        Err(_) => false,
    }
}

const ALL: &[&str] = &[
    "--events",
    "a",
    "--max-depth",
    "3",
    "--quiet",
    "-",
    "--format",
    "json",
    "--strict",
    "--max-nodes",
    "0",
];

const SHORT: &[&str] = &[
    "-q",
    "--max-depth=4",
    "--max-findings=7",
    "--disable=duplicate-key",
    "--",
    "-q",
    "--help",
];

const CALLS: &[(&[&str], &str)] = &[
    (
        &[],
        "false false false true Text 100 18446744073709551615 18446744073709551615 []",
    ),
    (ALL, "true true true true Json 100 3 0 [\"a\", \"-\"]"),
    (
        SHORT,
        "false true false false Text 7 4 18446744073709551615 [\"-q\", \"--help\"]",
    ),
    (&["a", "--help"], "help"),
    (&["-h"], "help"),
    (&["--version", "--wrong"], "version"),
    (&["-V"], "version"),
    (&["--wrong"], "there is no option --wrong"),
    (&["--max-depth"], "--max-depth asks for a number"),
    (&["--max-nodes", "-1"], "--max-nodes asks for a number"),
    (&["--max-depth="], "--max-depth asks for a number"),
    (&["--quiet=3"], "--quiet takes no value"),
    (
        &["--disable=syntax"],
        "--disable asks for the name of a rule",
    ),
    (&["--format=xml"], "--format asks for text or json"),
    (&["-x=3"], "there is no option -x=3"),
];

#[test]
fn words_of_calls(rt: HostRuntime) {
    for (words, wanted) in CALLS {
        assert!(rt; asks(rt.alloc(), words, wanted));
    }
}
