//! Compares the events of many texts with lists of them.
//!
//!     test_cases
//!     test_cases refused <CASE
//!
//! Reads the files `worked.txt`, `json.txt`, `layout.txt`, `hostile.txt`, `standard.txt` and `cuts.txt` where
//! it runs: texts that show one thing each, random texts of JSON and of YAML's layout, broken and odd texts,
//! texts where the parser departs from the standard, and the first of these cut at each place and with a
//! character put in there. Their lists come from another program. Each text is read from a string, from an
//! iterator and from a list of characters, and from each its events are taken in each way that there is. For
//! the texts of `worked.txt` each event is then refused in turn, and each write, and what takes memory is taken
//! while there is some. Last, the documents of each text are loaded as trees, within limits of several widths,
//! and the events of the trees are compared with those of the parser. Where events, their places or a fault
//! differ from the list, the first difference is printed, for at most 20 of the cases. The last line for a file
//! counts the cases that agree. Of the wrong lists of `wrong.rt` none does.
//!
//! With `refused` it reads cases from standard input and takes each in each way of `refused_memory`. A line for
//! each way says whether all is as the case lists it, or so up to a request for memory that was refused.
//!
//! The status is 1 where such a case differs, and 2 where the arguments are wrong or cases can't be read or
//! compared, as when out of memory.
#![tactic(auto)]

mod failing;
mod findings;
mod inputs;
mod limits;
mod long;
mod refused_memory;
mod refusing;
mod trees;
mod ways;
mod writing;
mod wrong;

use findings::{Subject, compare_all};
use refused_memory::{WAYS, take};
use std::alloc::AllocError;
use std::env::{Env, FillError};
use std::process::ExitCode;
use std::{fs, io};
use test_events::{Case, Difference, parse_cases, printed};

/// The names of the files.
const FILES: &[&str] = &["worked", "json", "layout", "hostile", "standard", "cuts"];

/// What is compared of wrong lists.
const SUBJECTS: &[Subject] = &[
    Subject::Events,
    Subject::RefusedEvents,
    Subject::FailedWrites,
    Subject::GrantedMemory,
    Subject::Trees,
    Subject::Differences,
];

/// The argument with which requests for memory may be refused.
const REFUSED: &[u8] = b"refused";

/// Why the cases can't be compared, or what differs.
enum Failure {
    OutOfMemory,
    Io,
    Arguments,
    Found(String),
}

// Written out, so that each place where a failure is dropped is one call.
impl Drop for Failure {
    fn drop(self) {
        match self {
            Failure::OutOfMemory | Failure::Io | Failure::Arguments => {}
            Failure::Found(_text) => {}
        }
    }
}

impl From<AllocError> for Failure {
    fn from(_error: AllocError) -> Self {
        Failure::OutOfMemory
    }
}

impl From<io::Error> for Failure {
    fn from(_error: io::Error) -> Self {
        Failure::Io
    }
}

impl From<Difference> for Failure {
    fn from(difference: Difference) -> Self {
        match difference.text() {
            Ok(text) => Failure::Found(text),
            Err(error) => Failure::from(error),
        }
    }
}

impl Failure {
    fn status(&self) -> u8 {
        match self {
            Failure::Found(_) => 1,
            _ => 2,
        }
    }

    fn words(&self) -> &str {
        match self {
            Failure::OutOfMemory => "out of memory",
            Failure::Io => "the cases can't be read, or the lines can't be printed",
            Failure::Arguments => "usage: test_cases [refused]",
            Failure::Found(text) => text.as_str(),
        }
    }
}

fn main(rt: HostRuntime) -> ExitCode {
    match run(&rt) {
        Ok(()) => ExitCode::SUCCESS,
        Err(failure) => {
            let _ = eprintln!(rt; "test_cases: {}", failure.words());
            ExitCode::from(failure.status())
        }
    }
}

// The argument is read without a request for memory.
fn run(rt: &HostRuntime) -> Result<(), Failure> {
    let mut word = [0; REFUSED.len()];
    match rt.arg(1, &mut word) {
        Err(FillError::NotPresent) => compare_files(rt),
        Ok(count) if &word[..count] == REFUSED => take_input(rt),
        _ => Err(Failure::Arguments),
    }
}

fn compare_files(rt: &HostRuntime) -> Result<(), Failure> {
    check_files(rt, Subject::Events)?;
    check_file(rt, "worked", Subject::RefusedEvents)?;
    check_file(rt, "worked", Subject::FailedWrites)?;
    check_file(rt, "worked", Subject::GrantedMemory)?;
    check_files(rt, Subject::Trees)?;
    check_long_texts(rt)?;
    check_wrong_lists(rt)
}

fn check_files(rt: &HostRuntime, subject: Subject) -> Result<(), Failure> {
    for &name in FILES {
        check_file(rt, name, subject)?;
    }
    Ok(())
}

fn check_file(rt: &HostRuntime, name: &str, subject: Subject) -> Result<(), Failure> {
    let text = read_file(rt, name)?;
    compare_text(rt, name, text.as_str(), subject)
}

fn read_file(rt: &HostRuntime, name: &str) -> Result<String, Failure> {
    let path = format!(in rt.alloc(); "{name}.txt")?;
    Ok(fs::read_to_string(rt, path.as_str())?)
}

fn compare_text(rt: &HostRuntime, name: &str, text: &str, subject: Subject) -> Result<(), Failure> {
    let cases = parse_cases(rt.alloc(), text)?;
    compare_cases(rt, name, cases.as_slice(), subject)
}

fn compare_cases(
    rt: &HostRuntime,
    name: &str,
    cases: &[Case],
    subject: Subject,
) -> Result<(), Failure> {
    let found = compare_all(rt.alloc(), cases, subject)?;
    show(rt, found.differences.as_slice())?;
    let agreeing = found.agreeing;
    println!(rt; "{name}, {}: {agreeing} of {}", subject.name(), cases.len())?;
    Ok(())
}

fn show(rt: &HostRuntime, differences: &[String]) -> io::Result<()> {
    for difference in differences {
        println!(rt; "{difference}")?;
    }
    Ok(())
}

fn check_long_texts(rt: &HostRuntime) -> Result<(), Failure> {
    match long::compare(rt.alloc()) {
        Ok(()) => println!(rt; "long texts agree")?,
        Err(difference) => {
            let text = difference.text()?;
            println!(rt; "long text, {text}")?;
        }
    }
    Ok(())
}

// Finds a difference in each wrong list, but for what `dump` doesn't write: places, and `---`.
fn check_wrong_lists(rt: &HostRuntime) -> Result<(), Failure> {
    for &subject in SUBJECTS {
        compare_text(rt, "wrong lists", wrong::LISTS, subject)?;
    }
    Ok(())
}

// Takes the cases of standard input in each way.
fn take_input(rt: &HostRuntime) -> Result<(), Failure> {
    let text = io::read_to_string(rt.alloc(), rt.stdin())?;
    let cases = parse_cases(rt.alloc(), text.as_str())?;
    take_cases(rt, cases.as_slice())
}

fn take_cases(rt: &HostRuntime, cases: &[Case]) -> Result<(), Failure> {
    for case in cases {
        let lines = printed(rt.alloc(), case.lines.as_slice())?;
        take_case(rt, case, lines.as_str())?;
    }
    Ok(())
}

fn take_case(rt: &HostRuntime, case: &Case, lines: &str) -> Result<(), Failure> {
    for &(name, way) in WAYS {
        let outcome = take(rt.alloc(), case, lines, way)?;
        println!(rt; "{name}: {}", outcome.name())?;
    }
    Ok(())
}
