//! Checks YAML files, and says what is wrong with them.
//!
//!     check_yaml [OPTION..] [--] [FILE or FOLDER..]
//!
//! `-` names standard input. The status is 0 if no file has an error and 1 if one has, and with `--strict` also if one
//! has a warning. It is 2 if the call is wrong, a file or a folder can't be read or something can't be written.
#![tactic(auto)]

ghost use Rattle.std.specs.Prelude.{◌≡◌};
ghost use Rattle.std.specs.Process.{exit_status};

mod disk;

use disk::{list, open};
use std::alloc::{AllocError, Global};
use std::env::Env;
use std::io::{BufWriter, ErrorKind, Write};
use std::process::ExitCode;
use yaml_check::{
    Call, CheckFault, Entry, FileName, HELP, Kind, Options, Verdict, Walk, WrongCall, check_source,
    parse_arguments, status_of, tell_unread, visible,
};

const VERSION: &str = "check_yaml 0.3.3+rattle.4";

/// The most bytes of an argument. Linux allows no longer one.
const LONGEST_ARGUMENT: usize = 131_072;

fn main(rt: HostRuntime) -> ExitCode {
    let Ok(words) = words(&rt) else {
        return refuse(&rt, "out of memory");
    };
    match parse_arguments(rt.alloc(), &words) {
        Ok(Call::Help) => say(&rt, HELP),
        Ok(Call::Version) => say(&rt, VERSION),
        Ok(Call::Check(options, files)) => check_named(&rt, options, &files),
        Err(wrong) => misused(&rt, &wrong),
    }
}

// The arguments after the program's name. Those of std are an error if one is not UTF-8.
fn words(rt: &HostRuntime) -> Result<Vec<FileName>, AllocError> {
    let mut words = Vec::new(rt.alloc());
    let mut room = [0; LONGEST_ARGUMENT];
    for at in 1..usize::MAX {
        let Ok(count) = rt.arg(at, &mut room) else {
            break;
        };
        let word = FileName::from_bytes(rt.alloc(), &room[..count])?;
        if words.push(word).is_err() {
            return Err(AllocError);
        }
    }
    Ok(words)
}

// Prints a text that was asked for.
fn say(rt: &HostRuntime, text: &str) -> ExitCode {
    match println!(rt; "{text}") {
        Ok(()) => ExitCode::SUCCESS,
        Err(_) => refuse(rt, "can't write"),
    }
}

// Says that the call is wrong.
fn misused(rt: &HostRuntime, wrong: &WrongCall) -> ExitCode
    ensures { exit_status result ≡ 2 }
{
    match wrong_call(rt.alloc(), wrong) {
        Ok(text) => {
            let _ = eprintln!(rt; "check_yaml: {text}; see check_yaml --help");
            ExitCode::from(2)
        }
        Err(_) => refuse(rt, "out of memory"),
    }
}

// Why a call is refused, with the words of the call as they are shown.
fn wrong_call(alloc: Global, wrong: &WrongCall) -> Result<String, AllocError> {
    let text = format!(in alloc; "{wrong}")?;
    let shown = visible(alloc, text.as_str());
    drop(text);
    shown
}

fn refuse(rt: &HostRuntime, text: &str) -> ExitCode
    ensures { exit_status result ≡ 2 }
{
    let _ = eprintln!(rt; "check_yaml: {text}");
    ExitCode::from(2)
}

// Checks what the call names.
fn check_named(rt: &HostRuntime, options: Options, names: &[&FileName]) -> ExitCode {
    match named(rt, names) {
        Ok(entries) => check_all(rt, options, Walk::new(entries)),
        Err(_) => refuse(rt, "out of memory"),
    }
}

// What the call names, or standard input. That a file is a folder is known once it can't be read.
fn named(rt: &HostRuntime, names: &[&FileName]) -> Result<Vec<Entry>, AllocError> {
    let mut entries = Vec::new(rt.alloc());
    for name in names {
        push_named(rt, &mut entries, name.text.as_str(), name.is_utf8)?;
    }
    if names.is_empty() {
        push_named(rt, &mut entries, "-", true)?;
    }
    Ok(entries)
}

fn push_named(
    rt: &HostRuntime,
    entries: &mut Vec<Entry>,
    text: &str,
    is_utf8: bool,
) -> Result<(), AllocError> {
    let text = String::from_str(rt.alloc(), text)?;
    let entry = Entry {
        name: FileName { text, is_utf8 },
        kind: Kind::File,
    };
    match entries.push(entry) {
        Ok(()) => Ok(()),
        Err(_) => Err(AllocError),
    }
}

// Checks each file and the files below each folder. Once something can't be written, no more is checked.
fn check_all(rt: &HostRuntime, options: Options, mut walk: Walk) -> ExitCode {
    let mut answers = Vec::new(rt.alloc());
    let Ok(mut out) = BufWriter::new(rt.alloc(), rt.stdout()) else {
        return refuse(rt, "out of memory");
    };
    for _ in 0..u64::MAX {
        let Some(entry) = walk.next() else {
            break;
        };
        let answer = check_entry(rt, options, &mut walk, &entry, &mut out);
        drop(entry);
        if answers.push(answer).is_err() {
            return refuse(rt, "out of memory");
        }
        if let Err(CheckFault::CantWrite) = answer {
            break;
        }
    }
    ExitCode::from(status_of(&answers, options.strict))
}

// Checks a file or enters a folder. What is printed is gathered, since each event is a line of its own.
fn check_entry<W: Write>(
    rt: &HostRuntime,
    options: Options,
    walk: &mut Walk,
    entry: &Entry,
    out: &mut W,
) -> Result<Verdict, CheckFault> {
    let answer = visit(rt, options, walk, entry, out);
    match (answer, out.flush()) {
        (_, Err(_)) => say_unchecked(rt, &entry.name, CheckFault::CantWrite),
        (Err(CheckFault::CantRead(error)), Ok(())) => Err(CheckFault::CantRead(error)),
        (Err(fault), Ok(())) => say_unchecked(rt, &entry.name, fault),
        (Ok(verdict), Ok(())) => Ok(verdict),
    }
}

// Says on standard error why a file was not checked.
fn say_unchecked(
    rt: &HostRuntime,
    name: &FileName,
    fault: CheckFault,
) -> Result<Verdict, CheckFault> {
    match visible(rt.alloc(), name.text.as_str()) {
        Ok(name) => {
            let _ = eprintln!(rt; "check_yaml: {name}: {fault}");
        }
        Err(_) => {
            let _ = eprintln!(rt; "check_yaml: {fault}");
        }
    }
    Err(fault)
}

// Checks a file or enters a folder. That it can't be read is told with what is found.
fn visit<W: Write>(
    rt: &HostRuntime,
    options: Options,
    walk: &mut Walk,
    entry: &Entry,
    out: &mut W,
) -> Result<Verdict, CheckFault> {
    let answer = match entry.kind {
        Kind::Folder => enter(rt, walk, &entry.name),
        Kind::File | Kind::Other => check_file_or_enter(rt, options, walk, &entry.name, out),
    };
    if let Err(CheckFault::CantRead(error)) = answer {
        tell_unread(rt.alloc(), entry.name.text.as_str(), error, options, out)?;
    }
    answer
}

// Checks a file, or enters what turns out to be a folder.
fn check_file_or_enter<W: Write>(
    rt: &HostRuntime,
    options: Options,
    walk: &mut Walk,
    name: &FileName,
    out: &mut W,
) -> Result<Verdict, CheckFault> {
    match check_file(rt, options, name, out) {
        Err(CheckFault::CantRead(error)) if error.kind() == ErrorKind::IsADirectory => {
            enter(rt, walk, name)
        }
        answer => answer,
    }
}

// Puts what is checked of a folder's entries before what is still to come.
fn enter(rt: &HostRuntime, walk: &mut Walk, folder: &FileName) -> Result<Verdict, CheckFault> {
    match list(rt, folder) {
        Ok(entries) => {
            walk.enter(rt.alloc(), folder.text.as_str(), entries)?;
            Ok(Verdict::Right)
        }
        Err(error) => Err(CheckFault::CantRead(error)),
    }
}

// Checks the file of this name, or standard input.
fn check_file<W: Write>(
    rt: &HostRuntime,
    options: Options,
    name: &FileName,
    out: &mut W,
) -> Result<Verdict, CheckFault> {
    let text = name.text.as_str();
    if text == "-" {
        return check_source(rt.alloc(), text, &mut rt.stdin(), options, out);
    }
    match open(rt, name) {
        Ok(mut file) => check_source(rt.alloc(), text, &mut file, options, out),
        Err(error) => Err(CheckFault::CantRead(error)),
    }
}
