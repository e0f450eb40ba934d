//! The words of a call.
use crate::checking::Limits;
use crate::folders::FileName;
use crate::rules::{Rule, RuleSet};
use crate::told::Format;
use std::alloc::Global;
use thiserror::Error;

/// What `--help` prints.
pub const HELP: &str = "\
usage: check_yaml [OPTION..] [--] [FILE or FOLDER..]

Checks files of YAML, and each .yaml and .yml file below a folder, except in hidden
folders there. With no FILE, or for -, reads standard input.

      --disable RULE    leave out the warnings of a rule
      --events          print the events too, a line for each
      --format FORMAT   text, in lines as those of gcc, or json, an object a line
      --max-depth N     warn where more than N collections are open at once
      --max-findings N  print at most N warnings of a file, and how many more (100)
      --max-nodes N     warn of more than N nodes
  -q, --quiet           print nothing; only the status tells
      --standard        also say where a text departs from YAML 1.2.2
      --strict          let a warning count as an error
  -h, --help            print this
  -V, --version         print the version

The rules are alias-in-itself, duplicate-key, empty-document, max-depth, max-nodes and
wide-alias.

The status is 0 if no file has an error, 1 if one has, and 2 for a wrong call, or if a
file can't be read or something can't be written.";

/// What a call asks for.
#[derive(Drop)]
pub enum Call<'a> {
    Help,
    Version,
    /// To check these files and folders.
    Check(Options, Vec<&'a FileName>),
}

/// How files are checked.
#[derive(Clone, Copy)]
pub struct Options {
    /// The events are printed too.
    pub events: bool,
    /// What is found is not printed.
    pub quiet: bool,
    /// It is an error if the text is not YAML 1.2.2.
    pub standard: bool,
    /// A warning counts as an error.
    pub strict: bool,
    pub format: Format,
    /// So many warnings of a file are printed at most.
    pub max_findings: usize,
    pub rules: RuleSet,
    pub limits: Limits,
}

impl Options {
    /// Those of a call without options.
    pub const DEFAULT: Options = Options {
        events: false,
        quiet: false,
        standard: false,
        strict: false,
        format: Format::Text,
        max_findings: 100,
        rules: RuleSet::ALL,
        limits: Limits {
            depth: usize::MAX,
            nodes: usize::MAX,
        },
    };
}

/// Why a call is refused.
#[derive(Clone, Copy, Debug, Error)]
pub enum WrongCall<'a> {
    #[error("there is no option {0}")]
    NoSuchOption(&'a str),
    #[error("{0} takes no value")]
    NeedlessValue(&'a str),
    #[error("{0} asks for a number")]
    NoNumber(&'a str),
    #[error("{0} asks for the name of a rule")]
    NoRule(&'a str),
    #[error("{0} asks for text or json")]
    NoFormat(&'a str),
    #[error("out of memory")]
    OutOfMemory,
}

/// What the words after the program's name ask for. If they name no file, standard input is to be checked.
pub fn parse_arguments<'a>(
    alloc: Global,
    words: &'a [FileName],
) -> Result<Call<'a>, WrongCall<'a>> {
    let mut options = Options::DEFAULT;
    let mut files = Vec::new(alloc);
    match take_words(words, &mut options, &mut files) {
        Ok(Asked::Check) => Ok(Call::Check(options, files)),
        Ok(Asked::Help) => {
            drop(files);
            Ok(Call::Help)
        }
        Ok(Asked::Version) => {
            drop(files);
            Ok(Call::Version)
        }
        Err(wrong) => {
            drop(files);
            Err(wrong)
        }
    }
}

/// What words ask for.
#[derive(Clone, Copy)]
enum Asked {
    Help,
    Version,
    Check,
}

/// What a word is.
#[derive(Clone, Copy)]
enum Word {
    /// It asks for something else than a check.
    Instead(Asked),
    Flag(Flag),
    Setting(Setting),
    /// Files alone come after it.
    EndOfOptions,
    NoOption,
    File,
}

/// An option without a value.
#[derive(Clone, Copy)]
enum Flag {
    Events,
    Quiet,
    Standard,
    Strict,
}

/// An option with a value.
#[derive(Clone, Copy)]
enum Setting {
    Disable,
    Format,
    MaxDepth,
    MaxFindings,
    MaxNodes,
}

/// What a word is, by what comes before a `=` in it.
fn kind_of(name: &str) -> Word {
    match name {
        "-h" | "--help" => Word::Instead(Asked::Help),
        "-V" | "--version" => Word::Instead(Asked::Version),
        "--events" => Word::Flag(Flag::Events),
        "-q" | "--quiet" => Word::Flag(Flag::Quiet),
        "--standard" => Word::Flag(Flag::Standard),
        "--strict" => Word::Flag(Flag::Strict),
        "--disable" => Word::Setting(Setting::Disable),
        "--format" => Word::Setting(Setting::Format),
        "--max-depth" => Word::Setting(Setting::MaxDepth),
        "--max-findings" => Word::Setting(Setting::MaxFindings),
        "--max-nodes" => Word::Setting(Setting::MaxNodes),
        "--" => Word::EndOfOptions,
        _ if name.starts_with("-") && name != "-" => Word::NoOption,
        _ => Word::File,
    }
}

/// An option's name, and its value where it has one, as in `--max-depth=3`.
fn cut(word: &str) -> (&str, Option<&str>) {
    if !word.starts_with("--") {
        return (word, None);
    }
    match word.split_once("=") {
        Some((name, value)) => (name, Some(value)),
        None => (word, None),
    }
}

/// Takes the words in turn, into options and the names of files.
fn take_words<'a>(
    words: &'a [FileName],
    options: &mut Options,
    files: &mut Vec<&'a FileName>,
) -> Result<Asked, WrongCall<'a>> {
    let mut at = 0;
    let mut files_alone = false;
    while at < words.len() {
        let file = &words[at];
        let word = file.text.as_str();
        at += 1;
        let (name, value) = cut(word);
        match kind_of(name) {
            _ if files_alone => add_file(files, file)?,
            Word::File => add_file(files, file)?,
            Word::NoOption => return Err(WrongCall::NoSuchOption(word)),
            Word::Setting(setting) => {
                let value = match value {
                    Some(value) => value,
                    None => {
                        at += 1;
                        words.get(at - 1).map_or("", |word| word.text.as_str())
                    }
                };
                set(options, setting, name, value)?;
            }
            _ if value.is_some() => return Err(WrongCall::NeedlessValue(name)),
            Word::Instead(asked) => return Ok(asked),
            Word::Flag(flag) => raise(options, flag),
            Word::EndOfOptions => files_alone = true,
        }
    }
    Ok(Asked::Check)
}

/// Adds the name of a file.
fn add_file<'a>(files: &mut Vec<&'a FileName>, name: &'a FileName) -> Result<(), WrongCall<'a>> {
    match files.push(name) {
        Ok(()) => Ok(()),
        Err(_) => Err(WrongCall::OutOfMemory),
    }
}

/// Takes an option without a value.
fn raise(options: &mut Options, flag: Flag) {
    match flag {
        Flag::Events => options.events = true,
        Flag::Quiet => options.quiet = true,
        Flag::Standard => options.standard = true,
        Flag::Strict => options.strict = true,
    }
}

/// Takes an option of this name, with its value.
fn set<'a>(
    options: &mut Options,
    setting: Setting,
    name: &'a str,
    value: &str,
) -> Result<(), WrongCall<'a>> {
    match setting {
        Setting::Disable => {
            let rule = Rule::named(value).ok_or(WrongCall::NoRule(name))?;
            options.rules.disable(rule);
        }
        Setting::Format => options.format = format(value).ok_or(WrongCall::NoFormat(name))?,
        Setting::MaxFindings => options.max_findings = number(name, value)?,
        Setting::MaxDepth => options.limits.depth = number(name, value)?,
        Setting::MaxNodes => options.limits.nodes = number(name, value)?,
    }
    Ok(())
}

/// The format of this name.
fn format(name: &str) -> Option<Format> {
    match name {
        "text" => Some(Format::Text),
        "json" => Some(Format::Json),
        _ => None,
    }
}

/// The number that an option of this name asks for.
fn number<'a>(name: &'a str, value: &str) -> Result<usize, WrongCall<'a>> {
    match value.parse::<usize>() {
        Ok(number) => Ok(number),
        Err(_) => Err(WrongCall::NoNumber(name)),
    }
}
