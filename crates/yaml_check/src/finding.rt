//! What is found in a text: errors and warnings, each with its place, its rule and a message.
ghost use Rattle.std.specs.Prelude.{◌≡◌, ◌≢◌, false, IfOk, IsTrue, string_bytes};
ghost use Rattle.yaml_check.specs.Found as spec;
ghost use Rattle.yaml_check.specs.Told.{severity_word};
ghost use Rattle.yaml_check.specs.declared.finding.Verdict.TheVariants.{Right};

use crate::note::{Note, Remark};
use crate::warning::{PlacedWarning, Warning};
use saphyr_parser::{Marker, ScanError, Span};
use std::alloc::{AllocError, Global};

/// What was found in a file, in short.
#[derive(Clone, Copy, Debug)]
pub enum Verdict {
    Right,
    /// It has warnings, and no error.
    Warned,
    /// It has an error.
    Wrong,
}

impl Verdict {
    #[must_use]
    pub fn is_right(self) -> bool
        ensures yes { IsTrue result → self ≡ Right }
        ensures no { result ≡ false → self ≢ Right }
    {
        matches!(self, Verdict::Right)
    }
}

/// How bad a finding is.
#[derive(Clone, Copy, Debug)]
pub enum Severity {
    Error,
    Warning,
    /// It says more of an error, or that warnings are left out.
    Note,
}

impl Severity {
    #[must_use]
    pub fn word(self) -> &'static str
        ensures { result.now ≡ severity_word self }
    {
        match self {
            Severity::Error => "error",
            Severity::Warning => "warning",
            Severity::Note => "note",
        }
    }
}

/// What a finding is about.
#[derive(Clone, Copy, Debug)]
pub enum Problem {
    /// The parser refuses the text here, and its fault has the words.
    Fault,
    /// The parser refuses the text, and a person mends it here.
    Mistake(Remark),
    /// On an error: the parser refuses the text here.
    Stop,
    /// On an error: what else is known.
    Remark(Remark),
    Warning(Warning),
    /// So many more warnings begin here, and are left out.
    More(usize),
    /// The parser reads the text, and it is not YAML 1.2.2.
    Departure(yaml_standard::Rule),
    NotUtf8,
    Utf16,
}

impl Problem {
    #[must_use]
    pub fn severity(self) -> Severity
        ensures { result ≡ spec.severity_of self }
    {
        match self {
            Problem::Fault
            | Problem::Mistake(_)
            | Problem::Departure(_)
            | Problem::NotUtf8
            | Problem::Utf16 => Severity::Error,
            Problem::Warning(_) => Severity::Warning,
            Problem::Stop | Problem::Remark(_) | Problem::More(_) => Severity::Note,
        }
    }

    /// The name of its rule: of the parser's faults, and of what is said of them, it is `syntax`.
    #[must_use]
    pub fn rule(self) -> &'static str
        ensures { result.now ≡ spec.rule_of_problem self }
    {
        match self {
            Problem::Fault | Problem::Mistake(_) | Problem::Stop | Problem::Remark(_) => "syntax",
            Problem::Warning(warning) => warning.rule().name(),
            Problem::More(_) => "max-findings",
            Problem::Departure(rule) => rule.name(),
            Problem::NotUtf8 | Problem::Utf16 => "encoding",
        }
    }

    /// What it says, where the parser's fault has these words.
    fn message(self, alloc: Global, words: &str) -> Result<String, AllocError>
        ensures { IfOk result (λ text. string_bytes text ≡ spec.message_of words.now self) }
    {
        match self {
            Problem::Fault => String::from_str(alloc, words),
            Problem::Mistake(remark) | Problem::Remark(remark) => {
                String::from_str(alloc, remark.text())
            }
            Problem::Stop => format!(in alloc; "the parser stops here: {words}"),
            Problem::Warning(warning) => format!(in alloc; "{warning}"),
            Problem::More(count) => format!(in alloc; "{count} more warnings begin here"),
            Problem::Departure(rule) => String::from_str(alloc, rule.sentence()),
            Problem::NotUtf8 => String::from_str(alloc, "the text is not UTF-8 from here on"),
            Problem::Utf16 => String::from_str(alloc, "the text is UTF-16, and not UTF-8"),
        }
    }
}

/// One thing that is found in a text, and what it is on. That of a warning is an event; another has no width.
#[derive(Clone, Copy, Debug)]
pub struct Finding {
    pub span: Span,
    pub problem: Problem,
}

impl Finding {
    /// A problem at a place.
    pub(crate) fn at(place: Marker, problem: Problem) -> Finding
        ensures { result ≡ spec.at_place place problem }
    {
        Finding {
            span: Span::empty(place),
            problem,
        }
    }

    pub(crate) fn of_warning(warning: PlacedWarning) -> Finding
        ensures { result ≡ spec.warned warning }
    {
        Finding {
            span: warning.span,
            problem: Problem::Warning(warning.warning),
        }
    }

    pub(crate) fn of_note(note: Note) -> Finding
        ensures { result ≡ spec.noted note }
    {
        Finding::at(note.place, Problem::Remark(note.remark))
    }
}

/// What is said beside an error.
#[derive(Clone, Copy, Debug)]
pub struct Notes {
    pub first: Option<Finding>,
    pub second: Option<Finding>,
}

impl Notes {
    pub(crate) const NONE: Notes = Notes {
        first: None,
        second: None,
    };
}

/// What is found in a text.
#[derive(Drop)]
pub struct Findings {
    pub verdict: Verdict,
    /// Errors and warnings, in the order of their places.
    pub list: Vec<Finding>,
    /// On the error of a text that the parser refuses.
    pub notes: Notes,
    /// The parser's fault, which ends the events.
    pub fault: Option<ScanError>,
}

impl Findings {
    /// The message of a finding or a note.
    pub fn message(&self, alloc: Global, finding: Finding) -> Result<String, AllocError>
        ensures { IfOk result (λ text. string_bytes text
            ≡ spec.message_of (spec.words_of self.now.fault) finding.problem) }
    {
        let words = match &self.fault {
            Some(error) => error.info.as_str(),
            None => "",
        };
        finding.problem.message(alloc, words)
    }

    /// What is said beside a finding: there are notes on the parser's fault alone.
    #[must_use]
    pub fn notes_on(&self, finding: Finding) -> Notes
        ensures { result ≡ spec.notes_on self.now.notes finding.problem }
    {
        match finding.problem {
            Problem::Fault | Problem::Mistake(_) => self.notes,
            _ => Notes::NONE,
        }
    }
}
