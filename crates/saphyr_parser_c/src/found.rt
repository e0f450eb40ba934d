//! What is found in a text, as C sees it: one finding after the other, each with the notes on it.

ghost use Rattle.std.specs.Prelude.{◌≡◌, ◌↔◌, IsTrue, Ok, drop};
ghost use Rattle.yaml_check.specs.Statuses.{IsLetPass};
ghost use Rattle.saphyr_parser_c.specs.Found as spec;

use crate::coming::bounded;
use crate::shown::{CMarker, CText, marker_of, no_text};
use crate::status::Status;
use crate::texts::{kept, lent};
use saphyr_parser::Marker;
use std::alloc::{AllocError, Global};
use yaml_check::{Finding, Findings, Limits, Notes, Options, RuleSet, Severity, Verdict};

/// The rules whose warnings are left out.
#[repr(C)]
pub struct CRules {
    pub alias_in_itself: bool,
    pub duplicate_key: bool,
    pub empty_document: bool,
    pub max_depth: bool,
    pub max_nodes: bool,
    pub wide_alias: bool,
}

/// How a text is checked, by the names of the program's options.
#[repr(C)]
pub struct COptions {
    pub standard: bool,
    pub strict: bool,
    pub disable: CRules,
    pub max_depth: usize,
    pub max_findings: usize,
    pub max_nodes: usize,
}

/// A finding, or a note on one.
#[repr(C)]
#[derive(Drop)]
pub struct CFinding {
    pub severity: i32,
    pub start: CMarker,
    pub end: CMarker,
    pub rule: CText,
    pub message: CText,
}

/// The options of a check.
pub fn options_of(options: &COptions) -> Options
    ensures { spec.AreOptions options.now result }
{
    Options {
        standard: options.standard,
        strict: options.strict,
        max_findings: bounded(options.max_findings, usize::MAX),
        rules: rules_without(&options.disable),
        limits: Limits {
            depth: bounded(options.max_depth, usize::MAX),
            nodes: bounded(options.max_nodes, usize::MAX),
        },
        ..Options::DEFAULT
    }
}

// The rules that are not left out.
fn rules_without(disable: &CRules) -> RuleSet
    ensures { result ≡ spec.rules_without disable.now }
{
    RuleSet {
        alias_in_itself: !disable.alias_in_itself,
        duplicate_key: !disable.duplicate_key,
        empty_document: !disable.empty_document,
        max_depth: !disable.max_depth,
        max_nodes: !disable.max_nodes,
        wide_alias: !disable.wide_alias,
    }
}

/// Whether a text passes: it has no error and, where a warning counts as one, no warning.
pub fn passes(verdict: Verdict, strict: bool) -> bool
    ensures { IsTrue result ↔ IsLetPass strict (Ok verdict) }
{
    match verdict {
        Verdict::Right => true,
        Verdict::Warned => !strict,
        Verdict::Wrong => false,
    }
}

// The number of a severity in C.
fn severity_code(severity: Severity) -> i32
    ensures { result ≡ spec.severity_code severity }
{
    match severity {
        Severity::Error => 1,
        Severity::Warning => 2,
        Severity::Note => 3,
    }
}

/// No finding.
pub fn no_finding() -> CFinding
    ensures { spec.IsNoFinding result }
{
    let nowhere = Marker::new(0, 0, 0);
    CFinding {
        severity: 0,
        start: marker_of(nowhere),
        end: marker_of(nowhere),
        rule: no_text(),
        message: no_text(),
    }
}

const NO_NOTES: Notes = Notes {
    first: None,
    second: None,
};

/// What is found in a text, and how far it is handed out.
#[derive(Drop)]
pub struct Found {
    pub(super) findings: Findings,
    // How many findings are handed out.
    pub(super) count: usize,
    // The notes on the last of these that are not handed out.
    pub(super) notes: Notes,
    // The message that was handed out last.
    pub(super) message: String,
}

impl Found {
    /// Nothing is handed out.
    pub fn new(alloc: Global, findings: Findings) -> Found
        ensures { spec.HasAllLeft findings result }
    {
        Found {
            findings,
            count: 0,
            notes: NO_NOTES,
            message: String::new(alloc),
        }
    }

    /// Hands out the next finding. What is left of the notes on the one before it is passed over.
    pub fn next(&mut self, alloc: Global, out: &mut CFinding) -> Status
        ensures { spec.HandsOutFinding self.old result out.new self.new }
    {
        let Some(finding) = self.findings.list.get(self.count).copied() else {
            *out = no_finding();
            return Status::End;
        };
        let Ok(()) = self.tell(alloc, finding, out) else {
            return Status::NoMemory;
        };
        self.count += 1;
        self.notes = self.findings.notes_on(finding);
        Status::Finding
    }

    /// Hands out the next note on the finding that was handed out last.
    pub fn next_note(&mut self, alloc: Global, out: &mut CFinding) -> Status
        ensures { spec.HandsOutNote self.old result out.new self.new }
    {
        let Some(note) = self.notes.first.or(self.notes.second) else {
            *out = no_finding();
            return Status::End;
        };
        let Ok(()) = self.tell(alloc, note, out) else {
            return Status::NoMemory;
        };
        self.notes = behind_first(self.notes);
        Status::Finding
    }

    // Writes a finding or a note, and keeps its message.
    fn tell(
        &mut self,
        alloc: Global,
        finding: Finding,
        out: &mut CFinding,
    ) -> Result<(), AllocError>
        ensures { spec.TellsFinding finding self.old result out.new self.new }
    {
        *out = no_finding();
        self.message = self.findings.message(alloc, finding)?;
        *out = CFinding {
            severity: severity_code(finding.problem.severity()),
            start: marker_of(finding.span.start),
            end: marker_of(finding.span.end),
            rule: lent(finding.problem.rule()),
            message: kept(alloc, &mut self.message),
        };
        Ok(())
    }
}

// The notes without the first of them.
fn behind_first(notes: Notes) -> Notes
    ensures { spec.list_of result ≡ drop 1 (spec.list_of notes) }
{
    Notes {
        first: None,
        second: notes.first.and(notes.second),
    }
}
