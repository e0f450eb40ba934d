//! A linter on the events of a text. Each rule takes all events in turn, with their places.
ghost use Rattle.std.specs.Prelude.{◌≡◌, [], ◌++◌, Some, None, map, IfOk, OnOk, string_bytes};
ghost use Rattle.std.specs.Str.{chars};
ghost use Rattle.saphyr_parser.specs.Cursor.{to_come};
ghost use Rattle.saphyr_parser.specs.Runs.{answer_of_text};
ghost use Rattle.saphyr_parser.specs.Views.Events.{happening};
ghost use Rattle.yaml_check.specs.Checked.{EndsAs, IsFoundIn, NamesFault, NamesFindings, OnceEnded, fault_found};
ghost use Rattle.yaml_check.specs.Found as found;
ghost use Rattle.yaml_check.specs.Found.{AreDepartures, AreFindings, IsAccepted, IsByPlace, TellsRefusal, IsToldOf};
ghost use Rattle.yaml_check.specs.OpenSeen.{open_of};
ghost use Rattle.yaml_check.specs.Opened as opened;
ghost use Rattle.yaml_check.specs.Warned as warned;

use crate::arguments::Options;
use crate::brackets::{closer, opened_note};
use crate::content::Content;
use crate::counting::Count;
use crate::encoding::not_utf8;
use crate::finding::{Finding, Findings, Notes, Problem, Verdict};
use crate::help::help_on;
use crate::keys::Keys;
use crate::mended::{FaultTold, tell_fault};
use crate::open::Open;
use crate::rules::RuleSet;
use crate::sizes::Sizes;
use crate::standard::departures;
use crate::view::characters;
use crate::warning::{PlacedWarning, Warning, Warnings};
use saphyr_parser::{Event, Fault, Input, Parser, Progress, ScanError, Span, no_event};
use std::alloc::{AllocError, Global};
use std::mem::replace;

/// How many nodes a text may have, and how many collections may be open at once, without a warning. An alias
/// counts as one node, and so does a node that is left out.
#[derive(Clone, Copy)]
pub struct Limits {
    pub depth: usize,
    pub nodes: usize,
}

/// The rules, and the warnings so far.
#[derive(Drop)]
struct Checker {
    depth: usize,
    content: Content,
    count: Count,
    keys: Keys,
    sizes: Sizes,
    collections: Open,
    warnings: Warnings,
}

/// What is found in a text: the warnings of the rules that are on, the parser's fault if it refuses the text, and
/// otherwise where the text is not YAML 1.2.2, if that is asked for.
pub fn check_text(alloc: Global, text: &str, options: Options) -> Result<Findings, AllocError>
    ensures fault { IfOk result (NamesFault (answer_of_text text.now)) }
    ensures findings { IfOk result (NamesFindings options text.now) }
{
    let Checked {
        warnings,
        collections,
        fault,
    } = check_events(alloc, Parser::new_from_str(alloc, text), options)?;
    let found = findings(alloc, text, &warnings, &collections, fault, options);
    drop((warnings, collections));
    found
}

/// What is found in a text, by the warnings on its events and the fault that ends them.
fn findings(
    alloc: Global,
    text: &str,
    warnings: &[PlacedWarning],
    collections: &Open,
    fault: Option<ScanError>,
    options: Options,
) -> Result<Findings, AllocError>
    requires { fault_found fault ≡ (answer_of_text text.now).fault }
    ensures fault { IfOk result (λ found. found.fault ≡ fault) }
    ensures told { IfOk result (AreFindings options (chars text.now) warnings.now
        (open_of collections.now) (fault_found fault)) }
{
    match fault {
        Some(error) => refused(alloc, text, warnings, collections, error, options),
        None => accepted(alloc, text, warnings, options),
    }
}

/// What is found in bytes. Those that are not UTF-8 are one error, at the first that is wrong.
pub fn check_bytes(alloc: Global, bytes: &[u8], options: Options) -> Result<Findings, AllocError>
    ensures { IfOk result (IsFoundIn options bytes.now) }
{
    match str::from_utf8(bytes) {
        Ok(text) => check_text(alloc, text, options),
        Err(_) => not_utf8(alloc, bytes),
    }
}

/// What is found in a text with these warnings, where the parser refuses it.
fn refused(
    alloc: Global,
    text: &str,
    warnings: &[PlacedWarning],
    collections: &Open,
    error: ScanError,
    options: Options,
) -> Result<Findings, AllocError>
    ensures fault { IfOk result (λ found. found.fault ≡ Some error) }
    ensures told { IfOk result (TellsRefusal options (chars text.now) warnings.now
        (open_of collections.now) error.mark (string_bytes error.info)) }
{
    let told = told_of(alloc, text, collections, &error);
    match told {
        Ok(told) => match by_place(alloc, warnings, options.max_findings, &[told.error]) {
            Ok(list) => Ok(Findings {
                verdict: Verdict::Wrong,
                list,
                notes: told.notes,
                fault: Some(error),
            }),
            Err(full) => {
                drop(error);
                Err(full)
            }
        },
        Err(full) => {
            drop(error);
            Err(full)
        }
    }
}

/// How a fault is told.
fn told_of(
    alloc: Global,
    text: &str,
    collections: &Open,
    error: &ScanError,
) -> Result<FaultTold, AllocError>
    ensures { IfOk result (IsToldOf (chars text.now) (open_of collections.now) error.now.mark
        (string_bytes error.now.info)) }
{
    let text = characters(alloc, text)?;
    let opened = opened_note(&text, collections, error.mark);
    let closer = closer(&text[error.mark.index.min(text.len())..]);
    let help = help_on(&text, collections, error);
    drop(text);
    Ok(tell_fault(error.mark, opened, closer, help))
}

/// What is found in a text with these warnings, where the parser reads it.
fn accepted(
    alloc: Global,
    text: &str,
    warnings: &[PlacedWarning],
    options: Options,
) -> Result<Findings, AllocError>
    requires { (answer_of_text text.now).fault ≡ None }
    ensures fault { IfOk result (λ found. found.fault ≡ None) }
    ensures told { IfOk result (IsAccepted options (chars text.now) warnings.now) }
{
    let departed = asked_departures(alloc, text, options)?;
    let verdict = verdict_of(warnings, &departed);
    let list = by_place(alloc, warnings, options.max_findings, &departed);
    drop(departed);
    Ok(Findings {
        verdict,
        list: list?,
        notes: Notes::NONE,
        fault: None,
    })
}

/// Where a text is not YAML 1.2.2, if that is asked for.
fn asked_departures(alloc: Global, text: &str, options: Options) -> Result<Vec<Finding>, AllocError>
    requires { (answer_of_text text.now).fault ≡ None }
    ensures { IfOk result (λ departed.
        AreDepartures options (chars text.now) departed.items) }
{
    if !options.standard {
        return Ok(Vec::new(alloc));
    }
    departures(alloc, text, options.max_findings)
}

/// What warnings and other findings say of a text that the parser reads.
fn verdict_of(warnings: &[PlacedWarning], departed: &[Finding]) -> Verdict
    ensures { result ≡ found.verdict_of warnings.now departed.now }
{
    match (warnings, departed) {
        ([], []) => Verdict::Right,
        (_, []) => Verdict::Warned,
        _ => Verdict::Wrong,
    }
}

/// The warnings, so many at most, and other findings, in the order of their places.
fn by_place(
    alloc: Global,
    warnings: &[PlacedWarning],
    most: usize,
    others: &[Finding],
) -> Result<Vec<Finding>, AllocError>
    ensures { IfOk result (λ list.
        IsByPlace (found.most_warned most warnings.now ++ others.now) list.items) }
{
    let mut list = first_warnings(alloc, warnings, most)?;
    list.extend_from_slice(others)?;
    list.sort_by_key(|finding| finding.span.start.index)?;
    Ok(list)
}

/// So many warnings at most, and how many more there are.
fn first_warnings(
    alloc: Global,
    warnings: &[PlacedWarning],
    most: usize,
) -> Result<Vec<Finding>, AllocError>
    ensures { IfOk result (λ list. list.items ≡ found.most_warned most warnings.now) }
{
    match warnings.get(most) {
        None => all_warnings(alloc, warnings),
        Some(next) => {
            let mut list = all_warnings(alloc, &warnings[..most])?;
            list.push(Finding {
                span: next.span,
                problem: Problem::More(warnings.len() - most),
            })?;
            Ok(list)
        }
    }
}

fn all_warnings(alloc: Global, warnings: &[PlacedWarning]) -> Result<Vec<Finding>, AllocError>
    ensures { IfOk result (λ list. list.items ≡ map found.warned warnings.now) }
{
    let mut list = Vec::new(alloc);
    for warning in warnings {
        list.push(Finding::of_warning(*warning))?;
    }
    Ok(list)
}

/// What the rules found in events, and what is open behind them.
#[derive(Drop)]
struct Checked {
    warnings: Vec<PlacedWarning>,
    collections: Open,
    fault: Option<ScanError>,
}

/// The warnings on events, and the fault that ends them.
fn check_events<T: Input + Drop>(
    alloc: Global,
    parser: Parser<'_, T>,
    options: Options,
) -> Result<Checked, AllocError>
    ensures fault { IfOk result (λ checked.
        fault_found checked.fault ≡ (to_come parser.entry).fault) }
    ensures warnings { IfOk result (λ checked. checked.warnings.items
        ≡ warned.warnings_on (to_come parser.entry).events
        (warned.nothing_seen options.rules options.limits)) }
    ensures collections { IfOk result (λ checked. open_of checked.collections
        ≡ opened.open_on (to_come parser.entry).events opened.nothing_open) }
{
    let mut checker = Checker::new(alloc, options.rules, options.limits);
    let ended = checker.take_all(parser);
    let warnings = replace(&mut checker.warnings.list, Vec::new(alloc));
    let collections = replace(&mut checker.collections, Open::new(alloc));
    drop(checker);
    match ended {
        Ok(()) => Ok(Checked {
            warnings,
            collections,
            fault: None,
        }),
        Err(Fault::Scan(refusal)) => Ok(Checked {
            warnings,
            collections,
            fault: Some(refusal),
        }),
        Err(other) => {
            drop((other, warnings, collections));
            Err(AllocError)
        }
    }
}

impl Checker {
    ghost use Rattle.yaml_check.specs.CheckerSeen.{seen_of};

    /// Nothing was met yet.
    fn new(alloc: Global, rules: RuleSet, limits: Limits) -> Checker
        ensures seen { seen_of result ≡ warned.nothing_seen rules limits }
        ensures warnings { result.warnings.list.items ≡ [] }
        ensures collections { open_of result.collections ≡ opened.nothing_open }
    {
        Checker {
            depth: limits.depth,
            content: Content::new(),
            count: Count::new(limits.nodes),
            keys: Keys::new(alloc),
            sizes: Sizes::new(alloc),
            collections: Open::new(alloc),
            warnings: Warnings::new(alloc, rules),
        }
    }

    /// Takes all events, up to a fault.
    fn take_all<T: Input + Drop>(&mut self, parser: Parser<'_, T>) -> Result<(), Fault>
        ensures ended { EndsAs result (to_come parser.entry) }
        ensures warned { OnceEnded result (self.new.warnings.list.items
            ≡ self.old.warnings.list.items
            ++ warned.warnings_on (to_come parser.entry).events (seen_of self.old)) }
        ensures collections { OnceEnded result (open_of self.new.collections
            ≡ opened.open_on (to_come parser.entry).events (open_of self.old.collections)) }
    {
        let mut parser = parser;
        let mut next = no_event();
        let taken = self.take_each(&mut parser, &mut next);
        drop((next, parser));
        taken
    }

    /// Takes all events through one place, since they are large to move.
    fn take_each<'input, T: Input>(
        &mut self,
        parser: &mut Parser<'input, T>,
        next: &mut (Event<'input>, Span),
    ) -> Result<(), Fault>
        ensures ended { EndsAs result (to_come parser.old) }
        ensures warned { OnceEnded result (self.new.warnings.list.items
            ≡ self.old.warnings.list.items
            ++ warned.warnings_on (to_come parser.old).events (seen_of self.old)) }
        ensures collections { OnceEnded result (open_of self.new.collections
            ≡ opened.open_on (to_come parser.old).events (open_of self.old.collections)) }
    {
        let mut fault = Fault::OutOfMemory;
        loop {
            match parser.next_event_into(next, &mut fault) {
                Progress::Event => self.take(&next.0, &next.1)?,
                Progress::Fault => return Err(fault),
                Progress::Over => return Ok(()),
            }
        }
    }

    /// Takes an event with its span.
    fn take(&mut self, event: &Event, span: &Span) -> Result<(), AllocError>
        ensures behind { OnOk result (seen_of self.new
            ≡ warned.seen_behind (happening event.now) span.now (seen_of self.old)) }
        ensures told { OnOk result (self.new.warnings.list.items ≡ self.old.warnings.list.items
            ++ warned.warnings_at (happening event.now) span.now (seen_of self.old)) }
        ensures collections { OnOk result (open_of self.new.collections
            ≡ opened.opened_behind (happening event.now) span.now (open_of self.old.collections)) }
    {
        let is_deep = self.is_too_deep(event);
        self.warnings.warn_if(self.content.take(event, span))?;
        self.keys.take(event, span, &mut self.warnings)?;
        self.sizes.take(event, span, &mut self.warnings)?;
        if is_deep {
            self.warnings.warn(*span, Warning::TooDeep(self.depth))?;
        }
        self.warnings.warn_if(self.count.take(event, span))?;
        self.collections.take(event, span)
    }

    /// Whether a collection begins where as many as allowed are already open around it.
    fn is_too_deep(&self, event: &Event) -> bool
        ensures { result ≡ warned.is_too_deep (seen_of self.now) (happening event.now) }
    {
        let begins = matches!(event, Event::SequenceStart(..) | Event::MappingStart(..));
        begins && self.sizes.depth() == self.depth
    }
}
