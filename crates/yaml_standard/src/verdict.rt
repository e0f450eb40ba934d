//! Whether a text is YAML 1.2.2.
ghost use Rattle.std.specs.Prelude.{◌≡◌, IfOk};
ghost use Rattle.std.specs.Str.{chars};
ghost use Rattle.saphyr_input.specs.Breaks.{normalized};
ghost use Rattle.yaml_standard.specs.Verdicts.{AreDeviations, IsVerdictOn};

use crate::breaks::{has_return, with_line_feeds};
use crate::broken::broken_rule;
use crate::hint::Guide;
use crate::place::Here;
use crate::refused::fault_on;
use crate::resume::{broken_rules, is_told};
use crate::rule::Rule;
use crate::stream::read_stream;
use crate::strict::is_strict;
use saphyr_parser::{Marker, ScanError};
use std::alloc::{AllocError, Global};

/// What a text is.
#[derive(Debug, PartialEq, Eq, Drop)]
pub enum Verdict {
    /// It is YAML 1.2.2.
    Standard,
    /// The parser reads it, but it is not YAML 1.2.2.
    Deviates(Deviation),
    /// The parser refuses it.
    Refused(ScanError),
}

/// Where a text departs from the standard.
#[derive(Clone, Copy, Debug, PartialEq, Eq)]
pub struct Deviation {
    pub place: Marker,
    pub rule: Rule,
}

/// The verdict on a text that the parser refuses, unless memory ran out.
fn refusal(alloc: Global, text: &str) -> Result<Verdict, AllocError>
    ensures { IfOk result (IsVerdictOn text.now) }
{
    match fault_on(alloc, text)? {
        Some(error) => Ok(Verdict::Refused(error)),
        None => Err(AllocError),
    }
}

/// The verdict on a text that the parser reads, where a rule is broken at the place behind so many characters, each
/// break counted as one. The parser reads the text itself once more, since its breaks may be others.
fn verdict_at(alloc: Global, text: &str, rule: Rule, count: usize) -> Result<Verdict, AllocError>
    ensures { IfOk result (IsVerdictOn text.now) }
{
    match fault_on(alloc, text)? {
        Some(error) => Ok(Verdict::Refused(error)),
        None => {
            let place = Here::new(text).behind(count).mark;
            Ok(Verdict::Deviates(Deviation { place, rule }))
        }
    }
}

/// The verdict on a text with all breaks of `lines` made line feeds.
fn judge(alloc: Global, text: &str, lines: &str) -> Result<Verdict, AllocError>
    requires { chars lines.now ≡ normalized (chars text.now) }
    ensures { IfOk result (IsVerdictOn text.now) }
{
    let mut guide = Guide::new(alloc, lines);
    let stuck = read_stream(alloc, lines, &mut guide)?;
    let unprintable = guide.next_unprintable(lines, &mut 0);
    let told = match stuck {
        None => false,
        Some(stuck) => is_told(Here::new(lines), stuck, &guide),
    };
    if let Some(fault) = guide.into_fault() {
        drop(fault);
        return refusal(alloc, text);
    }
    if let Some(stuck) = stuck {
        let (rule, rest) = broken_rule(lines, stuck, told);
        return verdict_at(alloc, text, rule, Here::new(lines).before(rest).passed);
    }
    if unprintable.is_none() && is_strict(text) {
        return Ok(Verdict::Standard);
    }
    let rest = unprintable.unwrap_or(lines);
    let count = Here::new(lines).before(rest).passed;
    verdict_at(alloc, text, Rule::UnprintableCharacter, count)
}

/// Says whether a text is YAML 1.2.2. Of one that isn't, the verdict tells the first place that shows it, and the rule
/// that is broken there.
///
/// Each text of the grammar is `Standard` if it keeps the rules that the grammar leaves out: this is tested, and not
/// proved, and so is the rule. The only error is that memory ran out.
pub fn validate(alloc: Global, text: &str) -> Result<Verdict, AllocError>
    ensures { IfOk result (IsVerdictOn text.now) }
{
    if !has_return(text) {
        return judge(alloc, text, text);
    }
    let lines = with_line_feeds(alloc, text)?;
    let verdict = judge(alloc, text, lines.as_str());
    drop(lines);
    verdict
}

/// The deviations of a text with all breaks of `lines` made line feeds.
fn deviations_by(
    alloc: Global,
    text: &str,
    lines: &str,
    most: usize,
) -> Result<Vec<Deviation>, AllocError>
    ensures { IfOk result (λ found. AreDeviations (chars text.now) most found.items) }
{
    let broken = broken_rules(alloc, lines, most)?;
    let mut here = Here::new(text);
    let mut found = Vec::new(alloc);
    for i in 0..broken.len() {
        let (rule, count) = broken[i];
        here = here.behind(count);
        found.push(Deviation {
            place: here.mark,
            rule,
        })?;
    }
    drop(broken);
    Ok(found)
}

/// Says where a text that deviates isn't YAML 1.2.2: the first `most` places, in their order. Behind each the text is
/// read on from the next entry of a block collection that is open there, or from the next document.
///
/// Which places these are is tested, and not proved: [`validate`] says whether a text deviates.
pub fn deviations(alloc: Global, text: &str, most: usize) -> Result<Vec<Deviation>, AllocError>
    ensures { IfOk result (λ found. AreDeviations (chars text.now) most found.items) }
{
    if !has_return(text) {
        return deviations_by(alloc, text, text, most);
    }
    let lines = with_line_feeds(alloc, text)?;
    let found = deviations_by(alloc, text, lines.as_str(), most);
    drop(lines);
    found
}
