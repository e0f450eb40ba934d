//! What `check_yaml` finds in a text, for C: findings one by one, each with the notes on it.

ghost use Rattle.std.specs.Prelude.{◌≡◌, IfOk};
ghost use mathlib.Core.Option.{none};
ghost use Rattle.saphyr_parser_c.specs.Check as spec;
ghost use Rattle.saphyr_parser_c.specs.Found as found;

use crate::found::{CFinding, COptions, Found, no_finding, options_of, passes};
use crate::handle::Handle;
use crate::inner::Inner;
use crate::parts::Parts;
use crate::status::Status;
use crate::{put, put_back, take};
use std::alloc::{AllocError, Global};
use yaml_check::{Findings, check_bytes};

/// Checks a text, and says whether it passes. What `out` held is freed.
#[unsafe(no_mangle)]
pub extern "C" fn saphyr_check(
    alloc: Global,
    text: &[u8],
    options: &COptions,
    out: &mut Handle,
) -> i32
    ensures { spec.ChecksText options.now text.now result out.new.value }
{
    match check_bytes(alloc, text, options_of(options)) {
        Ok(findings) => {
            let passed = passes(findings.verdict, options.strict);
            keep(alloc, findings, passed, out).code()
        }
        Err(_) => {
            put(out, Handle::none(alloc));
            Status::NoMemory.code()
        }
    }
}

// Puts what is found in a text that passes, or doesn't, into a handle.
fn keep(alloc: Global, findings: Findings, passed: bool, out: &mut Handle) -> Status
    ensures { spec.KeepsFindings findings passed result out.new.value }
{
    match Inner::with_findings(alloc, findings) {
        Ok(inner) => {
            put(out, Handle::of_parts(Parts::of(inner)));
            if passed { Status::Done } else { Status::Wrong }
        }
        Err(_) => {
            put(out, Handle::none(alloc));
            Status::NoMemory
        }
    }
}

/// Hands out the next finding.
#[unsafe(no_mangle)]
pub extern "C" fn saphyr_next_finding(
    alloc: Global,
    findings: &mut Handle,
    finding: &mut CFinding,
) -> i32
    ensures { spec.HandsOutIfChecked found.HandsOutFinding findings.old.value result
        finding.new findings.new.value }
{
    let Some(mut inner) = take(alloc, findings) else {
        *finding = no_finding();
        return Status::NotChecked.code();
    };
    let status = inner.next_finding(alloc, finding);
    put_back(findings, inner);
    status.code()
}

/// Hands out the next note on the finding that was handed out last.
#[unsafe(no_mangle)]
pub extern "C" fn saphyr_next_note(alloc: Global, findings: &mut Handle, note: &mut CFinding) -> i32
    ensures { spec.HandsOutIfChecked found.HandsOutNote findings.old.value result
        note.new findings.new.value }
{
    let Some(mut inner) = take(alloc, findings) else {
        *note = no_finding();
        return Status::NotChecked.code();
    };
    let status = inner.next_note(alloc, note);
    put_back(findings, inner);
    status.code()
}

/// Frees what was found, if a text was checked. The handle is null after this.
#[unsafe(no_mangle)]
pub extern "C" fn saphyr_free_findings(alloc: Global, findings: &mut Handle)
    ensures { findings.new.value ≡ none }
{
    put(findings, Handle::none(alloc));
}

impl Inner {
    /// What is found in a text, on the heap. The parser beside it reads no text.
    pub fn with_findings(
        alloc: Global,
        findings: Findings,
    ) -> Result<Box<Inner, Global>, AllocError>
        ensures { IfOk result (λ b. spec.HoldsAtStart findings b.value) }
    {
        let Ok(found) = Box::new(alloc, Found::new(alloc, findings)) else {
            return Err(AllocError);
        };
        let mut inner = Inner::over_text(alloc, "", false)?;
        inner.found = Some(found);
        Ok(inner)
    }

    /// Hands out the next finding, if a text is checked.
    pub fn next_finding(&mut self, alloc: Global, out: &mut CFinding) -> Status
        ensures { spec.HandsOutHeld found.HandsOutFinding self.old result out.new self.new }
    {
        match &mut self.found {
            Some(found) => found.next(alloc, out),
            None => {
                *out = no_finding();
                Status::NotChecked
            }
        }
    }

    /// Hands out the next note, if a text is checked.
    pub fn next_note(&mut self, alloc: Global, out: &mut CFinding) -> Status
        ensures { spec.HandsOutHeld found.HandsOutNote self.old result out.new self.new }
    {
        match &mut self.found {
            Some(found) => found.next_note(alloc, out),
            None => {
                *out = no_finding();
                Status::NotChecked
            }
        }
    }
}
