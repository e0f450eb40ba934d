//! Whether a text is YAML 1.2.2, for C.

ghost use Rattle.std.specs.Prelude.{◌≡◌, ◌↔◌, ℕ, List, IsUtf8, negsuc, pos};
ghost use Rattle.std.specs.Str.{chars};
ghost use Rattle.yaml_standard.specs.Verdicts.{IsStandard, IsVerdictOn};
ghost use Rattle.yaml_standard.specs.declared.verdict.Verdict.TheVariants.{Standard};
ghost use Rattle.saphyr_parser_c.specs.declared.status.Status.TheVariants as status;
ghost use Rattle.saphyr_parser_c.specs.Encoding.{BeginsAsUtf16};
ghost use Rattle.saphyr_parser_c.specs.Shown.{nowhere};
ghost use Rattle.saphyr_parser_c.specs.Standard as spec;

use crate::inner::unreadable;
use crate::shown::{CMarker, CText, marker_of, no_text};
use crate::status::Status;
use crate::texts::lent;
use saphyr_parser::Marker;
use std::alloc::Global;
use yaml_standard::{Deviation, Verdict, validate};

/// Where a text departs from YAML 1.2.2, and from which rule.
#[repr(C)]
#[derive(Drop)]
pub struct CDeviation {
    pub place: CMarker,
    pub rule: CText,
    pub sentence: CText,
}

// A place, and no rule.
fn only_place(place: Marker) -> CDeviation
    ensures { spec.HasPlace place result }
{
    CDeviation {
        place: marker_of(place),
        rule: no_text(),
        sentence: no_text(),
    }
}

// Nothing.
fn no_deviation() -> CDeviation
    ensures { spec.HasPlace nowhere result }
{
    only_place(Marker::new(0, 0, 0))
}

// A place where a rule is broken. The rule's texts are in the program for as long as it runs.
fn deviation_of(deviation: Deviation) -> CDeviation
    ensures { spec.HasRule deviation result }
{
    CDeviation {
        place: marker_of(deviation.place),
        rule: lent(deviation.rule.name()),
        sentence: lent(deviation.rule.sentence()),
    }
}

// Writes a verdict.
fn write_verdict(verdict: &Verdict, out: &mut CDeviation) -> Status
    ensures standard { result ≡ status.Done → verdict.now ≡ Standard }
    ensures tells { (text : List ℕ) → IsVerdictOn text verdict.now
        → spec.TellsOfText text result out.new }
{
    match verdict {
        Verdict::Standard => {
            *out = no_deviation();
            Status::Done
        }
        Verdict::Deviates(deviation) => {
            *out = deviation_of(*deviation);
            Status::Deviates
        }
        Verdict::Refused(error) => {
            *out = only_place(error.mark);
            Status::Refused
        }
    }
}

// Says whether a text in UTF-8 is YAML 1.2.2.
fn judge(alloc: Global, text: &str, out: &mut CDeviation) -> Status
    ensures standard { result ≡ status.Done → IsStandard (chars text.now) }
    ensures tells { spec.TellsOfText text.now result out.new }
{
    match validate(alloc, text) {
        Ok(verdict) => {
            let status = write_verdict(&verdict, out);
            drop(verdict);
            status
        }
        Err(_) => {
            *out = no_deviation();
            Status::NoMemory
        }
    }
}

/// Says whether a text is YAML 1.2.2. Of one that the parser reads and that isn't, writes the first place that shows
/// it, and the rule that is broken there. Of one that the parser refuses, writes the place.
#[unsafe(no_mangle)]
pub extern "C" fn saphyr_check_standard(
    alloc: Global,
    text: &[u8],
    deviation: &mut CDeviation,
) -> i32
    ensures standard { result ≡ pos 0 → IsUtf8 text.now × IsStandard (chars text.now) }
    ensures not_utf8 { (result ≡ negsuc 2)
        ↔ ((IsUtf8 text.now → ⊥) × (BeginsAsUtf16 text.now → ⊥)) }
    ensures utf16 { (result ≡ negsuc 4) ↔ ((IsUtf8 text.now → ⊥) × BeginsAsUtf16 text.now) }
    ensures tells { spec.Answers text.now result deviation.new }
{
    match str::from_utf8(text) {
        Ok(text) => judge(alloc, text, deviation).code(),
        Err(_) => {
            *deviation = no_deviation();
            unreadable(text).code()
        }
    }
}
