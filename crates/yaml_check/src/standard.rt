//! Where a text that the parser reads is not YAML 1.2.2.
ghost use Rattle.std.specs.Prelude.{◌≡◌, ◌≤◌, ◌<◌, [], None, length, map, max, All, IfOk};
ghost use Rattle.std.specs.Str.{chars};
ghost use Rattle.saphyr_parser.specs.Runs.{answer_of_text};
ghost use Rattle.saphyr_parser.specs.Words.TokensTaken.{IsPlaceOf};
ghost use Rattle.yaml_standard.specs.Verdicts.{IsStandard};
ghost use Rattle.yaml_check.specs.Found.{IsDeparture, departed};

use crate::finding::{Finding, Problem};
use std::alloc::{AllocError, Global};
use yaml_standard::{Deviation, Verdict, deviations, validate};

/// The first places that show that a text is not YAML 1.2.2: one at least, and otherwise so many at most.
pub(crate) fn departures(alloc: Global, text: &str, most: usize) -> Result<Vec<Finding>, AllocError>
    requires { (answer_of_text text.now).fault ≡ None }
    ensures all { IfOk result (λ found. All (IsDeparture (chars text.now)) found.items) }
    ensures few { IfOk result (λ found. length found.items ≤ max 1 most) }
    ensures standard { IfOk result (λ found. found.items ≡ [] → IsStandard (chars text.now)) }
{
    match validate(alloc, text)? {
        Verdict::Standard => Ok(Vec::new(alloc)),
        Verdict::Deviates(first) => departures_from(alloc, text, first, most),
        Verdict::Refused(_) => unreachable!(),
    }
}

/// Where a text departs from the standard, the first place at least.
fn departures_from(
    alloc: Global,
    text: &str,
    first: Deviation,
    most: usize,
) -> Result<Vec<Finding>, AllocError>
    requires { IsPlaceOf (chars text.now) first.place }
    ensures all { IfOk result (λ found. All (IsDeparture (chars text.now)) found.items) }
    ensures few { IfOk result (λ found. length found.items ≤ max 1 most) }
    ensures some { IfOk result (λ found. 0 < length found.items) }
{
    let told = deviations(alloc, text, most)?;
    let found = each_departure(alloc, &told);
    drop(told);
    let mut found = found?;
    if found.is_empty() {
        found.push(departure(first))?;
        return Ok(found);
    }
    Ok(found)
}

fn each_departure(alloc: Global, told: &[Deviation]) -> Result<Vec<Finding>, AllocError>
    ensures { IfOk result (λ found. found.items ≡ map departed told.now) }
{
    let mut found = Vec::new(alloc);
    for deviation in told {
        found.push(departure(*deviation))?;
    }
    Ok(found)
}

fn departure(deviation: Deviation) -> Finding
    ensures { result ≡ departed deviation }
{
    Finding::at(deviation.place, Problem::Departure(deviation.rule))
}
