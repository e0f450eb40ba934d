//! How a fault of the parser is told: the error is where a person mends the text, if that is known.
ghost use Rattle.std.specs.Prelude.{◌≡◌};
ghost use Rattle.yaml_check.specs.Found as spec;

use crate::brackets::is_closed_by;
use crate::finding::{Finding, Notes, Problem};
use crate::note::Note;
use saphyr_parser::Marker;

/// The error, and the notes on it.
#[derive(Clone, Copy)]
pub(crate) struct FaultTold {
    pub(crate) error: Finding,
    pub(crate) notes: Notes,
}

/// Tells a fault at a place, by the bracket that is open there, the one that closes it, and the help on the fault.
pub(crate) fn tell_fault(
    fault: Marker,
    opened: Option<Note>,
    closer: Option<char>,
    help: Option<Note>,
) -> FaultTold
    ensures { result ≡ spec.fault_told fault opened closer help }
{
    match help {
        Some(note) if note.remark.mends() => tell_by_help(fault, opened, note),
        _ => tell_by_bracket(fault, opened, closer, help),
    }
}

/// Help tells where the text is mended: at the fault, or elsewhere.
fn tell_by_help(fault: Marker, opened: Option<Note>, note: Note) -> FaultTold
    ensures { result ≡ spec.told_by_help fault opened note }
{
    if note.place.index == fault.index {
        tell_here(fault, Some(note), opened)
    } else {
        tell_elsewhere(fault, note, opened)
    }
}

/// No help tells where: the text is mended at a bracket that is not closed.
fn tell_by_bracket(
    fault: Marker,
    opened: Option<Note>,
    closer: Option<char>,
    help: Option<Note>,
) -> FaultTold
    ensures { result ≡ spec.told_by_bracket fault opened closer help }
{
    match opened {
        Some(note) if is_closed_by(note, closer) => tell_here(fault, opened, help),
        Some(note) => tell_elsewhere(fault, note, help),
        None => tell_here(fault, help, None),
    }
}

/// The error is the parser's, and notes follow.
fn tell_here(fault: Marker, first: Option<Note>, second: Option<Note>) -> FaultTold
    ensures { result ≡ spec.told_here fault first second }
{
    FaultTold {
        error: Finding::at(fault, Problem::Fault),
        notes: Notes {
            first: first.map(Finding::of_note),
            second: second.map(Finding::of_note),
        },
    }
}

/// The error is this note, and the parser's fault is a note on it.
fn tell_elsewhere(fault: Marker, note: Note, other: Option<Note>) -> FaultTold
    ensures { result ≡ spec.told_elsewhere fault note other }
{
    FaultTold {
        error: Finding::at(note.place, Problem::Mistake(note.remark)),
        notes: Notes {
            first: Some(Finding::at(fault, Problem::Stop)),
            second: other.map(Finding::of_note),
        },
    }
}
