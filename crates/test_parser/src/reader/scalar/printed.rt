//! What no clause says: the printed texts, against the lists that they were taken from.

use crate::helpers::{Place, expect, is_text, marker};
use saphyr_scalar::{FaultText, Marker, Refusal, ScalarStyle, ScanError, Span, error_of_refusal};
use std::alloc::Global;
use std::process::Abort;

fn expect_texts(rt: &impl Abort, alloc: Global, faults: &[(FaultText, &str)]) {
    for (fault, text) in faults {
        expect(rt, is_text(format!(in alloc; "{fault}"), text), text);
    }
}

// The faults of which no stored list of events has one.
#[test]
fn prints_the_faults_of_no_case(rt: HostRuntime) {
    const FAULTS: &[(FaultText, &str)] = &[
        (
            FaultText::AnchorIndentation,
            "invalid indentation for anchor",
        ),
        (FaultText::PlainEnd, "unexpected end of plain scalar"),
        (
            FaultText::TextTooLong,
            "text longer than 4294967295 characters",
        ),
    ];
    expect_texts(&rt, rt.alloc(), FAULTS);
}

fn is_copied(error: &ScanError) -> bool {
    match error.try_clone() {
        Ok(copy) => copy == *error,
        Err(_) => false,
    }
}

// Whether the error has this text and this place, and an equal copy.
fn is_error(error: &ScanError, info: &str, mark: Marker) -> bool {
    error.info() == info && *error.marker() == mark && is_copied(error)
}

// Whether the error is equal to the one that a `String` of its text gives there.
fn is_made_of_owned(alloc: Global, error: &ScanError, mark: Marker) -> bool {
    match String::from_str(alloc, error.info()) {
        Ok(info) => ScanError::new(mark, info) == *error,
        Err(_) => false,
    }
}

// Whether the error of the text `x` at this place is this, and is printed so.
fn is_x(alloc: Global, error: &ScanError, mark: Marker, text: &str) -> bool {
    is_error(error, "x", mark)
        && is_made_of_owned(alloc, error, mark)
        && is_text(format!(in alloc; "{error}"), text)
}

fn prints(alloc: Global, mark: Marker, text: &str) -> bool {
    match ScanError::new_str(alloc, mark, "x") {
        Ok(error) => is_x(alloc, &error, mark, text),
        Err(_) => false,
    }
}

#[test]
fn makes_and_prints_an_error(rt: HostRuntime) {
    const ROWS: &[(Place, &str)] = &[
        ((3, 1, 3), "x at byte 3 line 1 column 4"),
        (
            (0, 1, usize::MAX),
            "x at byte 0 line 1 column 18446744073709551616",
        ),
    ];
    for &(place, text) in ROWS {
        expect(&rt, prints(rt.alloc(), marker(place), text), text);
    }
}

// Whether the error of a misplaced bracket there is this.
fn is_misplaced(alloc: Global, mark: Marker, info: &str) -> bool {
    let refusal = Refusal {
        text: FaultText::MisplacedBracket,
        mark,
        may_change: false,
    };
    match error_of_refusal(alloc, refusal) {
        Ok(error) => is_error(&error, info, mark),
        Err(_) => false,
    }
}

#[test]
fn makes_an_error_of_a_refusal(rt: HostRuntime) {
    let info = "misplaced bracket";
    let mark = Marker::new(7, 2, 4);
    expect(&rt, is_misplaced(rt.alloc(), mark, info), info);
}

fn are_measured() -> bool {
    let end = Marker::new(9, 2, 1);
    let span = Span::new(Marker::new(3, 1, 3), end);
    span.len() == 6 && !span.is_empty() && Span::empty(end).is_empty()
}

fn has_parts(mark: Marker, (index, line, col): Place) -> bool {
    mark.index() == index && mark.line() == line && mark.col() == col
}

fn are_defaults(mark: Marker, span: Span) -> bool {
    mark == Marker::new(0, 0, 0) && span == Span::empty(mark)
}

#[test]
fn measures_spans(rt: HostRuntime) {
    let holds = are_measured()
        && has_parts(Marker::new(9, 2, 1), (9, 2, 1))
        && are_defaults(Marker::default(), Span::default());
    assert!(rt; holds);
}

fn is_printed(alloc: Global, mark: Marker, text: &str) -> bool {
    is_text(format!(in alloc; "{mark}"), text)
}

// A place as it is printed, and that it comes after the one before.
#[test]
fn prints_and_orders_places(rt: HostRuntime) {
    const ROWS: &[(Place, &str)] = &[
        ((0, 0, 0), "0:1"),
        ((0, 1, 0), "1:1"),
        ((3, 1, 3), "1:4"),
        ((4, 2, 0), "2:1"),
        ((4, 2, usize::MAX), "2:18446744073709551616"),
    ];
    let mut before = Marker::default();
    for &(place, text) in ROWS {
        let mark = marker(place);
        let is_behind = before <= mark && mark >= before;
        expect(&rt, is_behind && is_printed(rt.alloc(), mark, text), text);
        before = mark;
    }
}

fn are_ordered() -> bool {
    ScalarStyle::Plain < ScalarStyle::SingleQuoted
        && ScalarStyle::SingleQuoted < ScalarStyle::DoubleQuoted
        && ScalarStyle::DoubleQuoted < ScalarStyle::Literal
        && ScalarStyle::Literal < ScalarStyle::Folded
}

#[test]
fn orders_the_styles(rt: HostRuntime) {
    assert!(rt; are_ordered());
}
