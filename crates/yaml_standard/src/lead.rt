//! What comes before nodes and entries in block style: gaps, indentation, and what leads to a collection (YAML 1.2.2,
//! 8.2). A column is that of a block collection.
ghost use Rattle.std.specs.Prelude.{◌≡◌, ◌&&◌, IfSome};
ghost use Rattle.std.specs.Str.{chars};
ghost use Rattle.yaml_laws.specs.Grammar.BlockNodes as grammar;
ghost use Rattle.yaml_standard.specs.Goals.{least_at, position};
ghost use Rattle.yaml_standard.specs.Leads as spec;
ghost use Rattle.yaml_standard.specs.NodeProperties.{IsSomeProperties};
ghost use Rattle.yaml_standard.specs.Takes.{IfTakes, TakesOff};

use crate::block_lines::split_spaces;
use crate::front::{split, strip};
use crate::goal::{Kind, Place};
use crate::spaces::{behind_filler, behind_gap, behind_line_end, behind_spaces};
use crate::tag::{behind_anchor, behind_properties, behind_tag};
use saphyr_input::char_traits::is_alpha;

/// The first column to the right of the enclosing block collection.
pub(crate) fn indent_at(place: Place) -> Option<usize>
    ensures { IfSome result (λ indent. indent ≡ grammar.indent_at (position place)) }
{
    match place {
        Place::BehindDash(column) | Place::BehindMark(column) | Place::BehindKey(column) => {
            column.checked_add(1)
        }
        Place::BehindMarker | Place::AtStart => Some(0),
    }
}

/// The first column at which a block collection may be.
pub(crate) fn least_column(place: Place, kind: Kind) -> Option<usize>
    ensures { IfSome result (λ least. least ≡ least_at kind (position place)) }
{
    match (kind, place) {
        (Kind::Sequence, Place::BehindMark(column) | Place::BehindKey(column)) => Some(column),
        _ => indent_at(place),
    }
}

/// Whether it is the start of a bare document.
pub(crate) fn is_start(place: Place) -> bool
    ensures { result ≡ grammar.is_start (position place) }
{
    matches!(place, Place::AtStart)
}

// Whether it is after a colon of a block mapping.
fn is_behind_colon(place: Place) -> bool
    ensures { result ≡ grammar.is_behind_colon (position place) }
{
    matches!(place, Place::BehindMark(_) | Place::BehindKey(_))
}

/// What follows the gap before a node.
pub(crate) fn behind_gap_at(text: &str, place: Place) -> Option<&str>
    ensures { IfTakes (grammar.IsGapAt (position place)) (chars text.now) result }
{
    let indent = indent_at(place)?;
    match behind_gap(text, indent) {
        Some(rest) => Some(rest),
        None if is_start(place) => Some(text),
        None => None,
    }
}

// Whether tabs, or none, and then a letter, a digit, `-` or `_` come first.
fn is_word_behind_tabs(text: &str) -> bool
    ensures { result ≡ spec.is_word_behind_tabs (chars text.now) }
{
    let mut rest = text;
    while let Some((c, behind)) = split(rest) {
        if c != '\t' {
            return is_alpha(c);
        }
        rest = behind;
    }
    false
}

// Whether tabs alone are between the colon of a block mapping and a letter, a digit, `-` or `_`.
fn is_lone_tab(text: &str, place: Place) -> bool
    ensures { result ≡ (grammar.is_behind_colon (position place)
        && spec.is_word_behind_tabs (chars text.now)) }
{
    is_behind_colon(place) && is_word_behind_tabs(text)
}

/// What follows the gap before a node in flow style.
pub(crate) fn behind_flow_gap(text: &str, place: Place) -> Option<&str>
    ensures { IfTakes (spec.IsFlowGap (position place) (chars text.now)) (chars text.now) result }
{
    if is_lone_tab(text, place) {
        return None;
    }
    behind_gap_at(text, place)
}

/// What follows filler and the indentation of a further entry.
pub(crate) fn behind_entry_indentation(text: &str, column: usize) -> Option<&str>
    ensures { IfTakes (grammar.IsEntryIndentation column) (chars text.now) result }
{
    let line = behind_filler(text);
    behind_spaces(line, column)
}

/// What follows the colon of a value, with the filler and the indentation before it.
pub(crate) fn behind_value_mark(text: &str, column: usize) -> Option<&str>
    ensures { IfTakes (grammar.IsValueMark column) (chars text.now) result }
{
    let line = behind_filler(text);
    let mark = behind_spaces(line, column)?;
    strip(mark, ':')
}

// What follows an anchor or a tag, or both.
fn behind_some_properties(text: &str, indent: usize, both: bool) -> Option<&str>
    ensures { IfTakes (IsSomeProperties indent) (chars text.now) result }
{
    if both {
        return behind_properties(text, indent);
    }
    match behind_anchor(text) {
        None => behind_tag(text),
        Some(rest) => Some(rest),
    }
}

// What follows properties and the end of their line.
fn behind_properties_line(text: &str, indent: usize, both: bool) -> Option<&str>
    ensures { IfTakes (spec.IsPropertiesLine indent) (chars text.now) result }
{
    let end = behind_some_properties(text, indent, both)?;
    behind_line_end(end)
}

// What follows the properties of a block collection, if it has some, and the end of their line. A second property on
// the next line may be that of the first key.
fn behind_front_line(text: &str, place: Place, has_properties: bool) -> Option<&str>
    ensures { IfTakes (spec.IsFrontLine (position place)) (chars text.now) result }
{
    if !has_properties {
        return behind_line_end(text);
    }
    let indent = indent_at(place)?;
    let properties = behind_gap_at(text, place)?;
    match behind_properties_line(properties, indent, true) {
        None => behind_properties_line(properties, indent, false),
        Some(rest) => Some(rest),
    }
}

// What follows the lead of a block collection on the next lines, and its column.
fn behind_next_line_lead(
    text: &str,
    place: Place,
    least: usize,
    has_properties: bool,
) -> Option<(&str, usize)>
    ensures { IfSome result (λ lead. TakesOff (spec.IsSomeLead (position place) least lead.1)
        (chars text.now) (chars lead.0.now)) }
{
    let filler = behind_front_line(text, place, has_properties)?;
    let line = behind_filler(filler);
    let (column, rest) = split_spaces(line, usize::MAX);
    if column < least {
        return None;
    }
    Some((rest, column))
}

// What follows the spaces between an indicator and a block collection on its line, and the collection's column.
fn behind_compact(text: &str, indicator: usize) -> Option<(&str, usize)>
    ensures { IfSome result (λ lead. TakesOff (spec.IsCompact indicator lead.1) (chars text.now)
        (chars lead.0.now)) }
{
    let (count, rest) = split_spaces(text, usize::MAX);
    if count == 0 {
        return None;
    }
    let column = indicator.checked_add(1)?.checked_add(count)?;
    Some((rest, column))
}

// What follows the spaces before a block collection on this line, and its column.
fn behind_compact_lead(text: &str, place: Place) -> Option<(&str, usize)>
    ensures { IfSome result (λ lead. TakesOff (grammar.IsCompactLead (position place) lead.1)
        (chars text.now) (chars lead.0.now)) }
{
    match place {
        Place::BehindDash(indicator) => behind_compact(text, indicator),
        Place::BehindMark(indicator) => behind_compact(text, indicator),
        Place::AtStart => {
            let (count, rest) = split_spaces(text, usize::MAX);
            Some((rest, count))
        }
        Place::BehindKey(_) | Place::BehindMarker => None,
    }
}

/// What follows the lead of a block collection, and its column, which is `least` or more on the next lines.
pub(crate) fn behind_lead(
    text: &str,
    place: Place,
    least: usize,
    has_properties: bool,
) -> Option<(&str, usize)>
    ensures { IfSome result (λ lead. TakesOff (spec.IsSomeLead (position place) least lead.1)
        (chars text.now) (chars lead.0.now)) }
{
    if let Some(lead) = behind_next_line_lead(text, place, least, has_properties) {
        return Some(lead);
    }
    if has_properties {
        return None;
    }
    behind_compact_lead(text, place)
}
