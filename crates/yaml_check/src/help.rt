//! A sentence of help on a fault, at the place where people mend it.
ghost use Rattle.std.specs.Prelude.{◌≤◌, ◌<◌, length, string_bytes, IfSome, IsTrue};
ghost use Rattle.yaml_check.specs.Helps as spec;
ghost use Rattle.yaml_check.specs.OpenSeen.{open_of};

use crate::allowed::{
    allowed_tab, colon_behind_tag, is_allowed_line, is_colon_below, is_dash_in_text,
};
use crate::brackets::{closer, opened_note};
use crate::columns::{key_without_dash, stray_line};
use crate::escapes::bad_escape;
use crate::lines::{
    behind_dashes, block_scalar_above, colon_above, column, conflict_marker, content, has_colon,
    has_key, line_before, line_behind, line_end, text_line,
};
use crate::note::{Note, Remark};
use crate::open::{Open, Shape};
use crate::places::{line_start, place_of_index};
use crate::quotes::{apostrophe, json_quote, quote_before, typographers_quote};
use crate::remarks::remarks_on;
use crate::signs::{
    colon_without_blank, is_dash_without_blank, lacks_comma, other_comment, sign_between, tab_near,
    template_before, wide_colon,
};
use saphyr_parser::{Marker, ScanError};

/// Help on a fault, if there is any.
pub(crate) fn help_on(text: &[char], collections: &Open, error: &ScanError) -> Option<Note>
    ensures { IfSome result (spec.Helps text.now (open_of collections.now) error.now.mark
        (string_bytes error.now.info)) }
{
    let end = error.mark.index.min(text.len());
    if let Some(at) = conflict_marker(text, end) {
        return Some(Note {
            place: place_of_index(text, at),
            remark: Remark::ConflictMarker,
        });
    }
    let remarks = remarks_on(error.info.as_str());
    for k in 0..remarks.len() {
        let remark = remarks[k];
        if let Some(place) = place_of_help(remark, text, collections, error.mark) {
            return Some(Note { place, remark });
        }
    }
    None
}

/// Where a remark on a fault is told, if there is what it speaks of.
fn place_of_help(remark: Remark, text: &[char], collections: &Open, fault: Marker) -> Option<Marker>
    ensures { IfSome result (spec.IsPlaceOfHelp remark text.now (open_of collections.now) fault) }
{
    let end = fault.index.min(text.len());
    if remark.is_of_collection() {
        return place_of_collection(remark, text, collections);
    }
    if remark.is_at_fault() {
        let is_so = is_so_at_fault(remark, text, collections, fault);
        return if is_so { Some(fault) } else { None };
    }
    let at = index_of_help(remark, text, collections, end)?;
    Some(place_of_index(text, at))
}

/// Where the innermost collection begins, if a remark tells of it.
fn place_of_collection(remark: Remark, text: &[char], collections: &Open) -> Option<Marker>
    ensures { IfSome result (spec.IsPlaceOfCollection remark text.now (open_of collections.now)) }
{
    let place = collections.innermost()?.span.start;
    match remark {
        Remark::MappingColumn | Remark::SequenceColumn => Some(place),
        Remark::KeyBeginsWithDash if is_dash_without_blank(text, place.index.min(text.len())) =>
            Some(place),
        _ => None,
    }
}

/// Whether a remark is right at a fault.
fn is_so_at_fault(remark: Remark, text: &[char], collections: &Open, fault: Marker) -> bool
    ensures { IsTrue result → spec.IsAtFault remark text.now (open_of collections.now) fault }
{
    let end = fault.index.min(text.len());
    match remark {
        Remark::ColonInText => has_colon(text, end),
        Remark::Mixed => match collections.innermost() {
            Some(start) => start.span.start.col == fault.col && is_mixed(start.shape, text, end),
            None => false,
        },
        Remark::BracketColumn => closer(&text[end..]).is_some(),
        Remark::MissingComma => {
            opened_note(text, collections, fault).is_some() && lacks_comma(text, end)
        }
        Remark::CommaBehind => {
            opened_note(text, collections, fault).is_none() && end < text.len() && text[end] == ','
        }
        Remark::AllowedColon => is_colon_below(text, end),
        Remark::AllowedDash => is_dash_in_text(text, end),
        Remark::AllowedLine => is_allowed_line(text, end),
        Remark::AllowedQuestionMark => {
            opened_note(text, collections, fault).is_none()
                && end == text.len()
                && end > 0
                && text[end - 1] == '?'
        }
        _ => true,
    }
}

/// Whether an entry is among keys, or something else among entries.
fn is_mixed(shape: Shape, text: &[char], end: usize) -> bool
    requires { end ≤ length text.now }
{
    match shape {
        Shape::Sequence => true,
        Shape::Mapping => end < text.len() && text[end] == '-',
    }
}

/// The index of what a remark on a fault tells of.
fn index_of_help(remark: Remark, text: &[char], collections: &Open, end: usize) -> Option<usize>
    requires { end ≤ length text.now }
    ensures within { IfSome result (λ at. at ≤ length text.now) }
    ensures is { IfSome result (spec.IsIndexOfHelp remark text.now end) }
{
    match remark {
        Remark::Tab => tab_near(text, end),
        Remark::AllowedTab => allowed_tab(text, end),
        Remark::AllowedFirstTab => match collections.innermost() {
            Some(_) => None,
            None => tab_near(text, end),
        },
        Remark::AllowedColonBehindTag => colon_behind_tag(text, end),
        Remark::Escape => bad_escape(text, end),
        Remark::QuotesEnd => quote_before(text, end),
        Remark::Apostrophe => apostrophe(text, end),
        Remark::JsonText => json_quote(text, end),
        Remark::Template => template_before(text, end),
        Remark::TypographersQuote => typographers_quote(text, end),
        Remark::OtherComment => other_comment(text, end),
        Remark::OtherColumn => stray_line(text, end),
        Remark::NoDash => key_without_dash(text, end),
        Remark::TooFarRight => key_too_far(text, end),
        _ => index_on_line(remark, text, end),
    }
}

/// The same on the line of a text before the fault, and for some remarks else on the fault's.
fn index_on_line(remark: Remark, text: &[char], end: usize) -> Option<usize>
    requires { end ≤ length text.now }
    ensures within { IfSome result (λ at. at ≤ length text.now) }
    ensures is { IfSome result (spec.IsIndexOfHelp remark text.now end) }
{
    match remark {
        Remark::NoBreakSpace | Remark::IdeographicSpace | Remark::OtherSpace | Remark::ZeroWidth =>
            sign_near(remark, text, end),
        Remark::NoBlankBehindDash => dash_near(text, end),
        Remark::BlockScalarColumn => block_line_near(text, end),
        _ => index_before(remark, text, end),
    }
}

/// The same on the line of a text before the fault.
fn index_before(remark: Remark, text: &[char], end: usize) -> Option<usize>
    requires { end ≤ length text.now }
    ensures within { IfSome result (λ at. at ≤ length text.now) }
    ensures is { IfSome result (spec.IsIndexOfHelp remark text.now end) }
{
    let at = text_line(text, end)?;
    match remark {
        Remark::WideColon => wide_colon(text, at, end),
        Remark::NoBlankBehindColon => colon_without_blank(text, behind_dashes(text, at)),
        Remark::ValueColumn if colon_above(text, at).is_some() => Some(at),
        Remark::NoColon => Some(behind_dashes(text, at)),
        _ => None,
    }
}

/// A character that a remark tells of, on one of these lines.
fn sign_near(remark: Remark, text: &[char], end: usize) -> Option<usize>
    requires { end ≤ length text.now }
    ensures { IfSome result (spec.IsSignAt remark text.now) }
{
    if let Some(line) = text_line(text, end) {
        let found = sign_between(remark, text, line_start(text, line), line_end(text, line));
        if found.is_some() {
            return found;
        }
    }
    sign_between(remark, text, line_start(text, end), line_end(text, end))
}

/// A dash without a blank that begins one of these lines.
fn dash_near(text: &[char], end: usize) -> Option<usize>
    requires { end ≤ length text.now }
    ensures near { IfSome result (spec.IsNearLine text.now end) }
    ensures tight { IfSome result (spec.IsTight 45 text.now) }
{
    if let Some(line) = text_line(text, end) {
        if is_dash_without_blank(text, line) {
            return Some(line);
        }
    }
    let line = content(text, line_start(text, end), line_end(text, end))?;
    if is_dash_without_blank(text, line) {
        Some(line)
    } else {
        None
    }
}

/// One of these lines that is left of a block scalar above.
fn block_line_near(text: &[char], end: usize) -> Option<usize>
    requires { end ≤ length text.now }
    ensures within { IfSome result (λ at. at ≤ length text.now) }
    ensures near { IfSome result (spec.IsNearLine text.now end) }
    ensures behind { IfSome result (spec.IsBehindBlockScalar text.now) }
{
    if let Some(line) = text_line(text, end) {
        if is_block_line(text, line) {
            return Some(line);
        }
    }
    let line = content(text, line_start(text, end), line_end(text, end))?;
    if is_block_line(text, line) {
        Some(line)
    } else {
        None
    }
}

/// Whether a line belongs to the block scalar above and is left of it: it is no key, or the text goes on behind it.
fn is_block_line(text: &[char], line: usize) -> bool
    requires { line < length text.now }
    ensures { IsTrue result → spec.IsBehindBlockScalar text.now line }
{
    block_scalar_above(text, line).is_some() && (!has_key(text, line) || is_inside(text, line))
}

/// Whether the line behind one is not left of the line before it.
fn is_inside(text: &[char], line: usize) -> bool
    requires { line < length text.now }
{
    match (line_before(text, line), line_behind(text, line)) {
        (Some(before), Some(behind)) => column(text, behind) >= column(text, before),
        _ => false,
    }
}

/// Where the line of a fault begins, if the line before is a key with its value.
fn key_too_far(text: &[char], end: usize) -> Option<usize>
    requires { end ≤ length text.now }
    ensures within { IfSome result (λ at. at ≤ length text.now) }
    ensures begins { IfSome result (spec.BeginsLineOf text.now end) }
{
    let before = line_before(text, end)?;
    if has_key(text, before) {
        content(text, line_start(text, end), line_end(text, end))
    } else {
        None
    }
}
