//! The part of a line that is shown around a place: at most 200 columns, in which each character is visible.
ghost use Rattle.std.specs.Prelude.{◌≡◌, ◌+◌, ◌-◌, ◌<◌, ◌≤◌, ◌++◌, ◌⊎◌, false, length, slice_index, drop, replicate, IfOk, OnOk, IsTrue, string_bytes};
ghost use Rattle.std.specs.Str.{chars};
ghost use Rattle.std.specs.Char.Escape.{escape_default};
ghost use Rattle.yaml_check.specs.Shown as shown;
ghost use Rattle.yaml_check.specs.Views.{CountFits, FrontFits};

use saphyr_parser::Marker;
use std::alloc::{AllocError, Global};
use ucd_derived::is_default_ignorable_code_point;
use unicode_width::UnicodeWidthChar;

/// The most columns that are shown, including those of a cut.
const COLUMNS: usize = 200;
/// The most of them that are before the place.
const FRONT: usize = 120;
/// The most characters that are shown on either side of the place: some take no column.
const CHARACTERS: usize = 200;
/// What replaces the part that is cut off, on either side.
const CUT: &str = "...";

/// The characters of a line around a place.
#[derive(Clone, Copy)]
pub(crate) struct View<'a> {
    front: &'a [char],
    back: &'a [char],
    cut_before: bool,
    cut_behind: bool,
    /// How many columns are before the place.
    caret: usize,
}

/// The characters of a text.
pub(crate) fn characters(alloc: Global, text: &str) -> Result<Vec<char>, AllocError>
    ensures { IfOk result (λ all. all.items ≡ chars text.now) }
{
    text.chars().collect(alloc)
}

/// Whether a character is shown by an escape: a control character, a separator of lines, or an invisible one, as those
/// are that change the direction of text.
#[tactic(auto, unfolding(crate::specs::Shown::is_hidden))]
fn is_hidden(c: char) -> bool
    ensures { result ≡ shown.is_hidden c }
{
    c.is_control() || ('\u{2028}' <= c && c <= '\u{2029}') || is_default_ignorable_code_point(c)
}

/// How many columns the escape of a character takes.
fn escape_columns(c: char) -> usize
    ensures { result ≡ length (escape_default c) }
{
    let mut count = 0;
    for _part in c.escape_default() {
        count += 1;
    }
    count
}

/// How many columns a character takes as it is shown.
#[tactic(auto, unfolding(crate::specs::Shown::columns_of))]
fn columns_of(c: char) -> usize
    ensures { result ≡ shown.columns_of c }
{
    if is_hidden(c) {
        escape_columns(c)
    } else {
        c.width().unwrap_or(0)
    }
}

/// Whether a character breaks a line.
pub(crate) fn is_end_of_line(c: char) -> bool
    ensures { result ≡ shown.is_end_of_line c }
{
    c == '\n' || c == '\r'
}

/// Whether one more character, the one at this place, fits beside so many, into so many columns.
fn fits(characters: &[char], at: usize, count: usize, left: usize) -> bool
    requires { at < length characters.now }
    ensures yes { IsTrue result → (count < 200)
        × (shown.columns_of (slice_index characters.now at) ≤ left) }
    ensures no { result ≡ false
        → (200 ≤ count) ⊎ (left < shown.columns_of (slice_index characters.now at)) }
{
    count < CHARACTERS && columns_of(characters[at]) <= left
}

/// The last of some characters that fit into this many columns: where they begin, and how many columns they leave.
fn last_that_fit(characters: &[char], most: usize) -> (usize, usize)
    ensures within { result.0 ≤ length characters.now }
    ensures left { result.1 + shown.shown_columns (drop result.0 characters.now) ≡ most }
    ensures few { length characters.now ≤ 200 + result.0 }
    ensures full { 0 < result.0 → shown.IsFull most (drop result.0 characters.now)
        (slice_index characters.now (result.0 - 1)) }
{
    let mut start = characters.len();
    let mut left = most;
    while start > 0 && fits(characters, start - 1, characters.len() - start, left) {
        start -= 1;
        left -= columns_of(characters[start]);
    }
    (start, left)
}

/// Where the shown characters before a place begin, and how many columns they take.
fn fit_front(line: &[char]) -> (usize, usize)
    ensures { FrontFits line.now result.0 result.1 }
{
    let most = FRONT - CUT.len();
    let (start, left) = last_that_fit(line, most);
    if start == 0 {
        return (start, most - left);
    }
    (start, most - left + CUT.len())
}

/// Whether a line goes on.
fn line_goes_on(rest: &[char]) -> bool
    ensures { result ≡ shown.line_goes_on rest.now }
{
    match rest.first() {
        Some(c) => !is_end_of_line(*c),
        None => false,
    }
}

/// Whether one more character of a line is shown behind this many, in this many columns.
fn one_more_fits(characters: &[char], count: usize, left: usize) -> bool
    ensures yes { IsTrue result → (count < length characters.now) × (count < 200)
        × (shown.is_end_of_line (slice_index characters.now count) ≡ false)
        × (shown.columns_of (slice_index characters.now count) ≤ left) }
    ensures no { result ≡ false → count < length characters.now
        → shown.is_end_of_line (slice_index characters.now count) ≡ false
        → (200 ≤ count) ⊎ (left < shown.columns_of (slice_index characters.now count)) }
{
    if count >= characters.len() || is_end_of_line(characters[count]) {
        return false;
    }
    fits(characters, count, count, left)
}

/// How many characters of a line, up to its break, fit into this many columns.
fn count_that_fit(characters: &[char], most: usize) -> usize
    ensures { CountFits characters.now most result }
{
    let mut count = 0;
    let mut left = most;
    while one_more_fits(characters, count, left) {
        left -= columns_of(characters[count]);
        count += 1;
    }
    count
}

/// Appends the escape of a character.
#[tactic(auto, unfolding(crate::specs::Shown::escaped))]
fn push_escape(out: &mut String, c: char) -> Result<(), AllocError>
    ensures { OnOk result (string_bytes out.new ≡ string_bytes out.old ++ shown.escaped c) }
{
    for part in c.escape_default() {
        out.push(part)?;
    }
    Ok(())
}

/// Appends characters as they are shown.
pub(crate) fn push_visible(out: &mut String, characters: &[char]) -> Result<(), AllocError>
    ensures { OnOk result (string_bytes out.new
        ≡ string_bytes out.old ++ shown.visible characters.now) }
{
    for c in characters {
        if is_hidden(*c) {
            push_escape(out, *c)?;
        } else {
            out.push(*c)?;
        }
    }
    Ok(())
}

/// Appends this many spaces.
fn push_spaces(out: &mut String, count: usize) -> Result<(), AllocError>
    ensures { OnOk result (string_bytes out.new ≡ string_bytes out.old ++ replicate count 32) }
{
    for _space in 0..count {
        out.push(' ')?;
    }
    Ok(())
}

impl<'a> View<'a> {
    ghost use Rattle.yaml_check.specs.Views.{IsView, excerpt};

    /// What is shown around a place of a text.
    pub(crate) fn new(text: &'a [char], place: Marker) -> View<'a>
        ensures { IsView text.now (shown.place_index text.now place.index) place.col result }
    {
        let at = place.index.min(text.len());
        let line = &text[at - place.col.min(at)..at];
        let (start, caret) = fit_front(line);
        let rest = &text[at..];
        let count = count_that_fit(rest, COLUMNS - CUT.len() - caret);
        View {
            front: &line[start..],
            back: &rest[..count],
            cut_before: start > 0,
            cut_behind: line_goes_on(&rest[count..]),
            caret,
        }
    }

    /// Appends the line, and the caret under the place.
    pub(crate) fn push_to(&self, out: &mut String) -> Result<(), AllocError>
        ensures { OnOk result (string_bytes out.new ≡ string_bytes out.old ++ excerpt self.now) }
    {
        push_cut(out, self.cut_before)?;
        push_visible(out, self.front)?;
        push_visible(out, self.back)?;
        push_cut(out, self.cut_behind)?;
        out.push('\n')?;
        push_spaces(out, self.caret)?;
        out.push_str("^\n")
    }
}

/// Appends what replaces a part that is cut off.
fn push_cut(out: &mut String, is_cut: bool) -> Result<(), AllocError>
    ensures { OnOk result (string_bytes out.new ≡ string_bytes out.old ++ shown.cut is_cut) }
{
    if is_cut {
        out.push_str(CUT)?;
    }
    Ok(())
}
