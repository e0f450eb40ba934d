//! Places of a text, which tokens, events and faults have.

ghost use Rattle.std.specs.Prelude.{◌≡◌, ◌+◌, ◌-◌, ◌<◌, ◌≤◌, ◌^◌, ◌==◌};
ghost use Rattle.saphyr_scalar.specs.Views.Cursor as spec;

use std::fmt;

/// A place in a text.
///
/// The index counts all characters before the place, and the column those of its line, both from
/// 0. Lines count from 1. A byte order mark at the start of a line counts only for the index.
///
/// Places of one text are ordered by their indexes. A place prints as `line:column`, both counted
/// from 1 as in editors.
#[derive(Clone, Copy, Debug, PartialEq, Eq, PartialOrd, Ord, Default)]
pub struct Marker {
    pub index: usize,
    pub line: usize,
    pub col: usize,
}

impl Marker {
    /// A place with this index, line and column.
    #[inline]
    pub fn new(index: usize, line: usize, col: usize) -> Marker
        ensures index { result.index ≡ index }
        ensures line { result.line ≡ line }
        ensures col { result.col ≡ col }
    {
        Marker { index, line, col }
    }

    /// How many characters of the text are before the place.
    #[inline]
    pub fn index(&self) -> usize
        ensures { result ≡ self.now.index }
    {
        self.index
    }

    /// The line, counted from 1.
    #[inline]
    pub fn line(&self) -> usize
        ensures { result ≡ self.now.line }
    {
        self.line
    }

    /// The column, counted from 0.
    #[inline]
    pub fn col(&self) -> usize
        ensures { result ≡ self.now.col }
    {
        self.col
    }

    // The place this many characters further on the line.
    #[inline]
    pub(crate) fn along(self, count: usize) -> Marker
        requires index { self.index + count < 2 ^ 64 }
        requires col { self.col ≤ self.index }
        ensures { result ≡ spec.along self count }
    {
        Marker {
            index: self.index + count,
            line: self.line,
            col: self.col + count,
        }
    }

    // The start of the next line, after a break of this many characters.
    #[inline]
    pub(crate) fn next_line(self, count: usize) -> Marker
        requires { self.index + count < 2 ^ 64 }
        ensures { result ≡ spec.next_line self count }
    {
        Marker {
            index: self.index + count,
            line: self.line.saturating_add(1),
            col: 0,
        }
    }
}

impl fmt::Display for Marker {
    ghost use Rattle.std.specs.Prelude.{Some};
    ghost use Rattle.saphyr_scalar.specs.Faults.{line_and_column};

    ghost output = { λ m. Some (line_and_column m) };

    fn fmt<W: fmt::Write>(&self, f: &mut fmt::Formatter<W>) -> fmt::Result {
        let column = self.col as u128 + 1;
        write!(f, "{}:{}", self.line, column)
    }
}

/// From one place of a text to another. An event's span may include a comment after a scalar: `docs/SPANS.md` says
/// what the span of each event covers.
#[derive(Clone, Copy, Debug, PartialEq, Eq, Default)]
pub struct Span {
    pub start: Marker,
    /// The place after the last character that is covered.
    pub end: Marker,
}

impl Span {
    /// The span between two places, which may be the same place.
    #[inline]
    pub fn new(start: Marker, end: Marker) -> Span
        ensures start { result.start ≡ start }
        ensures end { result.end ≡ end }
    {
        Span { start, end }
    }

    /// The span without characters at a place.
    #[inline]
    pub fn empty(mark: Marker) -> Span
        ensures start { result.start ≡ mark }
        ensures end { result.end ≡ mark }
    {
        Span {
            start: mark,
            end: mark,
        }
    }

    /// How many characters the span has.
    #[inline]
    pub fn len(&self) -> usize
        requires { self.now.start.index ≤ self.now.end.index }
        ensures { result ≡ self.now.end.index - self.now.start.index }
    {
        self.end.index - self.start.index
    }

    /// Whether the span has no characters.
    #[inline]
    pub fn is_empty(&self) -> bool
        requires { self.now.start.index ≤ self.now.end.index }
        ensures { result ≡ (self.now.start.index == self.now.end.index) }
    {
        self.len() == 0
    }
}
