//! Spans on one line, in a small form, since the queue may hold all tokens of a text.

ghost use Rattle.std.specs.Prelude.{◌≡◌, IfSome};
ghost use Rattle.saphyr_scanner.specs.Views.Places.{near_marker, near_span};

use saphyr_scalar::{Marker, Span};

// What fits into 32 bits.
const MOST: usize = u32::MAX as usize;

// What fits into a byte.
const MOST_LENGTH: usize = u8::MAX as usize;

/// A place whose numbers fit into 32 bits.
#[derive(Clone, Copy)]
pub(super) struct NearMarker {
    index: u32,
    line: u32,
    col: u32,
}

impl NearMarker {
    /// The start of a text.
    pub(super) fn zero() -> NearMarker {
        NearMarker {
            index: 0,
            line: 0,
            col: 0,
        }
    }

    /// Where a span begins and the number of its characters, if they are on one line and their number fits into a byte.
    #[inline(always)]
    pub(super) fn of_span(start: &Marker, end: &Marker) -> Option<(NearMarker, u8)>
        ensures { IfSome result (λ found. near_span found.0 found.1
            ≡ record { start = start.now; end = end.now }) }
    {
        // For speed a difference below 0 is not told apart: it is a large number, as the start is near.
        let count = end.index.wrapping_sub(start.index);
        let width = end.col.wrapping_sub(start.col);
        if count > MOST_LENGTH || width != count || end.line != start.line {
            return None;
        }
        let Marker { index, line, col } = *start;
        if index > MOST || line > MOST || col > MOST {
            return None;
        }
        let near = NearMarker {
            index: index as u32,
            line: line as u32,
            col: col as u32,
        };
        Some((near, count as u8))
    }

    #[inline(always)]
    pub(super) fn marker(self) -> Marker
        ensures { result ≡ near_marker self }
    {
        Marker {
            index: self.index as usize,
            line: self.line as usize,
            col: self.col as usize,
        }
    }

    /// The span that begins here and has this many characters on this line.
    #[inline(always)]
    pub(super) fn span(self, length: u8) -> Span
        ensures { result ≡ near_span self length }
    {
        let start = self.marker();
        let length = usize::from(length);
        Span {
            start,
            end: Marker {
                index: start.index + length,
                line: start.line,
                col: start.col + length,
            },
        }
    }
}
