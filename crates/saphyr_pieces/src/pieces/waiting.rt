//! What waits for more of the text: how much that is, and when the reader looks at it again.

ghost use Rattle.std.specs.Prelude.{◌≡◌, ◌≤◌, length};
ghost use Rattle.std.specs.Str.{encode_utf8_all};
ghost use Rattle.saphyr_pieces.specs.Pieces.{waiting};
ghost use Rattle.saphyr_pieces.specs.Views as spec;

use crate::pieces::PieceReader;
use crate::pieces::ending::Ending;
use saphyr_machine::Event;
use std::mem::replace;

/// How many bytes are little to read again. If more wait, they wait until as many came.
pub(super) const LITTLE: usize = 256;

/// If so many times as much came as waits, the reader tries again, whatever came: a fault may be in it.
const PATIENCE: usize = 8;

/// At least so many bytes are searched at a time for what ends them, since a search of few takes as long.
const PART: usize = 64;

/// If no more bytes than these came since the last look, they are searched first, and all that came of their line only
/// where they may decide an event.
const SHORT: usize = 8;

/// How many bytes of a text take as long to read as an open collection takes to copy.
const OPEN_WEIGHT: usize = 1;

/// How many bytes of a text take as long to read as a reader takes to copy, at least.
const COPY_WEIGHT: usize = 512;

/// Whether a reader has read so much since a copy that a new one pays: most of the copy's text, and not just a little.
pub(super) fn is_far(copied: usize, left: usize) -> bool {
    left < copied / 4 && copied - left >= COPY_WEIGHT
}

// Whether a part may decide an event with what came before it: it ends a line, closes a bracket, begins a document, or
// is long.
fn may_matter(part: &str) -> bool {
    part.len() > SHORT
        || part
            .bytes()
            .any(|b| matches!(b, b'\n' | b'\r' | b']' | b'}'))
        || part.starts_with("---")
}

// Whether the first of some lines has content left of a column, or CR ends one of them.
fn has_content(lines: &str, column: usize) -> bool {
    let mut indent: usize = 0;
    for b in lines.bytes() {
        if b != b' ' {
            let is_content = !matches!(b, b'#' | b'\n' | b'\r');
            return is_content && indent < column || has_lone_cr(lines);
        }
        indent = indent.saturating_add(1);
    }
    false
}

// Whether there is a CR in a text behind which something other than LF comes.
fn has_lone_cr(text: &str) -> bool {
    // Mostly there is no CR, and that is told by words of eight bytes.
    if !text.contains('\r') {
        return false;
    }
    let mut last = 0;
    for b in text.bytes() {
        if last == b'\r' && b != b'\n' {
            return true;
        }
        last = b;
    }
    false
}

// Whether what came may well decide an event: a line ends that has content left of a column, or a bracket closes, or a
// document begins.
fn may_decide(came: &str, column: usize) -> bool {
    // Mostly it is one line, in which no line feed has to be found.
    let (lines, left) = match came.strip_suffix('\n') {
        Some(lines) => (lines, ""),
        None => came.rsplit_once('\n').unwrap_or(("", came)),
    };
    if has_content(lines, column) {
        return true;
    }
    match lines.split_once('\n') {
        Some((_, others)) => others.lines().any(|line| has_content(line, column))
            || may_close(left),
        None => may_close(left),
    }
}

// Whether a part of a line may decide an event.
fn may_close(part: &str) -> bool {
    part.len() > 3 && part.starts_with("---")
        || part.bytes().any(|b| matches!(b, b'\r' | b']' | b'}'))
}

// The first byte of a node behind dashes and question marks, or a line feed, and how many of these there are.
fn first_of_node(text: &str) -> (u8, usize) {
    let mut marks: usize = 0;
    for b in text.bytes() {
        if matches!(b, b'-' | b'?') {
            marks = marks.saturating_add(1);
        } else if b != b' ' {
            return (b, marks);
        }
    }
    (b'\n', marks)
}

// Whether a text is a line or a part of one, and no colon in it may end a key.
fn is_line_without_key(text: &str) -> bool {
    let line = text.strip_suffix('\n').unwrap_or(text);
    let line = line.strip_suffix('\r').unwrap_or(line);
    let mut last = 0;
    for b in line.bytes() {
        if b <= b' ' && (last == b':' || matches!(b, b'\n' | b'\r')) {
            return false;
        }
        last = b;
    }
    last != b':' || line.len() == text.len()
}

// Whether the characters behind a quote are those of a scalar in one line, or of its start, and nothing comes behind it.
// Of escapes, which may be faults, it has the most frequent ones.
fn is_quoted_line(quote: u8, behind: &str) -> bool {
    let mut is_open = true;
    let mut last = 0;
    for b in behind.bytes() {
        let is_usual = if !is_open {
            is_open = quote == b'\'' && b == quote && last == quote;
            is_open || matches!(b, b' ' | b'\r' | b'\n')
        } else if quote == b'"' && last == b'\\' {
            matches!(b, b'n' | b't' | b'"')
        } else {
            is_open = b != quote;
            last != b'\n' && b != b'\r'
        };
        if !is_usual {
            return false;
        }
        last = b;
    }
    true
}

// Whether a text is a line whose last bracket ends a collection, which no colon follows.
fn is_closed_line(text: &str) -> bool {
    let Some(line) = text.strip_suffix('\n') else {
        return false;
    };
    let mut last = 0;
    for b in line.strip_suffix('\r').unwrap_or(line).bytes() {
        let is_key = b == b':' && matches!(last, b']' | b'}');
        if is_key || matches!(b, b'\n' | b'\r') {
            return false;
        }
        if !matches!(b, b' ' | b'\t') {
            last = b;
        }
    }
    matches!(last, b']' | b'}')
}

// Whether a text, in front of which a dash was read or not, is a line or a part of one, of a scalar that may go on, or a
// line of a collection that may be a key up to the next.
fn is_undecided_line(text: &str, behind_dash: bool) -> bool {
    let (first, marks) = first_of_node(text);
    let begins_otherwise = match first {
        // What is behind it is looked at before it is decided.
        b'"' | b'\'' => {
            let node = text.trim_start_matches(['-', '?', ' ']);
            let behind = node.strip_prefix(first as char).unwrap_or(node);
            return is_quoted_line(first, behind) && !begins_marker(text);
        }
        b'[' | b'{' => {
            return (behind_dash || marks > 0) && is_closed_line(text) && !begins_marker(text);
        }
        b']' | b'}' | b'%' | b'@' | b'`' | b',' | 0xEF => true,
        // A mark may begin a collection, of which an event comes, and in which the scalar has another column.
        b'|' | b'>' => marks > 0,
        b'&' | b'!' => text
            .bytes()
            .any(|b| matches!(b, b'"' | b'\'' | b'[' | b'{')),
        _ => false,
    };
    !begins_otherwise && is_line_without_key(text) && !begins_marker(text)
}

// Whether a text begins with `---` or `...`.
fn begins_marker(text: &str) -> bool {
    text.starts_with("---") || text.starts_with("...")
}

// Whether two parts of a text end with a line that has `---` or `...` alone, but for a CR.
fn is_marker_last(front: &str, lines: &str) -> bool {
    // Mostly the line has another last character.
    if !lines.is_empty() && !lines.ends_with(['-', '.', '\r']) {
        return false;
    }
    let mut bytes = lines.bytes().rev().chain(front.bytes().rev());
    let mut last = bytes.next();
    if last == Some(b'\r') {
        last = bytes.next();
    }
    matches!(last, Some(b'-' | b'.'))
        && bytes.next() == last
        && bytes.next() == last
        && matches!(bytes.next(), Some(b'\n' | b'\r'))
}

/// How many lines without a token a text begins with: empty ones, and those of blanks or a comment alone, if they end in
/// LF or CR LF. In a comment, the first byte of a byte order mark ends the count.
pub(super) fn idle_lines(text: &str) -> usize {
    let mut lines: usize = 0;
    let mut in_comment = false;
    let mut behind_return = false;
    for b in text.bytes() {
        match b {
            b'\n' => {
                lines = lines.saturating_add(1);
                in_comment = false;
                behind_return = false;
            }
            _ if behind_return => return lines,
            b'\r' => behind_return = true,
            b' ' | b'\t' => {}
            b'#' => in_comment = true,
            0 | 0xEF => return lines,
            _ if in_comment => {}
            _ => return lines,
        }
    }
    lines
}

/// Whether a token may come first that makes no event between two documents. A look at the text is cheaper than a copy.
pub(super) fn may_be_idle(text: &str) -> bool {
    let mut in_comment = false;
    for b in text.bytes() {
        match b {
            b'\n' => in_comment = false,
            _ if in_comment => {}
            b' ' | b'\t' | b'\r' => {}
            b'#' => in_comment = true,
            // `...`, a directive, or the first byte of a byte order mark.
            _ => return matches!(b, b'.' | b'%' | 0xEF),
        }
    }
    false
}

/// What there is to copy behind an event.
pub(super) fn weight_behind(event: &Event<'_>, weight: usize) -> usize {
    match event {
        Event::SequenceStart(..) | Event::MappingStart(..) => weight.saturating_add(OPEN_WEIGHT),
        Event::SequenceEnd | Event::MappingEnd => weight.saturating_sub(OPEN_WEIGHT),
        _ => weight,
    }
}

impl PieceReader {
    // Left of which column a line ends the block scalar that waits, if one does.
    fn column_of_end(&self) -> usize {
        let text = self.reader.input().as_str();
        match self.reader.node_column() {
            Some(column) if text.ends_with('\n') => match first_of_node(text) {
                // A dash that waits begins no list, of which an event would have come.
                (b'|' | b'>', 0 | 1) => column.max(1),
                _ => usize::MAX,
            },
            _ => usize::MAX,
        }
    }

    // Whether a node comes next in the reader's text, and that is little.
    fn is_before_little(&self, text: &str) -> bool {
        text.len() < LITTLE && text.len() <= self.look_past && self.reader.node_column().is_some()
    }

    /// Whether the reader's text behind an event has no other one yet, or may well have none.
    pub(super) fn tells_nothing(&self, event: &Event<'static>) -> bool {
        let text = self.reader.input().as_str();
        let behind_dash = matches!(event, Event::SequenceStart(..));
        self.is_before_little(text) && is_undecided_line(text, behind_dash)
    }

    /// Whether the reader's text is a line of a collection alone, which may be a key up to the next line.
    pub(super) fn may_be_key(&self) -> bool {
        let text = self.reader.input().as_str();
        if !text.starts_with(['\n', '\r']) || !self.is_before_little(text) {
            return false;
        }
        let line = text.trim_ascii_start();
        line.starts_with(['[', '{']) && is_closed_line(line)
    }

    // Whether what came may end what waits, or is many times as much. Each byte is looked at once.
    #[inline(never)]
    fn may_end(&mut self, waits: usize) -> bool
        requires sound { spec.IsSoundReader self.old }
        ensures same { spec.pieces_of self.new ≡ spec.pieces_of self.old }
        ensures sound { spec.IsSoundReader self.new }
    {
        let is_much = self.more.len() / PATIENCE >= waits;
        let ending = match (self.ending, self.reader.node_column()) {
            (Ending::Any, _) if is_much => return true,
            (Ending::Any, Some(column)) if self.seen == 0 => {
                Ending::of(self.reader.input().as_str(), column)
            }
            (ending, _) => ending,
        };
        let ending = match self.more.get(self.seen..) {
            Some(came) => ending.behind(came),
            None => Ending::Any,
        };
        self.ending = ending;
        self.seen = self.more.len();
        is_much || matches!(ending, Ending::Any)
    }

    // Where the lines begin of which none was searched, if what came was looked at up to a place.
    fn unsearched(&self, looked: usize) -> usize {
        match self.more.get(..looked) {
            Some(front) if front.ends_with('\n') => looked,
            _ => 0,
        }
    }

    // Whether what came behind a place may decide an event.
    fn has_new(&self, looked: usize) -> bool {
        self.more.get(looked..).is_none_or(may_matter) || self.more.starts_with("---")
    }

    // Whether the last line that ends behind a place is a marker alone, which ends whatever waits.
    fn ends_marker(&self, looked: usize) -> bool {
        let text = self.reader.input().as_str();
        match self.more.strip_suffix('\n') {
            Some(lines) => is_marker_last(text, lines),
            None
                if self
                    .more
                    .get(looked..)
                    .is_some_and(|came| came.contains('\n')) => {
                match self.more.rsplit_once('\n') {
                    Some((lines, _)) => is_marker_last(text, lines),
                    None => false,
                }
            }
            None => false,
        }
    }

    // Whether what came from a place on may well decide an event.
    fn may_decide_from(&self, from: usize) -> bool {
        let column = self.column_of_end();
        may_decide(self.more.get(from..).unwrap_or(""), column) || self.ends_line()
    }

    // Whether what came ends a line that the reader has with content, as where its line feed comes alone.
    fn ends_line(&self) -> bool {
        let text = self.reader.input().as_str();
        if text.ends_with('\n') || !self.more.contains(['\n', '\r']) {
            return false;
        }
        let line = match text.rsplit_once('\n') {
            Some((_, line)) => line,
            None => text,
        };
        has_content(line, usize::MAX)
    }

    /// Whether the reader should try again. Nothing depends on it but when an event comes, and how long that takes.
    pub(super) fn has_enough(&mut self) -> bool
        requires sound { spec.IsSoundReader self.old }
        ensures same { spec.pieces_of self.new ≡ spec.pieces_of self.old }
        ensures sound { spec.IsSoundReader self.new }
    {
        let came = self.more.len();
        if came == 0 {
            return false;
        }
        let looked = replace(&mut self.looked, came);
        let left = self.reader.input().as_str().len();
        let waits = left.saturating_add(self.weight);
        let decides = if waits < LITTLE && came < LITTLE {
            self.has_new(looked) && self.may_decide_from(self.unsearched(looked))
        } else if came < waits || came.saturating_sub(self.seen) < PART {
            self.ends_marker(looked)
        } else {
            self.may_end(waits)
        };
        if !decides && left <= self.look_past && self.look_past - left < came {
            // Not all that came was looked at for its end.
            self.ending = Ending::Any;
            return true;
        }
        decides
    }

    /// Has the reader try again as soon as more bytes wait than these, even if less came than waited before.
    pub(crate) fn look_past(&mut self, bytes: usize)
        requires { spec.IsSoundReader self.old }
        ensures same { spec.pieces_of self.new ≡ spec.pieces_of self.old }
        ensures sound { spec.IsSoundReader self.new }
    {
        self.look_past = bytes;
    }

    /// How many bytes wait: those that came and of which no event was handed out.
    pub(crate) fn waiting(&self) -> usize
        ensures bytes { result ≡ length (encode_utf8_all (waiting (spec.pieces_of self.now))) }
        ensures characters { length (waiting (spec.pieces_of self.now)) ≤ result }
    {
        self.reader.input().as_str().len() + self.more.len()
    }
}
