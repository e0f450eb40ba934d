//! What ends the scalar, collection or directives that wait, as far as a look at the characters tells. Nothing depends
//! on it but when the reader tries again.

/// The last column of which spaces are counted in front of a line. To count more takes as long as to read them.
const DEEPEST: usize = 16;

/// What ends the node, or the directives, that a text begins with. Up to the text's end it did not come.
#[derive(Clone, Copy)]
pub(crate) enum Ending {
    /// It may have come, or it is not known what it is.
    Any,
    /// A quote of this kind.
    Quote(char),
    /// A line with content left of a column. The last line has so many spaces, or it has content from the column on.
    Line { column: usize, spaces: usize },
    /// A line that is not blank, and no directive or comment. More of the text begins a line, if `at_start`.
    Document { at_start: bool },
    /// A bracket behind which a collection does not go on. Nothing comes behind the last one yet, if it is `open`.
    Bracket { open: bool },
}

// The text without the blanks, breaks and properties in front of a node.
fn node_in(text: &str) -> &str {
    let mut node = text.trim_ascii_start();
    for _ in 0..2 {
        if !node.starts_with(['&', '!']) {
            return node;
        }
        node = match node.split_once([' ', '\t', '\r', '\n']) {
            Some((_, behind)) => behind.trim_ascii_start(),
            None => "",
        };
    }
    node
}

// Whether a quote comes that ends a scalar: one that no single backslash is in front of. A part of a text may begin
// behind a backslash.
fn has_quote(came: &str, quote: char) -> bool {
    let Some((front, _)) = came.rsplit_once(quote) else {
        return false;
    };
    for part in front.split(quote) {
        let is_escaped = part.len() > 1 && part.ends_with('\\') && !part.ends_with("\\\\");
        if quote == '\'' || !is_escaped {
            return true;
        }
    }
    false
}

// The column of a block scalar's first content, or 0 if that may be a comment. `None`: only blank lines came.
fn first_column(lines: &str) -> Option<usize> {
    let mut column: usize = 0;
    for b in lines.bytes() {
        match b {
            b' ' => column = column.saturating_add(1),
            b'\n' => column = 0,
            b'#' => return Some(0),
            _ => return Some(column),
        }
    }
    None
}

// How many spaces a line has that has so many already, but no more than a column. `None`: content is left of that.
fn spaces_of(line: &str, before: usize, column: usize) -> Option<usize> {
    let mut spaces = before;
    for b in line.bytes() {
        if spaces >= column {
            break;
        }
        if b != b' ' {
            return None;
        }
        spaces = spaces.saturating_add(1);
    }
    Some(spaces)
}

// What ends a block scalar whose lines begin at a column, behind more of it.
fn behind_lines(came: &str, column: usize, before: usize) -> Ending {
    let mut lines = came;
    let mut from = before;
    while let Some((line, others)) = lines.split_once('\n') {
        if spaces_of(line, from, column).is_none() {
            return Ending::Any;
        }
        lines = others;
        from = 0;
    }
    match spaces_of(lines, from, column) {
        Some(spaces) => Ending::Line { column, spaces },
        None => Ending::Any,
    }
}

// What ends the block scalar that a text begins with, if its content may begin at a column.
fn end_of_block(text: &str, least: usize) -> Ending {
    let Some((_, lines)) = text.split_once('\n') else {
        return Ending::Any;
    };
    let column = first_column(lines).unwrap_or(least.max(1));
    if column == 0 || column > DEEPEST {
        return Ending::Any;
    }
    Ending::Line { column, spaces: 0 }.behind(lines)
}

// Whether a line is blank, a directive or a comment, as far as it came.
fn is_before_document(line: &str) -> bool {
    line.starts_with('%') || matches!(line.trim_ascii_start().bytes().next(), None | Some(b'#'))
}

// What ends directives, behind more of them.
fn behind_directives(came: &str, at_start: bool) -> Ending {
    for (number, line) in came.split('\n').enumerate() {
        if (number > 0 || at_start) && !is_before_document(line) {
            return Ending::Any;
        }
    }
    Ending::Document {
        at_start: came.ends_with('\n'),
    }
}

// Whether a collection goes on behind a bracket that ends one.
fn goes_on(behind: &str) -> bool {
    let next = behind.trim_ascii_start();
    next.is_empty() || next.starts_with([',', ']', '}'])
}

// Whether a bracket of this kind comes behind which no collection goes on.
fn has_last(came: &str, bracket: char) -> bool {
    for (number, part) in came.split(bracket).enumerate() {
        if number > 0 && !goes_on(part) {
            return true;
        }
    }
    false
}

// What ends a collection, behind more of it.
fn behind_brackets(came: &str, open: bool) -> Ending {
    if open && !goes_on(came) || has_last(came, ']') || has_last(came, '}') {
        return Ending::Any;
    }
    let front = came.trim_ascii_end();
    Ending::Bracket {
        open: front.ends_with([']', '}']) || open && front.is_empty(),
    }
}

impl Ending {
    /// What ends the node that a text begins with, in block style, whose later lines begin at a column, or directives.
    pub(super) fn of(text: &str, column: usize) -> Ending {
        let node = node_in(text);
        let mut behind = node.chars();
        match behind.next() {
            Some(quote @ ('"' | '\'')) => Ending::Quote(quote).behind(behind.as_str()),
            Some('[' | '{') => Ending::Bracket { open: false }.behind(node),
            Some('|' | '>') => end_of_block(node, column),
            Some('%') => Ending::Document { at_start: true }.behind(node),
            _ => Ending::Any,
        }
    }

    /// What ends it behind more of the text.
    pub(super) fn behind(self, came: &str) -> Ending {
        match self {
            Ending::Quote(quote) if !has_quote(came, quote) => self,
            // A CR may end a line.
            Ending::Line { column, spaces } if !came.contains('\r') => {
                behind_lines(came, column, spaces)
            }
            Ending::Document { at_start } if !came.contains('\r') => {
                behind_directives(came, at_start)
            }
            Ending::Bracket { open } => behind_brackets(came, open),
            _ => Ending::Any,
        }
    }
}
