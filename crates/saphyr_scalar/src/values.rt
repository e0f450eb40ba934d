//! The styles and the parts of scalars by which their values are told (YAML 1.2.2, chapters 5 to 8), and the table of
//! escapes. What each spelling reads as stands in the definitions of `specs/Values`.

ghost use Rattle.std.specs.Prelude.{◌≡◌, ◌<◌, ◌≤◌, IfSome};
ghost use Rattle.saphyr_scalar.specs.Values.Escapes as escapes;
ghost use Rattle.saphyr_scalar.specs.Values.Flow as flow;

/// The two kinds of quotes around a scalar.
#[derive(Clone, Copy, Debug, PartialEq, Eq)]
pub enum Quote {
    /// `'` (YAML 1.2.2, 7.3.2).
    Single,
    /// `"` (YAML 1.2.2, 7.3.1).
    Double,
}

impl Quote {
    /// The character that a quoted scalar begins and ends with.
    pub fn mark(self) -> char
        ensures { result ≡ flow.mark self }
    {
        match self {
            Quote::Single => '\'',
            Quote::Double => '"',
        }
    }
}

/// A part of a flow scalar, with escapes told apart.
#[derive(Clone, Copy, Debug, PartialEq, Eq)]
pub enum Item {
    /// A space or a tab that stands for itself.
    Blank(char),
    /// Another character that stands for itself.
    Raw(char),
    /// The character that an escape stands for.
    Escaped(char),
    /// A line break.
    Break,
    /// A line break after a backslash.
    EscapedBreak,
}

/// The two styles of block scalars (YAML 1.2.2, 8.1.2 and 8.1.3).
#[derive(Clone, Copy, Debug, PartialEq, Eq)]
pub enum BlockStyle {
    Literal,
    Folded,
}

/// What becomes of the breaks at the end of a block scalar (YAML 1.2.2, 8.1.1.2).
#[derive(Clone, Copy, Debug, PartialEq, Eq)]
pub enum Chomping {
    Strip,
    Clip,
    Keep,
}

/// What ends the last line of a block scalar that has no break.
#[derive(Clone, Copy, Debug, PartialEq, Eq)]
pub enum Ending {
    /// The text's end or a NUL.
    AtEnd,
    /// A byte order mark.
    AtMark,
}

/// What a character after a backslash stands for, if the two are a whole escape.
#[inline(always)]
#[tactic(auto, unfolding(crate::specs::Values::Escapes::short_escape))]
pub fn short_escape(name: char) -> Option<char>
    ensures value { result ≡ escapes.short_escape name }
    ensures ascii { IfSome result (λ _. (0 < name) × (name < 128)) }
{
    match name {
        '0' => Some('\0'),
        'a' => Some('\x07'),
        'b' => Some('\x08'),
        't' | '\t' => Some('\t'),
        'n' => Some('\n'),
        'v' => Some('\x0B'),
        'f' => Some('\x0C'),
        'r' => Some('\r'),
        'e' => Some('\x1B'),
        ' ' | '"' | '/' | '\\' => Some(name),
        'N' => Some('\u{85}'),
        '_' => Some('\u{A0}'),
        'L' => Some('\u{2028}'),
        'P' => Some('\u{2029}'),
        _ => None,
    }
}

/// How many hexadecimal digits follow the name of an escape by number.
pub fn digit_count(name: char) -> Option<usize>
    ensures count { result ≡ escapes.digit_count name }
    ensures few { IfSome result (λ count. count ≤ 8) }
{
    match name {
        'x' => Some(2),
        'u' => Some(4),
        'U' => Some(8),
        _ => None,
    }
}
