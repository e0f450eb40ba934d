//! Places of a text, as the parser's callers see them.
ghost use Rattle.std.specs.Prelude.{◌≡◌, ◌≤◌, ℕ, ◌∷◌, List, IfNone, IfSome, IsFalse, IsTrue};
ghost use Rattle.std.specs.Str.{chars};
ghost use Rattle.saphyr_input.specs.Classes.{carriage_return, is_break, line_feed};
ghost use Rattle.saphyr_input.specs.Places.{next_2_are};
ghost use Rattle.yaml_standard.specs.Places.{IsHere};

use crate::front::{front_before, split};
use saphyr_input::char_traits::is_break;
use saphyr_scalar::Marker;

/// What follows a CR and an LF, which are one break, if `c` is that CR.
fn behind_double(c: char, behind: &str) -> Option<&str>
    ensures some { IfSome result (λ rest. (c ≡ carriage_return)
        × (chars behind.now ≡ line_feed ∷ chars rest.now)) }
    ensures none { IfNone result
        (IsFalse (next_2_are (c ∷ chars behind.now) carriage_return line_feed)) }
{
    if c != '\r' {
        return None;
    }
    let (first, rest) = split(behind)?;
    if first == '\n' { Some(rest) } else { None }
}

/// The place behind a break, and what follows it.
fn pass_break<'a>(mark: Marker, c: char, behind: &'a str) -> (Marker, &'a str)
    requires { IsTrue (is_break c) }
    ensures here { (text : List ℕ) → IsHere text mark (c ∷ chars behind.now)
        → IsHere text result.0 (chars result.1.now) }
    ensures later { mark.index ≤ result.0.index }
{
    let index = mark.index.saturating_add(1);
    let line = mark.line.saturating_add(1);
    match behind_double(c, behind) {
        None => (Marker::new(index, line, 0), behind),
        Some(rest) => (Marker::new(index.saturating_add(1), line, 0), rest),
    }
}

/// The place behind a character, and what follows it.
fn pass<'a>(mark: Marker, c: char, behind: &'a str) -> (Marker, &'a str)
    ensures here { (text : List ℕ) → IsHere text mark (c ∷ chars behind.now)
        → IsHere text result.0 (chars result.1.now) }
    ensures later { mark.index ≤ result.0.index }
{
    if is_break(c) {
        return pass_break(mark, c, behind);
    }
    let index = mark.index.saturating_add(1);
    if c == '\u{feff}' && mark.col == 0 {
        return (Marker::new(index, mark.line, 0), behind);
    }
    let col = mark.col.saturating_add(1);
    (Marker::new(index, mark.line, col), behind)
}

/// A place of a text, and what follows it.
#[derive(Clone, Copy)]
pub(crate) struct Here<'a> {
    pub mark: Marker,
    pub rest: &'a str,
    /// How many characters come before it, each break counted as one.
    pub passed: usize,
}

impl<'a> Here<'a> {
    /// The start of a text.
    pub(crate) fn new(text: &'a str) -> Here<'a>
        ensures { IsHere (chars text.now) result.mark (chars result.rest.now) }
    {
        Here {
            mark: Marker::new(0, 1, 0),
            rest: text,
            passed: 0,
        }
    }

    /// The place behind so many characters, or this one if it is no earlier.
    pub(crate) fn behind(self, count: usize) -> Here<'a>
        ensures here { (text : List ℕ) → IsHere text self.entry.mark (chars self.entry.rest.now)
            → IsHere text result.mark (chars result.rest.now) }
        ensures later { self.entry.mark.index ≤ result.mark.index }
    {
        let mut here = self;
        for _ in self.passed..count {
            let Some((c, behind)) = split(here.rest) else {
                break;
            };
            (here.mark, here.rest) = pass(here.mark, c, behind);
            here.passed = here.passed.saturating_add(1);
        }
        here
    }

    /// The start of the next line, or the end.
    pub(crate) fn behind_line(self) -> Here<'a> {
        match self.rest.split_once("\n") {
            None => self.before(""),
            Some((_line, behind)) => self.before(behind),
        }
    }

    /// The place before `rest`, which is what follows some place of the text, or this one if it is no earlier.
    pub(crate) fn before(self, rest: &str) -> Here<'a> {
        let front = front_before(self.rest, rest).unwrap_or("");
        self.behind(self.passed.saturating_add(front.chars().count()))
    }
}
