//! An example of an input of your own, over the characters of a slice. Tests read from it too. It has the smallest
//! window that an input may have, and overrides no default body of the trait.

ghost use Rattle.std.specs.Prelude.{◌≡◌, ◌≤◌};

use saphyr_parser::{CloneInput, Input};

/// How many places can be loaded at once.
const WINDOW: usize = 8;

/// The characters of a slice, as an input.
#[derive(Clone, Copy, Debug)]
pub struct Characters<'a> {
    rest: &'a [char],
    loaded: usize,
    ghost within: { loaded ≤ 8 },
}

impl<'a> Characters<'a> {
    /// The characters as an input, with no place loaded.
    pub fn new(rest: &'a [char]) -> Self
        ensures rest { ⟦<Characters<'a> as Input>⟧.rest result ≡ rest.now }
        ensures loaded { ⟦<Characters<'a> as Input>⟧.loaded result ≡ 0 }
    {
        Characters { rest, loaded: 0 }
    }
}

impl Input for Characters<'_> {
    ghost use Rattle.std.proofs.Common.{lit≤};

    ghost rest = { λ s. s.rest.now };

    ghost loaded = { λ s. s.loaded };

    ghost window = { 8 };

    ghost wide = { lit≤ tt };

    fn lookahead(&mut self, count: usize) {
        self.loaded = self.loaded.max(count);
    }

    fn buflen(&self) -> usize {
        self.loaded
    }

    fn bufmaxlen(&self) -> usize {
        WINDOW
    }

    fn raw_read_ch(&mut self) -> char {
        let c = self.rest.first().copied().unwrap_or('\0');
        self.rest = self.rest.get(1..).unwrap_or(&[]);
        c
    }

    fn raw_read_non_breakz_ch(&mut self) -> Option<char> {
        let c = self.rest.first().copied()?;
        if matches!(c, '\0' | '\r' | '\n' | '\u{FEFF}') {
            return None;
        }
        self.rest = self.rest.get(1..).unwrap_or(&[]);
        Some(c)
    }

    fn skip(&mut self) {
        self.skip_n(1);
    }

    fn skip_n(&mut self, count: usize) {
        self.rest = self.rest.get(count..).unwrap_or(&[]);
        self.loaded -= count;
    }

    fn peek(&self) -> char {
        self.peek_nth(0)
    }

    fn peek_nth(&self, n: usize) -> char {
        self.rest.get(n).copied().unwrap_or('\0')
    }

    fn peek_opt(&self) -> Option<char> {
        self.rest.first().copied()
    }
}

impl CloneInput for Characters<'_> {
    ghost use Rattle.std.proofs.Common.{ap};

    ghost faithful = { λ _ _ same. (ap (λ i. i.rest.now) same, ap (λ i. i.loaded) same) };
}
