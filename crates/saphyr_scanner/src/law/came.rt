//! Laws of the scanner over a text of which more comes.

ghost use Rattle.std.specs.Prelude.{◌≡◌, ◌++◌, ℕ, true, false, List, Ok, Err};
ghost use Rattle.saphyr_scalar.specs.declared.scalar.fault.Refusal.{Refusal};
ghost use Rattle.saphyr_scanner.specs.Steps.State.{State};
ghost use Rattle.saphyr_scanner.specs.Views.Tokens.{Piece, refusal_alone};
ghost use Rattle.saphyr_scanner.specs.Steps.Fetch.{needs_token};
ghost use Rattle.saphyr_scanner.specs.Steps.Remaining.{remaining, scan};
ghost use Rattle.saphyr_scalar.specs.Known.{IsRestOfText, is_open};
ghost use Rattle.saphyr_scanner.specs.Longer.{ScansTo, before_all, extended_by, state_behind_token};

use crate::law::takes_characters_off;

/// Where a scanner reads a token and leaves a rest that is not open, it does so with more behind the text
/// too, and comes to the same, with more behind its rest: it has looked at nothing behind what came. A
/// refusal that says that nothing may change it comes so with more behind the text too. So a scanner that
/// has read what is decided goes on where more of its text comes: its tokens come first in those of the
/// longer text, and such a refusal ends them.
pub fn steps_by_what_came()
    ensures step { (limit : ℕ) (s t : State) (more : List ℕ) → state_behind_token limit s ≡ Ok t
        → is_open t.core.cursor.rest ≡ false
        → state_behind_token limit (extended_by more s) ≡ Ok (extended_by more t) }
    ensures later { (limit : ℕ) (s t : State) → state_behind_token limit s ≡ Ok t
        → IsRestOfText t.core.cursor.rest s.core.cursor.rest }
    ensures seen { (limit : ℕ) (s : State) (e : Refusal) (more : List ℕ)
        → state_behind_token limit s ≡ Err e → e.may_change ≡ false
        → state_behind_token limit (extended_by more s) ≡ Err e }
    ensures goes_on { (limit : ℕ) (text more : List ℕ) (ts : List Piece) (s : State)
        → ScansTo limit text ts s → ScansTo limit (text ++ more) ts (extended_by more s) }
    ensures tokens { (limit : ℕ) (text : List ℕ) (ts : List Piece) (s : State)
        → ScansTo limit text ts s → scan limit text ≡ before_all ts (remaining limit s) }
    ensures refused { (limit : ℕ) (text more : List ℕ) (ts : List Piece) (s : State) (e : Refusal)
        → ScansTo limit text ts s → needs_token s ≡ true → state_behind_token limit s ≡ Err e
        → e.may_change ≡ false
        → scan limit (text ++ more) ≡ before_all ts (refusal_alone e) }
{
    takes_characters_off();
}
