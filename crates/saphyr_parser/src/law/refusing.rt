//! What is refused, whatever it says.
ghost use Rattle.std.specs.Prelude.{◌≢◌, ◌<◌, ◌≤◌, ◌^◌, List, None, length, ℕ};
ghost use Rattle.saphyr_scanner.specs.Steps.Remaining.{scan};
ghost use Rattle.event_laws.specs.Limits.{most_characters};
ghost use Rattle.saphyr_machine.specs.Cursor.{at_start, to_come};

use saphyr_scalar::scalar::{
    reads_block_texts, reads_plain_values, spells_each_directive, spells_each_property,
    spells_each_quoted,
};
use saphyr_scanner::law::{bounds_tokens, ends_with_the_stream, takes_all_tokens};

/// A text with more characters than the limit is refused: a fault ends its events.
pub fn refuses_long_texts()
    ensures { (limit : ℕ) (text : List ℕ) → limit ≤ most_characters → limit < length text
        → length text < 2 ^ 63 → (to_come (at_start (scan limit text))).fault ≢ None }
{
    reads_plain_values();
    spells_each_quoted();
    reads_block_texts();
    spells_each_property();
    spells_each_directive();
    takes_all_tokens();
    ends_with_the_stream();
    bounds_tokens();
}
