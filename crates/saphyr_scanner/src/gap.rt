//! What is between two tokens: blanks, breaks and comments (YAML 1.2.2, 6.7).

ghost use Rattle.std.specs.Prelude.{◌≡◌, ◌||◌, true, false, slice_index};
ghost use Rattle.saphyr_input.specs.Classes.{is_break};
ghost use Rattle.saphyr_scalar.specs.Views.Cursor.{pass_comment};
ghost use Rattle.saphyr_scalar.specs.Views.Reader.{cursor_of, GivesAs};
ghost use Rattle.saphyr_scanner.specs.Steps.Gap as spec;

use saphyr_input::char_traits::{is_blank, is_bom, is_break, is_z};
use saphyr_input::input::Input;
use saphyr_scalar::{FaultText, Reader, Refusal};

// Whether a tab is in the line's indentation, including the next character.
fn stands_behind_tab<T: Input>(reader: &Reader<T>, least: usize, tabbed: bool, c: char) -> bool
    ensures { result ≡ spec.is_tab_indentation least (cursor_of reader.now).mark
        (cursor_of reader.now).blank_so_far c || tabbed }
{
    c == '\t' && reader.blank_so_far() && reader.mark().col < least || tabbed
}

// After a tab in the indentation, nothing else may be on the line.
#[tactic(auto, unfolding(crate::specs::Steps::Gap::stop))]
fn end_gap<T: Input>(
    reader: &Reader<T>,
    c: char,
    broke: bool,
    tabbed: bool,
) -> Result<bool, Refusal>
    requires { c ≡ slice_index (cursor_of reader.now).rest 0 }
    ensures { GivesAs spec.seen_gap_end (spec.stop_at broke tabbed) reader.now result reader.now }
{
    let mark = reader.mark();
    if tabbed && is_bom(c) {
        return Err(Refusal {
            text: FaultText::MisplacedByteOrderMark,
            mark,
            may_change: false,
        });
    }
    if tabbed && !is_z(c) {
        return Err(Refusal {
            text: FaultText::TabInBlockIndentation,
            mark,
            may_change: false,
        });
    }
    Ok(broke)
}

// Passes a comment, and returns whether it also passed a line feed behind it. Most comments end with one, so this saves
// their loops a turn.
#[inline(always)]
fn skip_comment_line<T: Input>(reader: &mut Reader<T>) -> bool
    ensures passed { cursor_of reader.new ≡ spec.behind_comment result (cursor_of reader.old) }
    ensures ends { result ≡ true
        → is_break (slice_index (pass_comment (cursor_of reader.old)).rest 0) ≡ true }
{
    reader.skip_comment();
    let c = reader.look();
    if c == '\n' {
        reader.skip_seen_break(c);
    }
    c == '\n'
}

// Passes blanks, breaks and comments one after the other, as `skip_gap` says. Spaces, comments, and a tab with the
// blanks after it are each passed in one piece: a tab further right is in the indentation only if the first one is.
#[inline(always)]
fn skip_gap_characters<T: Input>(reader: &mut Reader<T>, least: usize) -> Result<bool, Refusal>
    ensures { GivesAs spec.seen_gap_end (spec.whole_gap least) reader.old result reader.new }
{
    let mut broke = false;
    let mut tabbed = false;
    loop {
        let c = reader.look();
        if c == ' ' {
            reader.skip_spaces(usize::MAX);
        } else if c == '\t' {
            tabbed = stands_behind_tab(reader, least, tabbed, c);
            reader.skip_blanks();
        } else if is_break(c) {
            reader.skip_seen_break(c);
            broke = true;
            tabbed = false;
        } else if c == '#' {
            if skip_comment_line(reader) {
                broke = true;
                tabbed = false;
            }
        } else {
            return end_gap(reader, c, broke, tabbed);
        }
    }
}

// Passes blanks, breaks and comments, and returns whether a break was met.
//
// A tab left of the column `least` is refused if content follows it on its line.
#[inline(always)]
pub(crate) fn skip_gap<T: Input>(reader: &mut Reader<T>, least: usize) -> Result<bool, Refusal>
    ensures { GivesAs spec.seen_gap_end (spec.whole_gap least) reader.old result reader.new }
{
    // Mostly the next token begins right here.
    let c = reader.look();
    if is_blank(c) || is_break(c) || c == '#' {
        return skip_gap_characters(reader, least);
    }
    Ok(false)
}

// Passes spaces, breaks and comments, and returns whether a space or a break was met.
pub(crate) fn skip_spaces<T: Input>(reader: &mut Reader<T>) -> bool
    ensures { record { cursor = cursor_of reader.new; space = result }
        ≡ spec.spaces_at false (cursor_of reader.old) }
{
    let mut space = false;
    loop {
        let c = reader.look();
        if c == ' ' {
            reader.skip_blank();
            space = true;
        } else if is_break(c) {
            reader.skip_line_break();
            space = true;
        } else if c == '#' {
            reader.skip_comment();
        } else {
            return space;
        }
    }
}
