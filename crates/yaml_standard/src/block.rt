//! Steps in block style (YAML 1.2.2, 8.2). Each takes a beginning of its goal's piece off the text, and names the
//! goals of the rest.
ghost use Rattle.std.specs.Prelude.{false, IfSome};
ghost use Rattle.std.specs.Str.{chars};
ghost use Rattle.yaml_standard.specs.Goals as spec;
ghost use Rattle.yaml_standard.specs.Leads.{IsWhatComes};
ghost use Rattle.yaml_standard.specs.Leaves.{IsLeaf};
ghost use Rattle.yaml_standard.specs.Takes.{IfTakes};
ghost use Rattle.yaml_standard.specs.declared.goal.Goal.TheVariants as variant;
ghost use Rattle.yaml_standard.specs.declared.goal.Kind.TheVariants.{Mapping};

use crate::ahead::{Ahead, look_ahead};
use crate::block_scalar::behind_scalar_in_block;
use crate::flow::{behind_key, collection};
use crate::front::{front_before, is_past, strip};
use crate::goal::{Flow, Goal, Goals, Kind, Place, Step};
use crate::hint::{Guide, Hint, HintKind};
use crate::lead::{
    behind_entry_indentation, behind_flow_gap, behind_gap_at, behind_lead, behind_value_mark,
    indent_at, is_start, least_column,
};
use crate::leaf::behind_leaf;
use crate::lines::is_mark;
use crate::spaces::{behind_eol, behind_separation};
use crate::tag::behind_properties;

/// How many flow collections may be open at once.
const MOST_OPEN: usize = 255;

// What follows a leaf in flow style. One without content is its properties alone: what comes next may be a document
// marker.
fn behind_leaf_in_block(text: &str, indent: usize, is_empty: bool) -> Option<&str>
    ensures { IfTakes (IsLeaf false indent) (chars text.now) result }
{
    if is_empty {
        return behind_properties(text, indent);
    }
    behind_leaf(text, false, indent)
}

// What follows a node that is no collection, up to the end of its line.
fn behind_node<'a>(place: Place, text: &'a str, hint: Hint) -> Option<&'a str>
    ensures { IfSome result (λ rest. spec.Closes (variant.BlockNode place) (chars text.now)
        (chars rest.now)) }
{
    let indent = indent_at(place)?;
    match hint.kind {
        HintKind::Empty if hint.is_left_out() => {
            if is_start(place) {
                return None;
            }
            behind_eol(text)
        }
        HintKind::Block => {
            let scalar = behind_gap_at(text, place)?;
            behind_scalar_in_block(scalar, indent)
        }
        kind => {
            let node = behind_flow_gap(text, place)?;
            let end = behind_leaf_in_block(node, indent, matches!(kind, HintKind::Empty))?;
            behind_eol(end)
        }
    }
}

// Whether a collection is in flow style: its start then covers its bracket too, and not its properties alone. The start
// of a block sequence at its key's column covers its first `-`.
fn is_in_flow(hint: Hint, place: Place, text: &str) -> Option<bool> {
    if !hint.has_properties {
        return Some(hint.covered > 0);
    }
    let indent = indent_at(place)?;
    let node = behind_gap_at(text, place)?;
    let content = behind_separation(behind_properties(node, indent)?, 0);
    if strip(content, '-').is_some() {
        return Some(false);
    }
    Some(hint.covered > front_before(node, content)?.chars().count())
}

/// A node.
pub(crate) fn block_node<'a>(place: Place, text: &'a str, guide: &mut Guide<'a>) -> Option<Step<'a>>
    ensures { spec.Steps (variant.BlockNode place) (chars text.now) result }
{
    let hint = guide.hint();
    let Some(kind) = hint.collection() else {
        let rest = behind_node(place, text, hint)?;
        guide.pass();
        return Some((rest, Goals::None));
    };
    if is_in_flow(hint, place, text)? {
        let indent = indent_at(place)?;
        let room = MOST_OPEN;
        let node = behind_flow_gap(text, place)?;
        let (rest, entries) = collection(Flow { room, indent }, node, guide)?;
        return Some((rest, Goals::Two(entries, Goal::LineEnd)));
    }
    let least = least_column(place, kind)?;
    let (rest, column) = behind_lead(text, place, least, hint.has_properties)?;
    guide.pass();
    Some((
        rest,
        Goals::Two(
            Goal::BlockEntry(kind, column),
            Goal::BlockEntries(kind, column),
        ),
    ))
}

/// Further entries of a collection.
pub(crate) fn block_entries<'a>(
    kind: Kind,
    column: usize,
    text: &'a str,
    guide: &mut Guide<'a>,
) -> Option<Step<'a>>
    ensures { spec.Steps (variant.BlockEntries kind column) (chars text.now) result }
{
    if guide.hint().is_end() {
        guide.pass();
        return Some((text, Goals::None));
    }
    let rest = behind_entry_indentation(text, column)?;
    Some((
        rest,
        Goals::Two(
            Goal::BlockEntry(kind, column),
            Goal::BlockEntries(kind, column),
        ),
    ))
}

// A pair of a mapping.
fn block_pair<'a>(column: usize, text: &'a str, guide: &mut Guide<'a>) -> Option<Step<'a>>
    ensures { spec.Steps (variant.BlockEntry Mapping column) (chars text.now) result }
{
    if is_mark(text, '?') {
        let rest = strip(text, '?')?;
        let ahead = look_ahead(rest)?;
        if ahead.has_tab {
            return None;
        }
        return Some((
            rest,
            Goals::Two(
                Goal::BlockNode(Place::BehindMark(column)),
                Goal::AfterMarkedKey(column, rest),
            ),
        ));
    }
    let indent = column.checked_add(1)?;
    if guide.hint().is_collection() {
        let room = MOST_OPEN;
        let (rest, entries) = collection(Flow { room, indent }, text, guide)?;
        return Some((
            rest,
            Goals::Three(
                entries,
                Goal::Colon(text),
                Goal::BlockNode(Place::BehindKey(column)),
            ),
        ));
    }
    let (rest, _) = behind_key(false, indent, true, text, guide)?;
    Some((rest, Goals::One(Goal::BlockNode(Place::BehindKey(column)))))
}

/// An entry of a collection.
pub(crate) fn block_entry<'a>(
    kind: Kind,
    column: usize,
    text: &'a str,
    guide: &mut Guide<'a>,
) -> Option<Step<'a>>
    ensures { spec.Steps (variant.BlockEntry kind column) (chars text.now) result }
{
    match kind {
        Kind::Mapping => block_pair(column, text, guide),
        Kind::Sequence => {
            let rest = strip(text, '-')?;
            Some((rest, Goals::One(Goal::BlockNode(Place::BehindDash(column)))))
        }
    }
}

/// After the key that follows a `?`, and begins at `start`: the colon of its value, or nothing. What comes next is
/// looked at once for all keys that end here.
pub(crate) fn after_marked_key<'a>(
    column: usize,
    start: &'a str,
    text: &'a str,
    ahead: Option<Ahead>,
    guide: &mut Guide<'a>,
) -> Option<Step<'a>>
    requires { IfSome ahead (λ a. IsWhatComes a (chars text.now)) }
    ensures { spec.Steps (variant.AfterMarkedKey column start.entry) (chars text.now) result }
{
    if !is_past(start, text) {
        return None;
    }
    let Some(next) = ahead else {
        return None;
    };
    if next.is_value_at(column) {
        let rest = behind_value_mark(text, column)?;
        return Some((rest, Goals::One(Goal::BlockNode(Place::BehindMark(column)))));
    }
    guide.pass();
    Some((text, Goals::None))
}
