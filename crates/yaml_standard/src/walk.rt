//! Closes a goal, with all that it opens. What is open is a list of goals, so no function calls itself, and memory is
//! used by the depth of the text.
ghost use Rattle.std.specs.Prelude.{◌≡◌, ◌++◌, [], ◌∷◌, IfOk, IfSome};
ghost use Rattle.std.specs.Str.{chars};
ghost use Rattle.yaml_standard.specs.Goals as spec;
ghost use Rattle.yaml_standard.specs.Leads.{IsWhatComes};
ghost use Rattle.yaml_standard.specs.Takes.{IfTakesBefore};
ghost use Rattle.yaml_standard.specs.declared.goal.Goal.{Goal};

use crate::ahead::{Ahead, look_ahead};
use crate::block::{after_marked_key, block_entries, block_entry, block_node};
use crate::flow::{after_entry, after_key, entries, key_or_value, node, pair, value};
use crate::front::{is_past, strip};
use crate::goal::{Goal, Goals, Step};
use crate::hint::Guide;
use crate::lead::behind_gap_at;
use crate::leaf::{behind_front, behind_some_quoted, is_short_line};
use crate::spaces::{behind_blanks, behind_eol};
use std::alloc::{AllocError, Global};

/// What can't be closed, which is a goal or a document, and the text where its piece would begin.
#[derive(Clone, Copy)]
pub(crate) struct Stuck<'a> {
    pub goal: Option<Goal<'a>>,
    pub text: &'a str,
}

// What follows blanks and a colon, on one line with the key that begins at `start`.
fn behind_colon<'a>(start: &str, text: &'a str) -> Option<&'a str>
    ensures { IfTakesBefore (spec.IsColonBefore (chars start.now)) (chars text.now) result }
{
    let colon = behind_blanks(text);
    if is_short_line(start, colon) {
        strip(colon, ':')
    } else {
        None
    }
}

// One step of a goal.
fn step<'a>(
    goal: Goal<'a>,
    text: &'a str,
    ahead: Option<Ahead>,
    guide: &mut Guide<'a>,
) -> Option<Step<'a>>
    requires { IfSome ahead (λ a. IsWhatComes a (chars text.now)) }
    ensures { spec.Steps goal.entry (chars text.now) result }
{
    match goal {
        Goal::Node(at) => node(at, text, guide),
        Goal::Entries(at, kind) => entries(at, kind, text, guide),
        Goal::AfterEntry(at, kind) => after_entry(at, kind, text, guide),
        Goal::Pair(at, in_brackets) => pair(at, in_brackets, text, guide),
        Goal::KeyOrValue(at, in_brackets) => key_or_value(at, in_brackets, text, guide),
        Goal::AfterKey(at) => after_key(at, text, guide),
        Goal::Colon(start) => Some((behind_colon(start, text)?, Goals::None)),
        Goal::Value(at, adjacent) => value(at, adjacent, text, guide),
        Goal::BlockNode(place) => block_node(place, text, guide),
        Goal::BlockEntry(kind, column) => block_entry(kind, column, text, guide),
        Goal::BlockEntries(kind, column) => block_entries(kind, column, text, guide),
        Goal::AfterMarkedKey(column, start) => {
            after_marked_key(column, start, text, ahead, guide)
        }
        Goal::LineEnd => Some((behind_eol(text)?, Goals::None)),
    }
}

// What comes next, which is looked at where a goal asks for it.
fn looked(goal: Goal<'_>, text: &str, ahead: Option<Ahead>) -> Option<Ahead>
    requires { IfSome ahead (λ a. IsWhatComes a (chars text.now)) }
    ensures { IfSome result (λ a. IsWhatComes a (chars text.now)) }
{
    match goal {
        Goal::AfterMarkedKey(..) if ahead.is_none() => look_ahead(text),
        _ => ahead,
    }
}

// The same behind a step: it is kept while nothing is taken off the text, so that this is looked at once.
fn kept(ahead: Option<Ahead>, text: &str, rest: &str, added: Goals<'_>) -> Option<Ahead>
    requires known { IfSome ahead (λ a. IsWhatComes a (chars text.now)) }
    requires replaced { (goal : Goal) × spec.Replaces goal (chars text.now) (chars rest.now) added }
    ensures { IfSome result (λ a. IsWhatComes a (chars rest.now)) }
{
    match added {
        Goals::None if text.len() == rest.len() => ahead,
        _ => None,
    }
}

// Opens the goals, of which the first is the last of the list.
fn open<'a>(goals: &mut Vec<Goal<'a>>, added: Goals<'a>) -> Result<(), AllocError>
    ensures { IfOk result (λ _. goals.new.items ≡ goals.old.items ++ spec.stack added.entry) }
{
    match added {
        Goals::None => (),
        Goals::One(a) => goals.push(a)?,
        Goals::Two(a, b) => {
            goals.push(b)?;
            goals.push(a)?;
        }
        Goals::Three(a, b, c) => {
            goals.push(c)?;
            goals.push(b)?;
            goals.push(a)?;
        }
    }
    Ok(())
}

// The scalar in quotes that a goal's piece may begin with, and what follows it.
fn quoted_at<'a>(goal: Goal<'_>, text: &'a str) -> Option<(&'a str, &'a str)> {
    let leaf = match goal {
        Goal::BlockNode(place) => behind_gap_at(text, place)?,
        _ => text,
    };
    let scalar = behind_front(leaf, 0);
    let rest = behind_some_quoted(scalar, 0)?;
    Some((scalar, rest))
}

// Leaves the scalar in quotes out that a step took off the text, with its properties before it or the colon behind it:
// in quotes a character need not be printable.
fn leave_out_quoted(
    goal: Goal<'_>,
    text: &str,
    behind: &str,
    guide: &mut Guide<'_>,
) -> Result<(), AllocError> {
    if guide.is_printable || !is_past(text, behind) {
        return Ok(());
    }
    match quoted_at(goal, text) {
        Some((scalar, rest)) if rest.len() >= behind.len() => guide.leave_out(scalar, rest),
        _ => Ok(()),
    }
}

/// What follows the goal's piece, or the goal that can't be closed. The guide keeps that one and those behind it.
pub(crate) fn close<'a>(
    alloc: Global,
    goal: Goal<'a>,
    text: &'a str,
    guide: &mut Guide<'a>,
) -> Result<Result<&'a str, Stuck<'a>>, AllocError>
    ensures { IfOk result (λ closed. IfOk closed (λ rest. spec.Closes goal.entry (chars text.now)
        (chars rest.now))) }
{
    let mut goals = vec![in alloc; goal]?;
    let mut rest = text;
    let mut ahead = None;
    for _ in 0..usize::MAX {
        let Some(next) = goals.pop() else {
            return Ok(Ok(rest));
        };
        ahead = looked(next, rest, ahead);
        let Some((behind, added)) = step(next, rest, ahead, guide) else {
            goals.push(next)?;
            guide.open = goals;
            return Ok(Err(Stuck {
                goal: Some(next),
                text: rest,
            }));
        };
        ahead = kept(ahead, rest, behind, added);
        leave_out_quoted(next, rest, behind, guide)?;
        rest = behind;
        open(&mut goals, added)?;
    }
    Ok(Err(Stuck {
        goal: None,
        text: rest,
    }))
}
