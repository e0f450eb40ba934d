//! Steps in flow style (YAML 1.2.2, 7.4 and 7.5). Each takes a beginning of its goal's piece off the text, and names
//! the goals of the rest.
ghost use Rattle.std.specs.Prelude.{◌≡◌, ℕ, List, IfSome, IsTrue};
ghost use Rattle.std.specs.Str.{chars};
ghost use Rattle.yaml_standard.specs.FlowParts as part;
ghost use Rattle.yaml_standard.specs.Goals as spec;
ghost use Rattle.yaml_standard.specs.Takes.{IfTakes, TakesOff};
ghost use Rattle.yaml_standard.specs.declared.goal.Goal.TheVariants as variant;

use crate::ahead::look_ahead;
use crate::front::{front_before, is_past, split, strip};
use crate::goal::{Flow, Goal, Goals, Kind, Step};
use crate::hint::{Guide, Hint, HintKind};
use crate::leaf::{behind_front, behind_key_and_colon, behind_leaf};
use crate::spaces::{behind_blanks, behind_separation};

impl Kind {
    // The bracket that begins a collection.
    fn opening(self) -> char
        ensures { result ≡ spec.first_bracket self }
    {
        match self {
            Kind::Sequence => '[',
            Kind::Mapping => '{',
        }
    }

    // The bracket that ends it.
    fn closing(self) -> char
        ensures { result ≡ spec.last_bracket self }
    {
        match self {
            Kind::Sequence => ']',
            Kind::Mapping => '}',
        }
    }
}

/// What follows the bracket of a collection, with the properties before it, and the goal of the rest.
pub(crate) fn collection<'a>(
    at: Flow,
    text: &'a str,
    guide: &mut Guide<'a>,
) -> Option<(&'a str, Goal<'a>)>
    ensures { IfSome result (λ r. spec.OpensCollection at (chars text.now) (chars r.0.now) r.1) }
{
    let kind = guide.hint().collection()?;
    let room = at.room.checked_sub(1)?;
    let rest = strip(behind_front(text, at.indent), kind.opening())?;
    guide.pass();
    let indent = at.indent;
    Some((rest, Goal::Entries(Flow { room, indent }, kind)))
}

/// A node.
pub(crate) fn node<'a>(at: Flow, text: &'a str, guide: &mut Guide<'a>) -> Option<Step<'a>>
    ensures { spec.Steps (variant.Node at) (chars text.now) result }
{
    if guide.hint().is_collection() {
        let (rest, entries) = collection(at, text, guide)?;
        return Some((rest, Goals::One(entries)));
    }
    let rest = behind_leaf(text, true, at.indent)?;
    guide.pass();
    Some((rest, Goals::None))
}

// Whether an entry of a sequence is a pair without braces.
fn is_pair(hint: Hint, text: &str) -> bool {
    let in_braces = hint.has_properties || hint.covered > 0;
    match split(text) {
        Some(('{' | '&' | '!', _)) if in_braces => false,
        _ => matches!(hint.kind, HintKind::Collection(Kind::Mapping)),
    }
}

/// The rest of a collection, behind its bracket or a comma.
pub(crate) fn entries<'a>(
    at: Flow,
    kind: Kind,
    text: &'a str,
    guide: &mut Guide<'a>,
) -> Option<Step<'a>>
    ensures { spec.Steps (variant.Entries at kind) (chars text.now) result }
{
    let entry = behind_separation(text, at.indent);
    let hint = guide.hint();
    if hint.is_end() {
        guide.pass();
        return Some((strip(entry, kind.closing())?, Goals::None));
    }
    match kind {
        Kind::Mapping => Some((
            entry,
            Goals::Two(Goal::Pair(at, false), Goal::AfterEntry(at, Kind::Mapping)),
        )),
        Kind::Sequence if is_pair(hint, entry) => {
            guide.pass();
            Some((
                entry,
                Goals::Two(Goal::Pair(at, true), Goal::AfterEntry(at, Kind::Sequence)),
            ))
        }
        Kind::Sequence => Some((
            entry,
            Goals::Two(Goal::Node(at), Goal::AfterEntry(at, Kind::Sequence)),
        )),
    }
}

/// The rest of a collection, behind an entry.
pub(crate) fn after_entry<'a>(
    at: Flow,
    kind: Kind,
    text: &'a str,
    guide: &mut Guide<'a>,
) -> Option<Step<'a>>
    ensures { spec.Steps (variant.AfterEntry at kind) (chars text.now) result }
{
    if let (Kind::Sequence, HintKind::End(Kind::Mapping)) = (kind, guide.hint().kind) {
        // The pair in brackets ends, of which the parser alone tells.
        guide.pass();
    }
    let end = behind_separation(text, at.indent);
    if let Some(rest) = strip(end, ',') {
        return Some((rest, Goals::One(Goal::Entries(at, kind))));
    }
    guide.pass();
    Some((strip(end, kind.closing())?, Goals::None))
}

// ## Pairs

// What follows a `?` and the separation after it.
fn behind_mark(text: &str, indent: usize) -> Option<&str>
    ensures { IfTakes (part.IsQuestionInFlow indent) (chars text.now) result }
{
    let start = strip(text, '?')?;
    let rest = behind_separation(start, indent);
    let ahead = look_ahead(front_before(start, rest)?)?;
    if !is_past(start, rest) || ahead.has_tab || !ahead.is_end {
        return None;
    }
    Some(rest)
}

// Whether an entry ends here.
fn ends_entry(text: &str) -> bool
    ensures { IsTrue result → spec.EndsEntry (chars text.now) }
{
    match split(text) {
        None => false,
        Some((c, _rest)) => c == ',' || c == ']' || c == '}',
    }
}

/// A pair, which may begin with a `?`. If nothing is behind it, key and value are left out.
pub(crate) fn pair<'a>(
    at: Flow,
    in_brackets: bool,
    text: &'a str,
    guide: &mut Guide<'a>,
) -> Option<Step<'a>>
    ensures { spec.Steps (variant.Pair at in_brackets) (chars text.now) result }
{
    let Some(rest) = behind_mark(text, at.indent) else {
        return Some((text, Goals::One(Goal::KeyOrValue(at, in_brackets))));
    };
    if ends_entry(rest) {
        guide.pass();
        guide.pass();
        return Some((rest, Goals::None));
    }
    Some((rest, Goals::One(Goal::KeyOrValue(at, false))))
}

/// What follows the colon of a key that is a leaf or left out, and whether a value may come right after it.
pub(crate) fn behind_key<'a>(
    in_flow: bool,
    indent: usize,
    on_line: bool,
    text: &'a str,
    guide: &mut Guide<'a>,
) -> Option<(&'a str, bool)>
    ensures { IfSome result (λ r. TakesOff (part.IsColonOrKey in_flow indent on_line r.1)
        (chars text.now) (chars r.0.now)) }
{
    if guide.hint().is_left_out() {
        let rest = strip(text, ':')?;
        guide.pass();
        return Some((rest, false));
    }
    let key = behind_key_and_colon(text, in_flow, indent, on_line)?;
    guide.pass();
    Some(key)
}

/// A key, a value or both.
pub(crate) fn key_or_value<'a>(
    at: Flow,
    in_brackets: bool,
    text: &'a str,
    guide: &mut Guide<'a>,
) -> Option<Step<'a>>
    ensures { spec.Steps (variant.KeyOrValue at in_brackets) (chars text.now) result }
{
    if guide.hint().is_collection() {
        let (rest, entries) = collection(at, text, guide)?;
        if in_brackets {
            return Some((
                rest,
                Goals::Three(entries, Goal::Colon(text), Goal::Value(at, true)),
            ));
        }
        return Some((rest, Goals::Two(entries, Goal::AfterKey(at))));
    }
    if let Some((rest, adjacent)) = behind_key(true, at.indent, in_brackets, text, guide) {
        return Some((rest, Goals::One(Goal::Value(at, adjacent))));
    }
    if in_brackets {
        return None;
    }
    let rest = behind_leaf(text, true, at.indent)?;
    guide.pass();
    guide.pass();
    Some((rest, Goals::None))
}

/// After a collection that is a key.
pub(crate) fn after_key<'a>(at: Flow, text: &'a str, guide: &mut Guide<'a>) -> Option<Step<'a>>
    ensures { spec.Steps (variant.AfterKey at) (chars text.now) result }
{
    if let Some(rest) = strip(behind_blanks(text), ':') {
        return Some((rest, Goals::One(Goal::Value(at, true))));
    }
    if let Some(rest) = strip(behind_separation(text, at.indent), ':') {
        return Some((rest, Goals::One(Goal::Value(at, false))));
    }
    guide.pass();
    Some((text, Goals::None))
}

/// What follows a colon.
pub(crate) fn value<'a>(
    at: Flow,
    adjacent: bool,
    text: &'a str,
    guide: &mut Guide<'a>,
) -> Option<Step<'a>>
    ensures { spec.Steps (variant.Value at adjacent) (chars text.now) result }
{
    if guide.hint().is_left_out() {
        guide.pass();
        return Some((text, Goals::None));
    }
    let rest = behind_separation(text, at.indent);
    if adjacent {
        return Some((rest, Goals::One(Goal::Node(at))));
    }
    if is_past(text, rest) {
        return Some((rest, Goals::One(Goal::Node(at))));
    }
    None
}
