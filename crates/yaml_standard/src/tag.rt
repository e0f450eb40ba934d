//! Tags, anchors and aliases (YAML 1.2.2, 6.9 and 7.1).
ghost use Rattle.std.specs.Str.{chars};
ghost use Rattle.yaml_standard.specs.NodeProperties as spec;
ghost use Rattle.yaml_standard.specs.Takes.{IfTakes};

use crate::directive::{behind_suffix, behind_uri};
use crate::front::strip;
use crate::names::{behind_anchor_name, behind_handle};
use crate::spaces::behind_gap;

/// What follows a tag: `!<uri>`, a handle and a suffix, or `!` alone.
pub(crate) fn behind_tag(text: &str) -> Option<&str>
    ensures { IfTakes spec.IsSomeTag (chars text.now) result }
{
    let mark = strip(text, '!')?;
    if let Some(uri) = strip(mark, '<') {
        let end = behind_uri(uri)?;
        return strip(end, '>');
    }
    let suffix = behind_handle(text)?;
    match behind_suffix(suffix) {
        None => Some(mark),
        Some(rest) => Some(rest),
    }
}

/// What follows an anchor.
pub(crate) fn behind_anchor(text: &str) -> Option<&str>
    ensures { IfTakes spec.IsSomeAnchor (chars text.now) result }
{
    let name = strip(text, '&')?;
    behind_anchor_name(name)
}

/// What follows an alias.
pub(crate) fn behind_alias(text: &str) -> Option<&str>
    ensures { IfTakes spec.IsSomeAlias (chars text.now) result }
{
    let name = strip(text, '*')?;
    behind_anchor_name(name)
}

// What follows a gap and a tag.
fn behind_second_tag(text: &str, indent: usize) -> Option<&str>
    ensures { IfTakes (spec.IsBehindGap indent spec.IsSomeTag) (chars text.now) result }
{
    let tag = behind_gap(text, indent)?;
    behind_tag(tag)
}

// What follows a gap and an anchor.
fn behind_second_anchor(text: &str, indent: usize) -> Option<&str>
    ensures { IfTakes (spec.IsBehindGap indent spec.IsSomeAnchor) (chars text.now) result }
{
    let anchor = behind_gap(text, indent)?;
    behind_anchor(anchor)
}

// What follows an anchor, and a tag if there is one after a gap.
fn behind_anchor_and_tag(text: &str, indent: usize) -> Option<&str>
    ensures { IfTakes (spec.IsSomeProperties indent) (chars text.now) result }
{
    let anchor = behind_anchor(text)?;
    match behind_second_tag(anchor, indent) {
        None => Some(anchor),
        Some(rest) => Some(rest),
    }
}

// What follows a tag, and an anchor if there is one after a gap.
fn behind_tag_and_anchor(text: &str, indent: usize) -> Option<&str>
    ensures { IfTakes (spec.IsSomeProperties indent) (chars text.now) result }
{
    let tag = behind_tag(text)?;
    match behind_second_anchor(tag, indent) {
        None => Some(tag),
        Some(rest) => Some(rest),
    }
}

/// What follows the properties of a node: an anchor, a tag, or both where a gap is between them.
pub(crate) fn behind_properties(text: &str, indent: usize) -> Option<&str>
    ensures { IfTakes (spec.IsSomeProperties indent) (chars text.now) result }
{
    match behind_anchor_and_tag(text, indent) {
        None => behind_tag_and_anchor(text, indent),
        Some(rest) => Some(rest),
    }
}
