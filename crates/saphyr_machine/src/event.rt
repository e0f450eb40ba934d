//! Events: the serialization of a text's nodes (YAML 1.2.2, 3.2.2).

ghost use Rattle.std.specs.Prelude.{◌≡◌, false, IfOk, option_map};
ghost use Rattle.saphyr_machine.specs.EventParts as parts;
ghost use Rattle.saphyr_machine.specs.Views.Events.{happening, resolved_tag, restyled, has_tag};

use crate::tag::Tag;
use saphyr_scalar::ScalarStyle;
use std::alloc::AllocError;
use std::borrow::CowStr;
use std::mem::{forget, replace};

/// An event of a text. Together they are the stream, its documents, and the nodes of these in preorder.
///
/// The number of a node is the id of its anchor, or 0 if it has none.
#[derive(Debug, PartialEq, Eq, Drop)]
pub enum Event<'input> {
    /// No event. A parser never gives it.
    Nothing,
    /// The first event of a text.
    StreamStart,
    /// The last event of a text.
    StreamEnd,
    /// A document begins. `true` says that it begins with a `---`.
    DocumentStart(bool),
    /// A document ends.
    DocumentEnd,
    /// An alias of the node whose anchor has this id.
    Alias(usize),
    /// A scalar: its text, how it is written, its anchor id and its tag.
    Scalar(CowStr<'input>, ScalarStyle, usize, Option<Tag>),
    /// A sequence begins: its anchor id and its tag.
    SequenceStart(usize, Option<Tag>),
    /// The innermost sequence ends.
    SequenceEnd,
    /// A mapping begins: its anchor id and its tag. Its keys and values take turns.
    MappingStart(usize, Option<Tag>),
    /// The innermost mapping ends.
    MappingEnd,
}

impl<'input> Event<'input> {
    ghost use Rattle.saphyr_machine.specs.declared.event.Event.TheVariants.{Nothing};

    /// An equal event, unless memory runs out.
    pub fn try_clone(&self) -> Result<Event<'input>, AllocError>
        ensures { IfOk result (λ event. happening event ≡ happening self.now) }
    {
        match self {
            Event::Nothing => Ok(Event::Nothing),
            Event::StreamStart => Ok(Event::StreamStart),
            Event::StreamEnd => Ok(Event::StreamEnd),
            Event::DocumentStart(explicit) => Ok(Event::DocumentStart(*explicit)),
            Event::DocumentEnd => Ok(Event::DocumentEnd),
            Event::Alias(id) => Ok(Event::Alias(*id)),
            Event::Scalar(text, style, id, tag) => {
                let text = text.clone()?;
                match try_clone_any(tag) {
                    Ok(tag) => Ok(Event::Scalar(text, *style, *id, tag)),
                    Err(e) => {
                        drop(text);
                        Err(e)
                    }
                }
            }
            Event::SequenceStart(id, tag) => Ok(Event::SequenceStart(*id, try_clone_any(tag)?)),
            Event::SequenceEnd => Ok(Event::SequenceEnd),
            Event::MappingStart(id, tag) => Ok(Event::MappingStart(*id, try_clone_any(tag)?)),
            Event::MappingEnd => Ok(Event::MappingEnd),
        }
    }

    /// The tag of a node that has one.
    pub fn tag(&self) -> Option<&Tag>
        ensures { option_map (λ tag. resolved_tag tag.now) result
            ≡ parts.node_tag (happening self.now) }
    {
        match self {
            Event::Scalar(_, _, _, tag) => tag.as_ref(),
            Event::SequenceStart(_, tag) | Event::MappingStart(_, tag) => tag.as_ref(),
            _ => None,
        }
    }

    /// The id of a node's own anchor. An alias has none: its number is the id of another node's anchor.
    pub fn anchor_id(&self) -> Option<usize>
        ensures { result ≡ parts.node_anchor (happening self.now) }
    {
        match self {
            Event::Scalar(_, _, 0, _) | Event::SequenceStart(0, _) | Event::MappingStart(0, _) =>
                None,
            Event::Scalar(_, _, id, _) => Some(*id),
            Event::SequenceStart(id, _) | Event::MappingStart(id, _) => Some(*id),
            _ => None,
        }
    }

    /// Whether the stream, a document, a sequence or a mapping begins.
    pub fn is_start(&self) -> bool
        ensures { result ≡ parts.begins_part (happening self.now) }
    {
        matches!(
            self,
            Event::StreamStart
                | Event::DocumentStart(_)
                | Event::SequenceStart(..)
                | Event::MappingStart(..)
        )
    }

    /// Whether one of these ends.
    pub fn is_end(&self) -> bool
        ensures { result ≡ parts.ends_part (happening self.now) }
    {
        matches!(
            self,
            Event::StreamEnd | Event::DocumentEnd | Event::SequenceEnd | Event::MappingEnd
        )
    }

    // Whether it has a tag. A tag holds memory.
    #[inline(always)]
    fn is_tagged(&self) -> bool
        ensures { result ≡ has_tag self.now }
    {
        match self {
            Event::Scalar(_, _, _, tag) => tag.is_some(),
            Event::SequenceStart(_, tag) | Event::MappingStart(_, tag) => tag.is_some(),
            _ => false,
        }
    }

    // Drops what it holds.
    #[inline(never)]
    fn clear(&mut self)
        ensures { self.new ≡ Nothing }
    {
        drop(replace(self, Event::Nothing));
    }

    // Drops a tag, with the rest.
    #[inline(always)]
    pub(super) fn clear_tagged(&mut self)
        ensures { has_tag self.new ≡ false }
    {
        if self.is_tagged() {
            self.clear();
        }
    }

    // Gives a scalar another style, and no anchor.
    #[inline(always)]
    pub(super) fn restyle(&mut self, style: ScalarStyle)
        ensures { self.new ≡ restyled style self.old }
    {
        if let Event::Scalar(_, old, _, _) = self {
            *old = style;
        }
        if let Event::Scalar(_, _, id, _) = self {
            *id = 0;
        }
    }

    // Writes an event over one that holds no memory: it has no tag, and its text was taken out before. It is forgotten
    // for speed, since the code of a drop would read the whole event.
    #[inline(always)]
    pub(super) fn write_over_untagged(&mut self, event: Event<'input>)
        requires { has_tag self.old ≡ false }
        ensures { self.new ≡ event.entry }
    {
        forget(replace(self, event));
    }
}

/// An equal tag, if there is one.
fn try_clone_any(tag: &Option<Tag>) -> Result<Option<Tag>, AllocError>
    ensures { IfOk result (λ copy. option_map resolved_tag copy ≡ option_map resolved_tag tag.now) }
{
    match tag {
        Some(tag) => Ok(Some(tag.try_clone()?)),
        None => Ok(None),
    }
}
