//! A table of nodes that grows event by event. A node gets its number when it begins.
ghost use Rattle.std.specs.Prelude.{◌≡◌, ◌↔◌, IsTrue, [], OnOk, option_map};
ghost use Rattle.std.specs.Cow.{cow_str_bytes};
ghost use Rattle.saphyr_parser.specs.Views.Events.{happening, resolved_tag};
ghost use Rattle.saphyr_scalar.specs.declared.scalar.position.Span.{Span as PlaceSpan};
ghost use Rattle.saphyr_parser.specs.Events as told;
ghost use Rattle.yaml_tree.specs.GrowerSeen as seen;
ghost use Rattle.yaml_tree.specs.Tables as spec;

use crate::expanding::Counter;
use crate::table::{Content, Entry, Mark, NodeTable, Root, Row, narrow};
use saphyr_parser::{Event, ScalarStyle, Span, Tag};
use std::alloc::{AllocError, Global};
use std::borrow::CowStr;

// A collection that is open: its number, and how many numbers of parts around it wait.
#[derive(Clone, Copy)]
pub(crate) struct Level {
    number: usize,
    waiting: usize,
}

/// The table so far, and what is open.
#[derive(Drop)]
pub(crate) struct Growth {
    alloc: Global,
    pub(crate) table: NodeTable,
    /// The collections that are open, the outermost first.
    levels: Vec<Level>,
    /// The numbers of the parts so far of what is open, or of the document's root.
    waiting: Vec<u32>,
    counter: Counter,
}

impl Growth {
    pub(crate) fn new(alloc: Global) -> Growth
        ensures { seen.HasGrown [] result }
    {
        let table = NodeTable::new(alloc);
        let levels = Vec::new(alloc);
        let waiting = Vec::new(alloc);
        let counter = Counter::new(alloc);
        Growth {
            alloc,
            table,
            levels,
            waiting,
            counter,
        }
    }

    // Whether no document is open.
    #[inline(always)]
    pub(crate) fn is_between(&self) -> bool
        ensures { IsTrue result ↔ seen.HasNoneOpen self.now }
    {
        self.levels.is_empty() && self.waiting.is_empty()
    }

    // Takes the next event. After an error no more may be taken.
    #[inline(always)]
    pub(crate) fn add(&mut self, event: &Event, span: Span) -> Result<(), AllocError>
        ensures adds { OnOk result (seen.AddsEvent (happening event.now, span) self.old self.new) }
        ensures ends { happening event.now ≡ told.DocumentEnd
            → OnOk result (seen.HasNoneOpen self.new) }
    {
        match event {
            Event::Alias(id) => self.add_alias(*id, span),
            Event::Scalar(text, style, id, tag) => {
                self.add_scalar(bytes_of(text), *style, *id, tag, span)
            }
            Event::SequenceStart(id, tag) => self.begin_sequence(*id, tag, span),
            Event::MappingStart(id, tag) => self.begin_mapping(*id, tag, span),
            Event::SequenceEnd => self.end(span),
            Event::MappingEnd => self.end(span),
            Event::DocumentEnd => self.end_document(),
            Event::Nothing => self.pass(),
            Event::StreamStart => self.pass(),
            Event::StreamEnd => self.pass(),
            Event::DocumentStart(_) => self.pass(),
        }
    }

    // Passes an event between documents.
    fn pass(&self) -> Result<(), AllocError>
        ensures { OnOk result ((h : told.Happening) (span : PlaceSpan) → spec.IsBeside h
            → seen.AddsEvent (h, span) self.now self.now) }
    {
        self.stay()
    }

    // No document is open. No parser gives an event that says so elsewhere.
    fn stay(&self) -> Result<(), AllocError>
        ensures { OnOk result (seen.HasNoneOpen self.now) }
    {
        if self.is_between() {
            Ok(())
        } else {
            Err(AllocError)
        }
    }

    #[inline(always)]
    fn add_alias(&mut self, id: usize, span: Span) -> Result<(), AllocError>
        ensures { OnOk result (seen.AddsEvent (told.Alias id, span) self.old self.new) }
    {
        let nodes = self.counter.size_of(id);
        self.add_leaf(Content::Alias(narrow(id)?), 0, nodes, span)
    }

    #[inline(always)]
    fn add_scalar(
        &mut self,
        text: &[u8],
        style: ScalarStyle,
        id: usize,
        tag: &Option<Tag>,
        span: Span,
    ) -> Result<(), AllocError>
        ensures { OnOk result (seen.AddsEvent
            (told.Scalar text.now style id (option_map resolved_tag tag.now), span)
            self.old self.new) }
    {
        let text = self.table.keep_text(text)?;
        let properties = self.table.keep(id, tag)?;
        self.add_leaf(Content::Scalar(style, text, properties), id, 1, span)
    }

    // Adds a node that is complete: its anchor, and how many nodes it has once it is expanded.
    #[inline(always)]
    fn add_leaf(
        &mut self,
        content: Content,
        id: usize,
        nodes: u64,
        span: Span,
    ) -> Result<(), AllocError>
        ensures { OnOk result ((h : told.Happening) → spec.IsLeafEvent h
            → spec.TellsFirst (spec.store_of self.old.table) content h
            → seen.CountsExpanded h id nodes self.old.counter → seen.AddsEvent (h, span) self.old self.new) }
    {
        self.push_leaf(content, span)?;
        self.counter.add(id, nodes)
    }

    // Adds the entry of a node that is complete. Its number waits.
    #[inline(always)]
    fn push_leaf(&mut self, content: Content, span: Span) -> Result<(), AllocError>
        ensures { OnOk result (seen.AddsLeaf content span self.old self.new) }
    {
        let number = narrow(self.table.entries.len())?;
        let start = Mark::of(span.start)?;
        let end = Mark::of(span.end)?;
        self.table.entries.push(Entry {
            content,
            start,
            end,
        })?;
        self.waiting.push(number)?;
        Ok(())
    }

    #[inline(always)]
    fn begin_sequence(&mut self, id: usize, tag: &Option<Tag>, span: Span) -> Result<(), AllocError>
        ensures { OnOk result (seen.AddsEvent
            (told.SequenceStart id (option_map resolved_tag tag.now), span) self.old self.new) }
    {
        let properties = self.table.keep(id, tag)?;
        self.begin(Content::Sequence(NO_PARTS, properties), id, span)
    }

    #[inline(always)]
    fn begin_mapping(&mut self, id: usize, tag: &Option<Tag>, span: Span) -> Result<(), AllocError>
        ensures { OnOk result (seen.AddsEvent
            (told.MappingStart id (option_map resolved_tag tag.now), span) self.old self.new) }
    {
        let properties = self.table.keep(id, tag)?;
        self.begin(Content::Mapping(NO_PARTS, properties), id, span)
    }

    // A collection with this anchor begins.
    #[inline(always)]
    fn begin(&mut self, content: Content, id: usize, span: Span) -> Result<(), AllocError>
        ensures { OnOk result ((h : told.Happening) → spec.IsStart h → spec.id_of_anchor h ≡ id
            → spec.TellsFirst (spec.store_of self.old.table) content h
            → seen.AddsEvent (h, span) self.old self.new) }
    {
        self.push_level(content, span)?;
        self.counter.begin(id)
    }

    // Adds the entry of a collection, which is open.
    #[inline(always)]
    fn push_level(&mut self, content: Content, span: Span) -> Result<(), AllocError>
        ensures { OnOk result (seen.OpensLevel content span self.old self.new) }
    {
        let start = Mark::of(span.start)?;
        let number = self.table.entries.len();
        let waiting = self.waiting.len();
        self.levels.push(Level { number, waiting })?;
        self.table.entries.push(Entry {
            content,
            start,
            end: start,
        })?;
        Ok(())
    }

    // The innermost collection ends.
    #[inline(always)]
    fn end(&mut self, span: Span) -> Result<(), AllocError>
        ensures { OnOk result ((h : told.Happening) → spec.IsEnd h
            → seen.AddsEvent (h, span) self.old self.new) }
    {
        self.pop_level(span)?;
        self.counter.leave()
    }

    // Gives the innermost collection its parts. Their numbers no longer wait, and its own does.
    #[inline(always)]
    fn pop_level(&mut self, span: Span) -> Result<(), AllocError>
        ensures { OnOk result (seen.EndsLevel span self.old self.new) }
    {
        let end = Mark::of(span.end)?;
        let Some(level) = self.levels.pop() else {
            return Err(AllocError);
        };
        let number = narrow(level.number)?;
        let first = narrow(self.table.parts.len())?;
        let Some(parts) = self.waiting.get(level.waiting..) else {
            return Err(AllocError);
        };
        let count = narrow(parts.len())?;
        self.table.parts.extend_from_slice(parts)?;
        self.waiting.truncate(level.waiting);
        self.waiting.push(number)?;
        self.table.close(level.number, Row { first, count }, end)
    }

    // The document ends.
    fn end_document(&mut self) -> Result<(), AllocError>
        ensures adds { OnOk result ((span : PlaceSpan)
            → seen.AddsEvent (told.DocumentEnd, span) self.old self.new) }
        ensures between { OnOk result (seen.HasNoneOpen self.new) }
    {
        self.pop_root()
    }

    // The number of the document's root no longer waits.
    fn pop_root(&mut self) -> Result<(), AllocError>
        ensures { OnOk result (seen.EndsDocument self.old self.new) }
    {
        let Some(number) = self.waiting.pop() else {
            return Err(AllocError);
        };
        self.stay()?;
        self.table.roots.push(Root {
            number: number as usize,
            expanded: self.counter.nodes,
        })?;
        self.counter = Counter::new(self.alloc);
        Ok(())
    }
}

const NO_PARTS: Row = Row { first: 0, count: 0 };

// The text of a scalar.
#[inline(always)]
fn bytes_of<'a>(text: &'a CowStr<'_>) -> &'a [u8]
    ensures { result.now ≡ cow_str_bytes text.now }
{
    match text {
        CowStr::Borrowed(text) => text.as_bytes(),
        CowStr::Owned(text) => text.as_bytes(),
    }
}
