//! Trees as one list of nodes that are known by their numbers, for callers that can't hold references into a tree
//! (YAML 1.2.2, 3.2.1).
ghost use Rattle.std.specs.Prelude.{◌≡◌, ◌<◌, ◌+◌, ◌*◌, ℕ, suc, true, false, IfOk, List, None as none, option_copied, slice_get};
ghost use Rattle.saphyr_parser.specs.Events.{Happening as Told};
ghost use Rattle.yaml_tree.specs.Tables as spec;

use crate::paths::Step;
use saphyr_parser::{Marker, ScalarStyle};
use std::alloc::{AllocError, Global};

/// A place of a text, as a `Marker` is, in half the memory.
#[derive(Clone, Copy)]
pub struct Mark {
    index: u32,
    line: u32,
    col: u32,
}

/// Numbers in a row, or bytes of a text: where they begin in the table's, and how many there are.
#[derive(Clone, Copy)]
pub struct Row {
    pub first: u32,
    pub count: u32,
}

/// What a node is. The last number of a scalar or a collection is that of its properties, or 0 if it has none.
#[derive(Clone, Copy)]
pub enum Content {
    /// The id of the anchor that an alias names.
    Alias(u32),
    /// How a scalar is written, and its text.
    Scalar(ScalarStyle, Row, u32),
    /// The numbers of a sequence's nodes.
    Sequence(Row, u32),
    /// The numbers of a mapping's nodes, keys and values in turn.
    Mapping(Row, u32),
}

/// A node, where it starts and where it ends.
#[derive(Clone, Copy)]
pub struct Entry {
    pub content: Content,
    pub start: Mark,
    pub end: Mark,
}

/// The texts of a tag.
#[derive(Clone, Copy)]
pub struct TagRows {
    pub handle: Row,
    pub suffix: Row,
}

/// The id of a node's anchor, or 0, and its tag.
#[derive(Clone, Copy)]
pub(crate) struct Properties {
    pub(crate) anchor: u32,
    pub(crate) tag: Option<TagRows>,
}

/// The root of a document: its number, and how many nodes the document has once its aliases are expanded.
#[derive(Clone, Copy)]
pub struct Root {
    pub number: usize,
    pub expanded: u64,
}

/// The nodes of documents in the order in which they begin, each known by its number. A number that no node has leads
/// nowhere.
#[derive(Drop)]
pub struct NodeTable {
    pub(crate) entries: Vec<Entry>,
    /// The numbers of each collection's parts in a row.
    pub(crate) parts: Vec<u32>,
    /// The texts of scalars and of tags, in UTF-8.
    pub(crate) texts: Vec<u8>,
    /// Those of the nodes that have any.
    pub(crate) properties: Vec<Properties>,
    pub(crate) roots: Vec<Root>,
    /// The numbers of nodes with anchors, where the ids of these are in a row, and the first id.
    pub(crate) anchored: Vec<u32>,
    pub(crate) first_anchor: usize,
}

impl Mark {
    // The place, if it fits.
    pub(crate) fn of(marker: Marker) -> Result<Mark, AllocError>
        ensures { IfOk result (λ mark. spec.marker_of mark ≡ marker) }
    {
        Ok(Mark {
            index: narrow(marker.index)?,
            line: narrow(marker.line)?,
            col: narrow(marker.col)?,
        })
    }

    /// The same place.
    #[must_use]
    pub fn marker(self) -> Marker
        ensures { result ≡ spec.marker_of self }
    {
        Marker::new(self.index as usize, self.line as usize, self.col as usize)
    }
}

// The number in half the memory, if it fits. There is no table of a text with larger ones.
pub(crate) fn narrow(number: usize) -> Result<u32, AllocError>
    ensures { IfOk result (λ narrowed. narrowed ≡ number) }
{
    match u32::try_from(number) {
        Ok(narrowed) => Ok(narrowed),
        Err(_) => Err(AllocError),
    }
}

impl NodeTable {
    /// A table without nodes.
    pub fn new(alloc: Global) -> NodeTable
        ensures { spec.IsEmptyTable result }
    {
        NodeTable {
            entries: Vec::new(alloc),
            parts: Vec::new(alloc),
            texts: Vec::new(alloc),
            properties: Vec::new(alloc),
            roots: Vec::new(alloc),
            anchored: Vec::new(alloc),
            first_anchor: 0,
        }
    }

    /// The node with this number.
    #[must_use]
    pub fn entry(&self, number: usize) -> Option<&Entry>
        ensures { option_copied result ≡ slice_get self.now.entries.items number }
    {
        self.entries.get(number)
    }

    /// The root of the document with this index, from 0.
    #[must_use]
    pub fn root(&self, index: usize) -> Option<Root>
        ensures { result ≡ slice_get self.now.roots.items index }
    {
        Some(*self.roots.get(index)?)
    }

    /// The bytes of a text.
    #[must_use]
    pub fn text(&self, row: Row) -> &[u8]
        ensures { (text : List ℕ) → spec.StandIn text row self.now.texts.items
            → result.now ≡ text }
    {
        let first = row.first as usize;
        match self.texts.get(first..first + row.count as usize) {
            Some(text) => text,
            None => &[],
        }
    }

    /// The id of the anchor that a node with these properties has, or 0.
    #[must_use]
    pub fn anchor(&self, properties: u32) -> usize
        ensures { (id : ℕ) (tag : spec.MaybeTag) → spec.HasProperties self.now properties id tag
            → result ≡ id }
    {
        match self.find_properties(properties) {
            Some(properties) => properties.anchor as usize,
            None => 0,
        }
    }

    /// The tag that a node with these properties has.
    #[must_use]
    pub fn tag(&self, properties: u32) -> Option<TagRows>
        ensures { (id : ℕ) (tag : spec.MaybeTag) → spec.HasProperties self.now properties id tag
            → spec.HasTagRows self.now.texts.items result tag }
    {
        self.find_properties(properties)?.tag
    }

    fn find_properties(&self, number: u32) -> Option<Properties>
        ensures none { number ≡ 0 → result ≡ none }
        ensures some { (n : ℕ) → number ≡ suc n
            → result ≡ slice_get self.now.properties.items n }
    {
        let before = (number as usize).checked_sub(1)?;
        Some(*self.properties.get(before)?)
    }

    /// How many items a sequence has, or how many pairs a mapping.
    #[must_use]
    pub fn count(&self, number: usize) -> usize
        ensures counts { spec.OfNode self.now number (λ own. spec.CountsParts own result) }
        ensures no_node { spec.HasNoNode number self.now → result ≡ 0 }
    {
        match self.entry(number) {
            Some(entry) => match entry.content {
                Content::Sequence(row, _) => row.count as usize,
                Content::Mapping(row, _) => row.count as usize / 2,
                _ => 0,
            },
            None => 0,
        }
    }

    /// The number of a part.
    #[must_use]
    pub fn part(&self, number: usize, step: Step) -> Option<usize>
        ensures leads { spec.OfNode self.now number (λ own. spec.HasNumber own number step result) }
        ensures no_node { spec.HasNoNode number self.now → result ≡ none }
    {
        match self.entry(number)?.content {
            Content::Sequence(row, _) => match step {
                Step::Index(index) => self.in_row(row, index),
                _ => None,
            },
            Content::Mapping(row, _) => match step {
                Step::Key(index) => self.in_pair(row, index, 0),
                Step::Value(index) => self.in_pair(row, index, 1),
                Step::Index(_) => None,
            },
            _ => None,
        }
    }

    // The number behind so many others of a row.
    fn in_row(&self, row: Row, before: usize) -> Option<usize>
        ensures { (numbers : List ℕ) → spec.StandIn numbers row self.now.parts.items
            → result ≡ slice_get numbers before }
    {
        if before < row.count as usize {
            Some(*self.parts.get(row.first as usize + before)? as usize)
        } else {
            None
        }
    }

    // The number of the key of the pair with this index, or one more on, of its value.
    fn in_pair(&self, row: Row, index: usize, more: usize) -> Option<usize>
        requires { more < 2 }
        ensures { (numbers : List ℕ) → spec.StandIn numbers row self.now.parts.items
            → result ≡ slice_get numbers (2 * index + more) }
    {
        if index < row.count as usize {
            self.in_row(row, 2 * index + more)
        } else {
            None
        }
    }

    /// The number of a node with this anchor. In documents of one text there is at most one.
    #[must_use]
    pub fn with_anchor(&self, id: usize) -> Option<usize>
        ensures { (es : List spec.Event) → spec.IsTable es self.now
            → spec.FindsNumber es id result }
    {
        if id == 0 {
            return None;
        }
        if let Some(number) = self.expected_at(id) {
            if self.has_anchor(number, id) {
                return Some(number);
            }
        }
        for number in 0..self.entries.len() {
            if self.has_anchor(number, id) {
                return Some(number);
            }
        }
        None
    }

    // The number of the node with this anchor, where the ids of the table's anchors are numbers in a row.
    fn expected_at(&self, id: usize) -> Option<usize> {
        let index = id.checked_sub(self.first_anchor)?;
        Some(*self.anchored.get(index)? as usize)
    }

    // Whether there is a node with this number, and it has this anchor.
    fn has_anchor(&self, number: usize, id: usize) -> bool
        ensures here { result ≡ true → (es : List spec.Event) → spec.IsTable es self.now
            → (own : List spec.Event) × spec.IsNodeAt es number own × (spec.anchor_in own ≡ id) }
        ensures not_here { result ≡ false → (es own : List spec.Event) → spec.IsTable es self.now
            → spec.IsNodeAt es number own → spec.anchor_in own ≡ id → id ≡ 0 }
    {
        match self.entry(number) {
            Some(entry) => self.tells_anchor(entry.content, id),
            None => false,
        }
    }

    // Whether the node of a content has this anchor.
    fn tells_anchor(&self, content: Content, id: usize) -> bool
        ensures { (h : Told) → spec.TellsFirst (spec.store_of self.now) content h
            → spec.TellsAnchor id (spec.id_of_anchor h) result }
    {
        match content {
            Content::Alias(_) => false,
            Content::Scalar(_, _, properties) => self.anchor(properties) == id,
            Content::Sequence(_, properties) => self.anchor(properties) == id,
            Content::Mapping(_, properties) => self.anchor(properties) == id,
        }
    }
}
