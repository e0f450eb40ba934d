//! Nodes as C sees them: a number, and what is told of it.

ghost use Rattle.std.specs.Prelude.{◌≡◌, ℕ, None};
ghost use Rattle.saphyr_parser.specs.Events.{Happening as Told};
ghost use Rattle.yaml_tree.specs.Tables.{HasProperties, MaybeTag, TellsFirst, marker_of, store_of};
ghost use Rattle.saphyr_parser_c.specs.Shown.{HasFields, HasTag, fields_of_event};
ghost use Rattle.saphyr_parser_c.specs.Growing.{LoadsNextToC};
ghost use Rattle.saphyr_parser_c.specs.Trees as spec;

use crate::answer::write_fault;
use crate::inner::Inner;
use crate::shown::{CEvent, bare, blank, style_code};
use crate::source::Source;
use crate::status::Status;
use crate::texts::lent_bytes;
use saphyr_parser::{Marker, Progress};
use std::alloc::Global;
use yaml_tree::{Content, Entry, Limits, NodeTable, TreeFault, load_next_table, load_table};

/// The number of a node, or that of none.
pub fn number_of(node: Option<usize>) -> usize
    ensures { spec.IsNumberOf node result }
{
    match node {
        Some(number) => number,
        None => usize::MAX,
    }
}

/// Writes what a node is.
pub fn write_entry(table: &NodeTable, entry: Entry, out: &mut CEvent)
    ensures { (h : Told) → TellsFirst (store_of table.now) entry.content h
        → HasFields (fields_of_event h) (marker_of entry.start) (marker_of entry.end) out.new }
{
    let start = entry.start.marker();
    let end = entry.end.marker();
    match entry.content {
        Content::Alias(id) => {
            *out = bare(5, start, end);
            out.anchor = id as usize;
        }
        Content::Scalar(style, text, properties) => {
            *out = bare(6, start, end);
            out.style = style_code(style);
            out.value = lent_bytes(table.text(text));
            write_properties(table, properties, out);
        }
        Content::Sequence(_, properties) => {
            *out = bare(7, start, end);
            write_properties(table, properties, out);
        }
        Content::Mapping(_, properties) => {
            *out = bare(9, start, end);
            write_properties(table, properties, out);
        }
    }
}

// Writes the anchor and the tag of a node, where `out` has none.
fn write_properties(table: &NodeTable, properties: u32, out: &mut CEvent)
    ensures same { spec.IsSameButProperties out.old out.new }
    ensures anchor { (id : ℕ) (tag : MaybeTag) → HasProperties table.now properties id tag
        → out.new.anchor ≡ id }
    ensures tag { (id : ℕ) (tag : MaybeTag) → HasProperties table.now properties id tag
        → HasTag None out.old → HasTag tag out.new }
{
    out.anchor = table.anchor(properties);
    if let Some(tag) = table.tag(properties) {
        out.has_tag = 1;
        out.tag_handle = lent_bytes(table.text(tag.handle));
        out.tag_suffix = lent_bytes(table.text(tag.suffix));
    }
}

impl Inner {
    /// Loads all documents of a whole text. What was loaded before is dropped.
    pub fn load(&mut self, alloc: Global, limits: Limits, out: &mut CEvent) -> Status
        ensures { spec.LoadsToC limits self.old result out.new self.new }
    {
        self.table = NodeTable::new(alloc);
        let Source::Whole(parser) = &mut self.source else {
            *out = blank();
            return Status::Late;
        };
        match load_table(alloc, parser, limits) {
            Ok(table) => {
                self.put_table(table, out);
                Status::Done
            }
            Err(fault) => self.write_unloaded(alloc, fault, out),
        }
    }

    /// Loads the next document. What was loaded before is dropped.
    pub fn load_next(&mut self, alloc: Global, limits: Limits, out: &mut CEvent) -> Status
        ensures { LoadsNextToC limits self.old result out.new self.new }
    {
        self.table = NodeTable::new(alloc);
        let Source::Whole(parser) = &mut self.source else {
            return self.load_coming(alloc, limits, out);
        };
        match load_next_table(alloc, parser, limits) {
            Ok(Some(table)) => {
                self.put_table(table, out);
                Status::Loaded
            }
            Ok(None) => {
                *out = blank();
                Status::End
            }
            Err(fault) => self.write_unloaded(alloc, fault, out),
        }
    }

    // What was loaded becomes the parser's.
    pub(crate) fn put_table(&mut self, table: NodeTable, out: &mut CEvent)
        ensures table { self.new ≡ record self.old { table = table } }
        ensures empty { spec.IsEmptyEvent out.new }
    {
        self.table = table;
        *out = blank();
    }

    // Tells why nothing was loaded. A fault of the text is kept here until the next call.
    pub(crate) fn write_unloaded(
        &mut self,
        alloc: Global,
        why: TreeFault,
        out: &mut CEvent,
    ) -> Status
        ensures same { spec.KeepsButFault why self.old self.new }
        ensures writes { spec.WritesUnloaded why result out.new self.new }
    {
        match why {
            TreeFault::Parse(fault) => {
                self.fault = fault;
                self.progress = Progress::Fault;
                write_fault(alloc, &mut self.fault, out)
            }
            TreeFault::TooManyNodes(place, _) => write_place(place, out),
            TreeFault::TooDeep(place, _) => write_place(place, out),
            TreeFault::OutOfMemory => {
                *out = blank();
                Status::NoMemory
            }
            TreeFault::NotFresh => {
                *out = blank();
                Status::Late
            }
        }
    }

    /// Writes what a node is, if there is one with this number.
    pub fn write_node(&self, number: usize, out: &mut CEvent) -> Status
        ensures { spec.WritesNode number result out.new self.now.table }
    {
        match self.table.entry(number) {
            Some(entry) => {
                write_entry(&self.table, *entry, out);
                Status::Event
            }
            None => {
                *out = blank();
                Status::End
            }
        }
    }
}

// A limit is passed at this place.
fn write_place(place: Marker, out: &mut CEvent) -> Status
    ensures { spec.WritesPlace place result out.new }
{
    *out = bare(0, place, place);
    Status::TooLarge
}
