//! Trees that grow event by event.
ghost use Rattle.std.specs.Prelude.{◌≡◌, [], ◌∷◌, Some};
ghost use Rattle.saphyr_parser.specs.Events as events;
ghost use Rattle.saphyr_parser.specs.Views.Events.{happening};
ghost use Rattle.yaml_tree.specs.Unloading.{node_events};
ghost use Rattle.yaml_tree.specs.OpenSeen.{open_events, place_of};
ghost use Rattle.saphyr_parser.specs.Nesting.{nest_before_stream, place_behind_node, with_next_place, nest_inside};

use crate::document::Document;
use crate::fault::TreeFault;
use crate::node::Node;
use crate::open::Open;
use saphyr_parser::Event;
use std::alloc::Global;
use std::mem;

/// The documents of the events so far, and what has not ended, the outermost first.
#[derive(Drop)]
pub(crate) struct Builder {
    alloc: Global,
    outer: Vec<Open>,
    innermost: Open,
}

impl Builder {
    ghost use Rattle.yaml_tree.specs.BuilderSeen.{builder_events, nest_of, Grows, Follows, HandsOutInnermost, Finishes};
    ghost use Rattle.yaml_tree.specs.DocumentSeen.{nest_in_stream, HoldsLast};

    pub(crate) fn new(alloc: Global) -> Builder
        ensures written { builder_events result ≡ [] }
        ensures nested { nest_of result ≡ nest_before_stream }
    {
        Builder {
            alloc,
            outer: Vec::new(alloc),
            innermost: Open::Nothing,
        }
    }

    // A builder that has taken the stream's start.
    pub(crate) fn in_stream(alloc: Global) -> Builder
        ensures written { builder_events result ≡ events.StreamStart ∷ [] }
        ensures nested { nest_of result ≡ nest_in_stream }
    {
        Builder {
            alloc,
            outer: Vec::new(alloc),
            innermost: Open::Stream(Vec::new(alloc)),
        }
    }

    // Takes the next event. After an error no more may be taken.
    pub(crate) fn take(&mut self, event: Event) -> Result<(), TreeFault>
        ensures { Follows result (happening event.entry) self.old self.new }
    {
        match event {
            Event::Nothing => Err(TreeFault::NotFresh),
            Event::StreamStart => self.begin_stream(),
            Event::StreamEnd => self.end_stream(),
            Event::DocumentStart(explicit) => self.begin(Open::Document(explicit, None)),
            Event::DocumentEnd => self.end_document(),
            Event::Alias(id) => self.add(Node::Alias(id)),
            Event::Scalar(text, style, id, tag) => match text.into_owned(self.alloc) {
                Ok(text) => self.add(Node::Scalar(text, style, id, tag)),
                Err(_) => {
                    drop(tag);
                    Err(TreeFault::OutOfMemory)
                }
            },
            Event::SequenceStart(id, tag) => {
                self.begin(Open::Sequence(id, tag, Vec::new(self.alloc)))
            }
            Event::SequenceEnd => self.end_sequence(),
            Event::MappingStart(id, tag) => {
                self.begin(Open::Mapping(id, tag, Vec::new(self.alloc), None))
            }
            Event::MappingEnd => self.end_mapping(),
        }
    }

    // The documents of a stream that has ended.
    pub(crate) fn finish(self) -> Result<Vec<Document>, TreeFault>
        ensures { Finishes result self }
    {
        if !self.outer.is_empty() {
            drop(self);
            return Err(TreeFault::NotFresh);
        }
        self.innermost.into_documents()
    }

    // The document that has ended last, or none if the stream has ended.
    pub(crate) fn last_document(self) -> Result<Option<Document>, TreeFault>
        ensures { HoldsLast result self }
    {
        if !self.outer.is_empty() {
            drop(self);
            return Err(TreeFault::NotFresh);
        }
        self.innermost.into_last_document()
    }

    fn begin_stream(&mut self) -> Result<(), TreeFault>
        ensures { Follows result events.StreamStart self.old self.new }
    {
        let stream = mem::replace(&mut self.innermost, Open::Nothing);
        let begun = stream.begun(self.alloc)?;
        drop(mem::replace(&mut self.innermost, begun));
        Ok(())
    }

    fn end_stream(&mut self) -> Result<(), TreeFault>
        ensures { Follows result events.StreamEnd self.old self.new }
    {
        let stream = mem::replace(&mut self.innermost, Open::Nothing);
        let ended = stream.ended()?;
        drop(mem::replace(&mut self.innermost, ended));
        Ok(())
    }

    fn end_document(&mut self) -> Result<(), TreeFault>
        ensures { Follows result events.DocumentEnd self.old self.new }
    {
        let document = self.end()?.into_document()?;
        let stream = mem::replace(&mut self.innermost, Open::Nothing);
        let longer = stream.with_document(document)?;
        drop(mem::replace(&mut self.innermost, longer));
        Ok(())
    }

    fn end_sequence(&mut self) -> Result<(), TreeFault>
        ensures { Follows result events.SequenceEnd self.old self.new }
    {
        let node = self.end()?.into_sequence()?;
        self.add(node)
    }

    fn end_mapping(&mut self) -> Result<(), TreeFault>
        ensures { Follows result events.MappingEnd self.old self.new }
    {
        let node = self.end()?.into_mapping()?;
        self.add(node)
    }

    // Adds a node that is complete.
    fn add(&mut self, node: Node) -> Result<(), TreeFault>
        ensures { Grows result (node_events node)
            (with_next_place place_behind_node (nest_of self.old)) self.old self.new }
    {
        self.innermost.add(node)
    }

    // Begins a document or a collection.
    fn begin(&mut self, inner: Open) -> Result<(), TreeFault>
        ensures { let nest = nest_inside (place_of inner) (nest_of self.old) in
            Grows result (open_events inner) (Some nest) self.old self.new }
    {
        let around = mem::replace(&mut self.innermost, inner);
        match self.outer.push(around) {
            Ok(()) => Ok(()),
            Err(fault) => {
                drop(fault);
                Err(TreeFault::OutOfMemory)
            }
        }
    }

    // Hands out the document or collection that has begun last.
    fn end(&mut self) -> Result<Open, TreeFault>
        ensures { HandsOutInnermost result self.old self.new }
    {
        match self.outer.pop() {
            Some(around) => Ok(mem::replace(&mut self.innermost, around)),
            None => Err(TreeFault::NotFresh),
        }
    }
}
