//! A stream, a document or a collection that has begun and not ended. Where one is dropped, the code says so by a call:
//! a drop at the end of a scope takes several times as long to prove.
ghost use Rattle.std.specs.Prelude.{[], ◌∷◌};
ghost use Rattle.saphyr_parser.specs.Events.{StreamStart, StreamEnd, DocumentEnd, SequenceEnd, MappingEnd};
ghost use Rattle.yaml_tree.specs.Unloading.{node_events, document_events};
ghost use Rattle.saphyr_parser.specs.Nesting as nesting;

use crate::document::Document;
use crate::fault::TreeFault;
use crate::node::Node;
use saphyr_parser::Tag;
use std::alloc::Global;
use std::mem;

/// A stream, a document or a collection with its parts that are complete.
#[derive(Drop)]
pub(crate) enum Open {
    /// The stream has not begun.
    Nothing,
    Stream(Vec<Document>),
    /// A document, whether a `---` begins it, and its node.
    Document(bool, Option<Node>),
    Sequence(usize, Option<Tag>, Vec<Node>),
    /// A mapping, with its pairs and a key that has no value yet.
    Mapping(usize, Option<Tag>, Vec<(Node, Node)>, Option<Node>),
    /// The stream has ended.
    Ended(Vec<Document>),
}

impl Open {
    ghost use Rattle.yaml_tree.specs.OpenSeen.{place_of, GrowsBy, GrowsInPlace, EndsWhole, Completes};
    ghost use Rattle.yaml_tree.specs.DocumentSeen.{IsLastOf};

    // The stream that begins.
    pub(crate) fn begun(self, alloc: Global) -> Result<Open, TreeFault>
        ensures { GrowsBy result (StreamStart ∷ [])
            (nesting.place_behind_stream_start (place_of self)) self }
    {
        match self {
            Open::Nothing => Ok(Open::Stream(Vec::new(alloc))),
            other => {
                drop(other);
                Err(TreeFault::NotFresh)
            }
        }
    }

    // The stream that ends.
    pub(crate) fn ended(self) -> Result<Open, TreeFault>
        ensures { GrowsBy result (StreamEnd ∷ [])
            (nesting.place_behind_stream_end (place_of self)) self }
    {
        match self {
            Open::Stream(documents) => Ok(Open::Ended(documents)),
            other => {
                drop(other);
                Err(TreeFault::NotFresh)
            }
        }
    }

    // What is open, with one more document.
    pub(crate) fn with_document(self, document: Document) -> Result<Open, TreeFault>
        ensures { GrowsBy result (document_events document)
            (nesting.place_behind_document (place_of self)) self }
    {
        match self {
            Open::Stream(mut documents) => match documents.push(document) {
                Ok(()) => Ok(Open::Stream(documents)),
                Err(fault) => {
                    drop((fault, documents));
                    Err(TreeFault::OutOfMemory)
                }
            },
            other => {
                drop((other, document));
                Err(TreeFault::NotFresh)
            }
        }
    }

    // Adds a node that is complete. After an error no more may be added.
    pub(crate) fn add(&mut self, node: Node) -> Result<(), TreeFault>
        ensures { GrowsInPlace result (node_events node)
            (nesting.place_behind_node (place_of self.old)) self.old self.new }
    {
        match self {
            Open::Document(_, root) if root.is_none() => {
                drop(mem::replace(root, Some(node)));
                Ok(())
            }
            Open::Sequence(_, _, nodes) => match nodes.push(node) {
                Ok(()) => Ok(()),
                Err(fault) => {
                    drop(fault);
                    Err(TreeFault::OutOfMemory)
                }
            },
            Open::Mapping(_, _, pairs, key) => match key.take() {
                None => {
                    drop(mem::replace(key, Some(node)));
                    Ok(())
                }
                Some(first) => match pairs.push((first, node)) {
                    Ok(()) => Ok(()),
                    Err(fault) => {
                        drop(fault);
                        Err(TreeFault::OutOfMemory)
                    }
                },
            },
            _ => {
                drop(node);
                Err(TreeFault::NotFresh)
            }
        }
    }

    // The document that ends.
    pub(crate) fn into_document(self) -> Result<Document, TreeFault>
        ensures { EndsWhole document_events result DocumentEnd nesting.BehindRoot self }
    {
        match self {
            Open::Document(explicit, Some(root)) => Ok(Document { explicit, root }),
            other => {
                drop(other);
                Err(TreeFault::NotFresh)
            }
        }
    }

    // The sequence that ends.
    pub(crate) fn into_sequence(self) -> Result<Node, TreeFault>
        ensures { EndsWhole node_events result SequenceEnd nesting.InSequence self }
    {
        match self {
            Open::Sequence(id, tag, nodes) => Ok(Node::Seq(id, tag, nodes)),
            other => {
                drop(other);
                Err(TreeFault::NotFresh)
            }
        }
    }

    // The mapping that ends.
    pub(crate) fn into_mapping(self) -> Result<Node, TreeFault>
        ensures { EndsWhole node_events result MappingEnd nesting.BeforeKey self }
    {
        match self {
            Open::Mapping(id, tag, pairs, None) => Ok(Node::Map(id, tag, pairs)),
            other => {
                drop(other);
                Err(TreeFault::NotFresh)
            }
        }
    }

    // The documents of a stream that has ended.
    pub(crate) fn into_documents(self) -> Result<Vec<Document>, TreeFault>
        ensures { Completes result self }
    {
        match self {
            Open::Ended(documents) => Ok(documents),
            other => {
                drop(other);
                Err(TreeFault::NotFresh)
            }
        }
    }

    // The document that has ended last, or none if the stream has ended.
    pub(crate) fn into_last_document(self) -> Result<Option<Document>, TreeFault>
        ensures { IsLastOf result self }
    {
        match self {
            Open::Stream(mut documents) => {
                let last = documents.pop();
                drop(documents);
                Ok(last)
            }
            Open::Ended(documents) => {
                drop(documents);
                Ok(None)
            }
            other => {
                drop(other);
                Err(TreeFault::NotFresh)
            }
        }
    }
}
