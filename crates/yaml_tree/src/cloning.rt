//! Copies of trees.
ghost use Rattle.std.specs.Prelude.{◌≡◌, IfOk, option_map};
ghost use Rattle.std.specs.List.{flat_map};
ghost use Rattle.saphyr_parser.specs.Views.Events.{resolved_tag};
ghost use Rattle.yaml_tree.specs.Unloading.{node_events, pair_events, document_events};

use crate::document::Document;
use crate::node::Node;
use saphyr_parser::Tag;
use std::alloc::AllocError;

impl Document {
    /// A document with the same events, unless memory runs out.
    pub fn try_clone(&self) -> Result<Document, AllocError>
        ensures { IfOk result (λ copy. document_events copy ≡ document_events self.now) }
    {
        Ok(Document {
            explicit: self.explicit,
            root: self.root.try_clone()?,
        })
    }
}

impl Node {
    /// A tree with the same events, unless memory runs out. It takes as much stack as the tree is deep.
    #[cycle(cloning)]
    pub fn try_clone(&self) -> Result<Node, AllocError>
        ensures { IfOk result (λ copy. node_events copy ≡ node_events self.now) }
    {
        match self {
            Node::Alias(id) => Ok(Node::Alias(*id)),
            Node::Scalar(text, style, id, tag) => {
                Ok(Node::Scalar(text.clone()?, *style, *id, copy_tag(tag)?))
            }
            Node::Seq(id, tag, nodes) => Ok(Node::Seq(*id, copy_tag(tag)?, copy_nodes(nodes)?)),
            Node::Map(id, tag, pairs) => Ok(Node::Map(*id, copy_tag(tag)?, copy_pairs(pairs)?)),
        }
    }
}

#[cycle(cloning)]
fn copy_nodes(nodes: &Vec<Node>) -> Result<Vec<Node>, AllocError>
    ensures { IfOk result (λ copy. flat_map node_events copy.items
        ≡ flat_map node_events nodes.now.items) }
{
    let mut copies = Vec::new(*nodes.allocator());
    for node in nodes {
        copies.push(node.try_clone()?)?;
    }
    Ok(copies)
}

#[cycle(cloning)]
fn copy_pairs(pairs: &Vec<(Node, Node)>) -> Result<Vec<(Node, Node)>, AllocError>
    ensures { IfOk result (λ copy. flat_map pair_events copy.items
        ≡ flat_map pair_events pairs.now.items) }
{
    let mut copies = Vec::new(*pairs.allocator());
    for (key, value) in pairs {
        copies.push((key.try_clone()?, value.try_clone()?))?;
    }
    Ok(copies)
}

fn copy_tag(tag: &Option<Tag>) -> Result<Option<Tag>, AllocError>
    ensures { IfOk result (λ copy. option_map resolved_tag copy ≡ option_map resolved_tag tag.now) }
{
    match tag {
        Some(tag) => Ok(Some(tag.try_clone()?)),
        None => Ok(None),
    }
}
