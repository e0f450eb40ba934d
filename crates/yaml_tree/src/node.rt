//! Nodes (YAML 1.2.2, 3.2.1.1), and their drop.
ghost use Rattle.std.specs.Prelude.{◌+◌, ◌<◌, ◌≤◌, ◌↔◌, None, IfSome, IsTrue};
ghost use Rattle.yaml_tree.specs.NodeLayer.{IsLayerOf};
ghost use Rattle.yaml_tree.specs.Weight.{node_weight, IsBare, turns};

use saphyr_parser::{ScalarStyle, Tag};
use std::mem;

/// A node of a tree.
///
/// The first number is the id of its anchor, or 0 if it has none. Aliases aren't followed, so no part of a
/// tree is shared or repeated. A node that is left out is a plain scalar with empty text.
#[derive(Debug, PartialEq, Eq)]
pub enum Node {
    /// An alias of the node whose anchor has this id.
    Alias(usize),
    /// A scalar: its text, how it is written, its anchor id and its tag.
    Scalar(String, ScalarStyle, usize, Option<Tag>),
    /// A sequence: its anchor id, its tag and its nodes.
    Seq(usize, Option<Tag>, Vec<Node>),
    /// A mapping: its anchor id, its tag and its pairs of a key and a value, in the order of the text.
    Map(usize, Option<Tag>, Vec<(Node, Node)>),
}

/// What a node was, once it is taken apart.
#[derive(Drop)]
pub(crate) enum Layer {
    Alias(usize),
    Scalar(String, ScalarStyle, usize, Option<Tag>),
    Seq(usize, Option<Tag>, Vec<Node>),
    Map(usize, Option<Tag>, Vec<(Node, Node)>),
}

impl Drop for Node {
    // The collections around a part are chained, each in the first place of the next inner one. So a deep tree
    // needs no more stack than a flat one, and no memory.
    fn drop(self) {
        let mut outer = Node::Alias(0);
        let mut part = self;
        loop {
            match part.turned(outer) {
                Some(next) => (outer, part) = next,
                None => return,
            }
        }
    }
}

impl Node {
    // The node's parts, for code elsewhere.
    pub(crate) fn into_layer(self) -> Layer
        ensures { IsLayerOf self result }
    {
        match self {
            Node::Alias(id) => Layer::Alias(id),
            Node::Scalar(text, style, id, tag) => Layer::Scalar(text, style, id, tag),
            Node::Seq(id, tag, nodes) => Layer::Seq(id, tag, nodes),
            Node::Map(id, tag, pairs) => Layer::Map(id, tag, pairs),
        }
    }

    // What is left of the two after one step. It drops a leaf or an empty collection, or swaps the first part
    // of a collection with what is outer.
    fn turned(self, outer: Node) -> Option<(Node, Node)>
        ensures { IfSome result (λ next. turns next.0 next.1 < turns outer self) }
    {
        match self {
            Node::Alias(_) => outer.next_part(),
            Node::Scalar(text, _, _, tag) => {
                drop((text, tag));
                outer.next_part()
            }
            Node::Seq(_, tag, nodes) => {
                drop(tag);
                turned_nodes(nodes, outer)
            }
            Node::Map(_, tag, pairs) => {
                drop(tag);
                turned_pairs(pairs, outer)
            }
        }
    }

    // What is outer after a step, and a part to drop next. If only what is outer is left, the step is the last.
    fn next_part(self) -> Option<(Node, Node)>
        ensures { IfSome result
            (λ next. node_weight next.0 + node_weight next.1 ≤ node_weight self) }
    {
        match self {
            Node::Alias(_) => None,
            Node::Scalar(text, _, _, tag) => {
                drop((text, tag));
                None
            }
            Node::Seq(_, tag, nodes) => {
                drop(tag);
                next_node(nodes)
            }
            Node::Map(_, tag, pairs) => {
                drop(tag);
                next_of_pairs(pairs)
            }
        }
    }

    // Whether no node is inside.
    fn is_bare(&self) -> bool
        ensures { IsTrue result ↔ IsBare self.now }
    {
        match self {
            Node::Alias(_) => true,
            Node::Scalar(_, _, _, _) => true,
            Node::Seq(_, _, nodes) => nodes.is_empty(),
            Node::Map(_, _, pairs) => pairs.is_empty(),
        }
    }

    fn drop_bare(self)
        requires { IsBare self }
    {
        match self {
            Node::Alias(_) => {}
            Node::Scalar(text, _, _, tag) => drop((text, tag)),
            Node::Seq(_, tag, nodes) => {
                drop(tag);
                nodes.destroy_empty();
            }
            Node::Map(_, tag, pairs) => {
                drop(tag);
                pairs.destroy_empty();
            }
        }
    }
}

fn turned_nodes(mut nodes: Vec<Node>, outer: Node) -> Option<(Node, Node)>
    ensures { IfSome result (λ next. turns next.0 next.1 < turns outer (Node.Seq 0 None nodes)) }
{
    if nodes.is_empty() {
        nodes.destroy_empty();
        return outer.next_part();
    }
    let part = mem::replace(&mut nodes[0], outer);
    Some((Node::Seq(0, None, nodes), part))
}

fn turned_pairs(mut pairs: Vec<(Node, Node)>, outer: Node) -> Option<(Node, Node)>
    ensures { IfSome result (λ next. turns next.0 next.1 < turns outer (Node.Map 0 None pairs)) }
{
    if pairs.is_empty() {
        pairs.destroy_empty();
        return outer.next_part();
    }
    let part = mem::replace(&mut pairs[0].0, outer);
    Some((Node::Map(0, None, pairs), part))
}

fn next_node(mut nodes: Vec<Node>) -> Option<(Node, Node)>
    ensures { IfSome result
        (λ next. node_weight next.0 + node_weight next.1 ≤ node_weight (Node.Seq 0 None nodes)) }
{
    match nodes.pop() {
        Some(outer) if nodes.is_empty() => {
            nodes.destroy_empty();
            Some((outer, Node::Alias(0)))
        }
        Some(part) => Some((Node::Seq(0, None, nodes), part)),
        None => {
            nodes.destroy_empty();
            None
        }
    }
}

// A value with nodes inside leaves a leaf in its place.
fn next_of_pairs(mut pairs: Vec<(Node, Node)>) -> Option<(Node, Node)>
    ensures { IfSome result
        (λ next. node_weight next.0 + node_weight next.1 ≤ node_weight (Node.Map 0 None pairs)) }
{
    if pairs.is_empty() {
        pairs.destroy_empty();
        return None;
    }
    let last = pairs.len() - 1;
    if !pairs[last].1.is_bare() {
        let value = mem::replace(&mut pairs[last].1, Node::Alias(0));
        return Some((Node::Map(0, None, pairs), value));
    }
    match pairs.pop() {
        Some((key, value)) => {
            value.drop_bare();
            if pairs.is_empty() {
                pairs.destroy_empty();
                return Some((key, Node::Alias(0)));
            }
            Some((Node::Map(0, None, pairs), key))
        }
        None => {
            pairs.destroy_empty();
            None
        }
    }
}
